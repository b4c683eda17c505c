//! Operations, replies and tuples with their owners as bytes.

ghost use Rattle.std.specs.Prelude.{◌≡◌, ◌++◌, Ok, IfOk, OnOk};
ghost use Rattle.zy_tuple.specs.Bytes.{ReadsOp};
ghost use Rattle.zy_tuple.specs.Values.{IsTuple};
ghost use Rattle.zy_guard.specs.GuardedSpace.{IsGuardOp, IsGuardReply, IsOwned};
ghost use Rattle.zy_guard.specs.Bytes as spelled;
ghost use Rattle.zy_guard.specs.declared.values.GuardOp.{GuardOp};

use crate::templates::{template_get, template_put};
use crate::{Access, ClientSet, Denial, GuardOp, GuardReply, Owned};
use std::alloc::Global;
use zy_base::{Bytes, ClientId, Want};
use zy_tuple::{OpFault, Tuple, reply_bytes, tuple_get, tuple_put};
use zy_wire::{Cut, Put};

fn access_get(cut: &mut Cut) -> Result<Access, OpFault>
    ensures { ReadsOp (λ x. (x, cut.new)) result (spelled.access_spelling.at cut.old) }
{
    let readers = ClientSet(cut.u64()?);
    let takers = ClientSet(cut.u64()?);
    Ok(Access { readers, takers })
}

fn access_put(out: &mut Put, access: Access) -> Result<(), Want>
    ensures { OnOk result (out.new ≡ out.old ++ spelled.access_spelling.spell access) }
{
    out.u64(access.readers.0)?;
    out.u64(access.takers.0)
}

// A tuple behind its readers and takers.
fn out_get(alloc: Global, cut: &mut Cut) -> Result<(Access, Tuple), OpFault>
    ensures { ReadsOp (λ x. (x, cut.new)) result (spelled.out_spelling.at cut.old) }
{
    let access = access_get(cut)?;
    Ok((access, tuple_get(alloc, cut)?))
}

fn out_put(out: &mut Put, access: Access, tuple: &Tuple) -> Result<(), Want>
    requires { IsTuple tuple.now }
    ensures { OnOk result (out.new ≡ out.old ++ spelled.out_spelling.spell (access, tuple.now)) }
{
    access_put(out, access)?;
    tuple_put(out, tuple)
}

fn cas_get(alloc: Global, cut: &mut Cut) -> Result<GuardOp, OpFault>
    ensures { ReadsOp (λ x. (x, cut.new)) result (spelled.cas_at cut.old) }
{
    let template = template_get(alloc, cut)?;
    let (access, tuple) = out_get(alloc, cut)?;
    Ok(GuardOp::Cas(template, access, tuple))
}

#[tactic(auto, unfolding(crate::specs::Bytes::op_at))]
fn op_get(alloc: Global, cut: &mut Cut) -> Result<GuardOp, OpFault>
    ensures { ReadsOp (λ x. (x, cut.new)) result (spelled.op_at cut.old) }
{
    match cut.u8()? {
        5 => {
            let (access, tuple) = out_get(alloc, cut)?;
            Ok(GuardOp::Out(access, tuple))
        }
        6 => Ok(GuardOp::Rdp(template_get(alloc, cut)?)),
        7 => Ok(GuardOp::Inp(template_get(alloc, cut)?)),
        8 => cas_get(alloc, cut),
        _ => Err(OpFault::NotOp),
    }
}

#[tactic(auto, unfolding(crate::specs::Bytes::op_in))]
fn whole_op(alloc: Global, bytes: &[u8]) -> Result<GuardOp, OpFault>
    ensures { ReadsOp (λ x. x) result (spelled.op_in bytes.now) }
{
    let mut cut = Cut::new(bytes);
    let op = op_get(alloc, &mut cut)?;
    cut.end()?;
    Ok(op)
}

/// The operation that the bytes spell, all of them. `NotOp` exactly where they spell none.
pub fn op_read(alloc: Global, bytes: &[u8]) -> Result<GuardOp, OpFault>
    // What is read is spelled so.
    ensures found { IfOk result (λ op. IsGuardOp op × (bytes.now ≡ spelled.op_bytes op)) }
    // What is spelled so is read, unless memory runs out.
    ensures only { (op : GuardOp) → IsGuardOp op → bytes.now ≡ spelled.op_bytes op → ReadsOp (λ x. x) result (Ok op) }
    // Whether it is an operation or not.
    ensures exact { ReadsOp (λ x. x) result (spelled.op_in bytes.now) }
{
    whole_op(alloc, bytes)
}

/// The one spelling of an operation.
pub fn op_bytes(alloc: Global, op: &GuardOp) -> Result<Bytes, Want>
    requires { IsGuardOp op.now }
    ensures { IfOk result (λ bytes. bytes ≡ spelled.op_bytes op.now) }
{
    let mut out = Put::new(alloc);
    match op {
        GuardOp::Out(access, tuple) => {
            out.u8(5)?;
            out_put(&mut out, *access, tuple)?;
        }
        GuardOp::Rdp(template) => {
            out.u8(6)?;
            template_put(&mut out, template)?;
        }
        GuardOp::Inp(template) => {
            out.u8(7)?;
            template_put(&mut out, template)?;
        }
        GuardOp::Cas(template, access, tuple) => {
            out.u8(8)?;
            template_put(&mut out, template)?;
            out_put(&mut out, *access, tuple)?;
        }
    }
    Ok(out.done())
}

fn denial_bytes(alloc: Global, denial: Denial) -> Result<Bytes, Want>
    ensures { IfOk result (λ bytes. bytes ≡ spelled.denial_bytes denial) }
{
    let mut out = Put::new(alloc);
    out.u8(7)?;
    out.u8(denial.rule())?;
    Ok(out.done())
}

/// The one spelling of a reply.
pub fn guard_reply_bytes(alloc: Global, reply: &GuardReply) -> Result<Bytes, Want>
    requires { IsGuardReply reply.now }
    ensures { IfOk result (λ bytes. bytes ≡ spelled.guard_reply_bytes reply.now) }
{
    match reply {
        GuardReply::Plain(reply) => reply_bytes(alloc, reply),
        GuardReply::Denied(denial) => denial_bytes(alloc, *denial),
    }
}

fn is_kept(owned: &Owned) -> bool
    ensures { result ≡ spelled.is_kept owned.now }
{
    owned.owner.0 < 64
        && owned.access.readers.has(owned.owner)
        && owned.access.takers.is_within(owned.access.readers)
}

fn parts_get(alloc: Global, cut: &mut Cut) -> Result<Owned, OpFault>
    ensures { ReadsOp (λ x. (spelled.owned_parts x, cut.new)) result (spelled.owned_fields.at cut.old) }
{
    let owner = ClientId(u32::from(cut.u8()?));
    let (access, tuple) = out_get(alloc, cut)?;
    Ok(Owned {
        owner,
        access,
        tuple,
    })
}

/// The tuple with its owner at the front of the bytes, which then begin behind it. `NotOp` exactly where they begin
/// with none.
#[tactic(auto, unfolding(crate::specs::Bytes::owned_at))]
pub fn owned_get(alloc: Global, cut: &mut Cut) -> Result<Owned, OpFault>
    ensures { ReadsOp (λ x. (x, cut.new)) result (spelled.owned_spelling.at cut.old) }
{
    let owned = parts_get(alloc, cut)?;
    if is_kept(&owned) {
        Ok(owned)
    } else {
        Err(OpFault::NotOp)
    }
}

/// Puts the one spelling of a tuple with its owner at the end. After `Want` a part of it may stand there.
#[tactic(auto, unfolding(crate::specs::Bytes::owned_bytes))]
pub fn owned_put(out: &mut Put, owned: &Owned) -> Result<(), Want>
    requires { IsOwned owned.now }
    ensures { OnOk result (out.new ≡ out.old ++ spelled.owned_spelling.spell owned.now) }
{
    out.u8(owned.owner.0 as u8)?;
    out_put(out, owned.access, &owned.tuple)
}
