//! Operations and replies as bytes.

ghost use Rattle.std.specs.Prelude.{All, ◌≡◌, ◌++◌, List, ℕ, Result, Err, Ok, IfOk, OnOk, length};
ghost use Rattle.std.specs.Int.{w8, w64};
ghost use Rattle.std.specs.List.{flat_map, list_all};
ghost use Rattle.zy_base.specs.declared.frame_fault.FrameFault.{FrameFault};
ghost use Rattle.zy_tuple.specs.Values.{IsFew, IsField, IsSlot, IsTuple, IsOp, IsReply, is_printable as printable};
ghost use Rattle.zy_tuple.specs.Bytes as spelled;
ghost use Rattle.zy_wire.specs.Spelling.{whole, repeated_at};

use crate::{Field, Op, OpFault, Reply, ReplyFault, Slot, Template, Tuple};
use std::alloc::Global;
use zy_base::{Bytes, Want};
use zy_wire::{Cut, Put};

/// How many fields a tuple or a template may have.
const FIELD_LIMIT: u8 = 8;

/// How many bytes a text field may have.
const TEXT_LIMIT: usize = 64;

// What stands in a list: a field of a tuple or a slot of a template.
trait Item: Sized + Drop {
    ghost item_at: { List ℕ → Result (Self × List ℕ) FrameFault };

    ghost item_bytes: { Self → List ℕ };

    ghost IsItem: { Self → Type 0 };

    fn get(alloc: Global, cut: &mut Cut) -> Result<Self, OpFault>
        ensures { spelled.ReadsOp (λ x. (x, cut.new)) result (item_at cut.old) };

    fn put(&self, out: &mut Put) -> Result<(), Want>
        requires { IsItem self.now }
        ensures { OnOk result (out.new ≡ out.old ++ item_bytes self.now) };
}

impl Item for Field {
    ghost item_at = { spelled.field_at };

    ghost item_bytes = { spelled.field_bytes };

    ghost IsItem = { IsField };

    #[tactic(auto, unfolding(crate::specs::Bytes::field_at))]
    fn get(alloc: Global, cut: &mut Cut) -> Result<Field, OpFault> {
        match cut.u8()? {
            1 => Ok(Field::Int(cut.u64()?.cast_signed())),
            2 => text(alloc, cut),
            _ => Err(OpFault::NotOp),
        }
    }

    fn put(&self, out: &mut Put) -> Result<(), Want> {
        match self {
            Field::Int(n) => {
                out.u8(1)?;
                out.u64(n.cast_unsigned())
            }
            Field::Text(text) => {
                out.u8(2)?;
                out.u8(text.len() as u8)?;
                out.raw(text.as_slice())
            }
        }
    }
}

#[tactic(auto, unfolding(crate::specs::Bytes::printable_text, zy_wire::specs::Fields::bytes_at, zy_wire::specs::Spelling::number_at))]
fn text(alloc: Global, cut: &mut Cut) -> Result<Field, OpFault>
    ensures { spelled.ReadsOp (λ x. (x, cut.new)) result (spelled.field_of_kind 2 cut.old) }
{
    let len = cut.u8()? as usize;
    if len > TEXT_LIMIT {
        return Err(OpFault::NotOp);
    }
    let text = cut.take(len)?;
    if !is_printable(text) {
        return Err(OpFault::NotOp);
    }
    Ok(Field::Text(Bytes::from_slice(alloc, text)?))
}

fn is_printable(text: &[u8]) -> bool
    ensures { result ≡ list_all printable text.now }
{
    text.iter().all(|c| *c >= 0x20 && *c <= 0x7E)
}

impl Item for Slot {
    ghost item_at = { spelled.slot_at };

    ghost item_bytes = { spelled.slot_bytes };

    ghost IsItem = { IsSlot };

    #[tactic(auto, unfolding(crate::specs::Bytes::slot_at, crate::specs::Bytes::field_at))]
    fn get(alloc: Global, cut: &mut Cut) -> Result<Slot, OpFault> {
        let mut ahead = cut.ahead();
        if ahead.u8()? == 0 {
            *cut = ahead;
            return Ok(Slot::Any);
        }
        Ok(Slot::Is(Field::get(alloc, cut)?))
    }

    fn put(&self, out: &mut Put) -> Result<(), Want> {
        match self {
            Slot::Any => out.u8(0),
            Slot::Is(field) => field.put(out),
        }
    }
}

// So many, one after the other.
fn some<T: Item>(alloc: Global, count: u8, cut: &mut Cut) -> Result<Vec<T>, OpFault>
    ensures { spelled.ReadsOp (λ x. (x.items, cut.new)) result (repeated_at (spelled.item T.item_bytes T.item_at T.IsItem) count cut.old) }
{
    let mut items = Vec::with_capacity(alloc, count as usize)?;
    for place in 0..count {
        items.push(T::get(alloc, cut)?)?;
    }
    Ok(items)
}

// One to eight, behind their count.
#[tactic(auto, unfolding(crate::specs::Bytes::few_at, zy_wire::specs::Spelling::number_at))]
fn few<T: Item>(alloc: Global, cut: &mut Cut) -> Result<Vec<T>, OpFault>
    ensures { spelled.ReadsOp (λ x. (x.items, cut.new)) result (spelled.few_at (spelled.item T.item_bytes T.item_at T.IsItem) cut.old) }
{
    let count = cut.u8()?;
    if count == 0 || count > FIELD_LIMIT {
        return Err(OpFault::NotOp);
    }
    some(alloc, count, cut)
}

#[tactic(auto, unfolding(crate::specs::Bytes::op_at))]
fn operation(alloc: Global, cut: &mut Cut) -> Result<Op, OpFault>
    ensures { spelled.ReadsOp (λ x. (x, cut.new)) result (spelled.op_at cut.old) }
{
    match cut.u8()? {
        1 => Ok(Op::Out(Tuple::from(few(alloc, cut)?))),
        2 => Ok(Op::Rdp(Template::from(few(alloc, cut)?))),
        3 => Ok(Op::Inp(Template::from(few(alloc, cut)?))),
        4 => {
            let template = Template::from(few(alloc, cut)?);
            let tuple = Tuple::from(few(alloc, cut)?);
            Ok(Op::Cas(template, tuple))
        }
        _ => Err(OpFault::NotOp),
    }
}

#[tactic(auto, unfolding(crate::specs::Bytes::reply_at))]
fn answer(alloc: Global, cut: &mut Cut) -> Result<Reply, OpFault>
    ensures { spelled.ReadsOp (λ x. (x, cut.new)) result (spelled.reply_at cut.old) }
{
    match cut.u8()? {
        0 => Ok(Reply::Done),
        1 => Ok(Reply::Got(Tuple::from(few(alloc, cut)?))),
        2 => Ok(Reply::Nothing),
        3 => Ok(Reply::True),
        4 => Ok(Reply::False),
        5 => Ok(Reply::Full),
        6 => Ok(Reply::Bad),
        _ => Err(OpFault::NotOp),
    }
}

#[tactic(auto, unfolding(crate::specs::Bytes::op_in))]
fn whole_operation(alloc: Global, bytes: &[u8]) -> Result<Op, OpFault>
    ensures { spelled.ReadsOp (λ x. x) result (spelled.op_in bytes.now) }
{
    let mut cut = Cut::new(bytes);
    let op = operation(alloc, &mut cut)?;
    cut.end()?;
    Ok(op)
}

#[tactic(auto, unfolding(crate::specs::Bytes::reply_in))]
fn whole_answer(alloc: Global, bytes: &[u8]) -> Result<Reply, OpFault>
    ensures { spelled.ReadsOp (λ x. x) result (spelled.reply_in bytes.now) }
{
    let mut cut = Cut::new(bytes);
    let reply = answer(alloc, &mut cut)?;
    cut.end()?;
    Ok(reply)
}

#[tactic(auto, unfolding(crate::specs::Bytes::few_bytes))]
fn put_few<T: Item>(out: &mut Put, items: &[T]) -> Result<(), Want>
    requires few { IsFew items.now }
    requires each { All T.IsItem items.now }
    ensures { OnOk result (out.new ≡ out.old ++ spelled.few_bytes T.item_bytes items.now) }
{
    out.u8(items.len() as u8)?;
    for item in items {
        item.put(out)?;
    }
    Ok(())
}

/// The operation that the bytes spell, all of them. `NotOp` exactly where they spell none.
pub fn op_read(alloc: Global, bytes: &[u8]) -> Result<Op, OpFault>
    // What is read is spelled so.
    ensures found { IfOk result (λ op. IsOp op × (bytes.now ≡ spelled.op_bytes op)) }
    // What is spelled so is read, unless memory runs out.
    ensures only { (op : Op) → IsOp op → bytes.now ≡ spelled.op_bytes op → spelled.ReadsOp (λ x. x) result (Ok op) }
    // Whether it is an operation or not.
    ensures exact { spelled.ReadsOp (λ x. x) result (spelled.op_in bytes.now) }
{
    whole_operation(alloc, bytes)
}

/// The reply that the bytes spell, all of them. `NotReply` exactly where they spell none.
pub fn reply_read(alloc: Global, bytes: &[u8]) -> Result<Reply, ReplyFault>
    ensures found { IfOk result (λ reply. IsReply reply × (bytes.now ≡ spelled.reply_bytes reply)) }
    ensures only { (reply : Reply) → IsReply reply → bytes.now ≡ spelled.reply_bytes reply → spelled.ReadsReply result (Ok reply) }
    ensures exact { spelled.ReadsReply result (spelled.reply_in bytes.now) }
{
    match whole_answer(alloc, bytes) {
        Ok(reply) => Ok(reply),
        Err(OpFault::NotOp) => Err(ReplyFault::NotReply),
        Err(OpFault::Want) => Err(ReplyFault::Want),
    }
}

/// The one spelling of an operation.
pub fn op_bytes(alloc: Global, op: &Op) -> Result<Bytes, Want>
    requires { IsOp op.now }
    ensures { IfOk result (λ b. b ≡ spelled.op_bytes op.now) }
{
    let mut out = Put::new(alloc);
    match op {
        Op::Out(tuple) => {
            out.u8(1)?;
            put_few(&mut out, tuple.fields())?;
        }
        Op::Rdp(template) => {
            out.u8(2)?;
            put_few(&mut out, template.slots())?;
        }
        Op::Inp(template) => {
            out.u8(3)?;
            put_few(&mut out, template.slots())?;
        }
        Op::Cas(template, tuple) => {
            out.u8(4)?;
            put_few(&mut out, template.slots())?;
            put_few(&mut out, tuple.fields())?;
        }
    }
    Ok(out.done())
}

/// The one spelling of a reply.
pub fn reply_bytes(alloc: Global, reply: &Reply) -> Result<Bytes, Want>
    requires { IsReply reply.now }
    ensures { IfOk result (λ b. b ≡ spelled.reply_bytes reply.now) }
{
    let mut out = Put::new(alloc);
    match reply {
        Reply::Done => out.u8(0)?,
        Reply::Got(tuple) => {
            out.u8(1)?;
            put_few(&mut out, tuple.fields())?;
        }
        Reply::Nothing => out.u8(2)?,
        Reply::True => out.u8(3)?,
        Reply::False => out.u8(4)?,
        Reply::Full => out.u8(5)?,
        Reply::Bad => out.u8(6)?,
    }
    Ok(out.done())
}

/// The tuple at the front of the bytes, which then begin behind it. `NotOp` exactly where they begin with none.
pub fn tuple_get(alloc: Global, cut: &mut Cut) -> Result<Tuple, OpFault>
    ensures { spelled.ReadsOp (λ x. (x, cut.new)) result (spelled.tuple_spelling.at cut.old) }
{
    Ok(Tuple::from(few(alloc, cut)?))
}

/// Puts the one spelling of a tuple at the end. After `Want` a part of it may stand there.
pub fn tuple_put(out: &mut Put, tuple: &Tuple) -> Result<(), Want>
    requires { IsTuple tuple.now }
    ensures { OnOk result (out.new ≡ out.old ++ spelled.tuple_bytes tuple.now) }
{
    put_few(out, tuple.fields())
}
