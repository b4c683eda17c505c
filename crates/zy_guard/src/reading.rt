//! Lines of guard scripts, read from left to right.

ghost use Rattle.std.specs.Prelude.{◌≡◌, IfOk};
ghost use Rattle.zy_tuple.specs.Reading.{Gives};
ghost use Rattle.zy_guard.specs.Bytes as spelled;
ghost use Rattle.zy_guard.specs.GuardedSpace.{IsAccess, IsGuardOp};
ghost use Rattle.zy_guard.specs.Lines as lines;
ghost use Rattle.zy_guard.specs.declared.values.GuardOp.{GuardOp};

use crate::parts::{behind_space, first_word, last_template, last_tuple, template_behind_space};
use crate::sets::set_behind_space;
use crate::spelling::op_bytes;
use crate::{Access, GuardOp};
use std::alloc::Global;
use zy_base::{Bytes, ClientId, Party};
use zy_tuple::{LineFault, party_text_read};

// The readers and the takers.
#[tactic(auto, unfolding(crate::specs::Lines::access_part))]
fn access_behind_space(line: &[u8]) -> Result<(Access, &[u8]), LineFault>
    ensures read { Gives (λ x. (x.0, x.1.now)) result (lines.access_part line.now) }
    ensures found { IfOk result (λ x. IsAccess x.0) }
{
    let (readers, rest) = set_behind_space(line)?;
    let (takers, rest) = set_behind_space(rest)?;
    Ok((Access { readers, takers }, rest))
}

fn out_op(alloc: Global, rest: &[u8]) -> Result<GuardOp, LineFault>
    ensures read { Gives (λ x. x) result (lines.out_op rest.now) }
    ensures found { IfOk result IsGuardOp }
{
    let (access, rest) = access_behind_space(rest)?;
    Ok(GuardOp::Out(access, last_tuple(alloc, rest)?))
}

fn cas_op(alloc: Global, rest: &[u8]) -> Result<GuardOp, LineFault>
    ensures read { Gives (λ x. x) result (lines.cas_op rest.now) }
    ensures found { IfOk result IsGuardOp }
{
    let (template, rest) = template_behind_space(alloc, rest)?;
    let (access, rest) = access_behind_space(rest)?;
    let tuple = last_tuple(alloc, rest)?;
    Ok(GuardOp::Cas(template, access, tuple))
}

#[tactic(auto, unfolding(crate::specs::Lines::worded_op))]
fn worded(alloc: Global, word: &[u8], rest: &[u8]) -> Result<GuardOp, LineFault>
    ensures read { Gives (λ x. x) result (lines.worded_op word.now rest.now) }
    ensures found { IfOk result IsGuardOp }
{
    if word == b"out".as_slice() {
        out_op(alloc, rest)
    } else if word == b"rdp".as_slice() {
        Ok(GuardOp::Rdp(last_template(alloc, rest)?))
    } else if word == b"inp".as_slice() {
        Ok(GuardOp::Inp(last_template(alloc, rest)?))
    } else if word == b"cas".as_slice() {
        cas_op(alloc, rest)
    } else {
        Err(LineFault::Rule(2))
    }
}

#[tactic(auto, unfolding(crate::specs::Lines::op_part))]
fn op_behind_space(alloc: Global, line: &[u8]) -> Result<GuardOp, LineFault>
    ensures read { Gives (λ x. x) result (lines.op_part line.now) }
    ensures found { IfOk result IsGuardOp }
{
    let (word, rest) = first_word(behind_space(line)?);
    worded(alloc, word, rest)
}

#[tactic(auto, unfolding(crate::specs::Lines::line_read))]
fn line_op(alloc: Global, line: &[u8]) -> Result<(ClientId, GuardOp), LineFault>
    ensures read { Gives (λ x. x) result (lines.line_read line.now) }
    ensures found { IfOk result (λ x. IsGuardOp x.1) }
{
    let (word, rest) = first_word(line);
    match party_text_read(word) {
        Some(Party::Client(client)) => Ok((client, op_behind_space(alloc, rest)?)),
        Some(Party::Replica(_)) | None => Err(LineFault::Rule(8)),
    }
}

/// The client and the bytes of the operation that a line of a guard script spells, all of the line.
pub fn gop_text_read(alloc: Global, line: &[u8]) -> Result<(ClientId, Bytes), LineFault>
    // The bytes are those of an operation.
    ensures found { IfOk result (λ read. (op : GuardOp) × IsGuardOp op × (read.1 ≡ spelled.op_bytes op)) }
    // Which operation it is, or which rule.
    ensures exact { Gives (λ read. read) result (lines.line_bytes line.now) }
{
    let (client, op) = line_op(alloc, line)?;
    Ok((client, op_bytes(alloc, &op)?))
}
