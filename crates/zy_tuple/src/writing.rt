//! The texts of operations and replies.

ghost use Rattle.std.specs.Prelude.{◌≡◌, ◌∷◌, [], ◌++◌, List, ℕ, map, IfOk, OnOk};
ghost use Rattle.std.specs.List.{flat_map};
ghost use Rattle.zy_tuple.specs.Texts as texts;
ghost use Rattle.zy_tuple.specs.Values.{IsOp, IsReply, IsField, IsSlot};

use crate::{Field, Op, Reply, Slot};
use std::alloc::Global;
use zy_base::{Bytes, Want};

// What stands between brackets.
trait Item {
    ghost text: { Self → List ℕ };

    fn write(&self, alloc: Global, out: &mut Vec<u8>) -> Result<(), Want>
        ensures { OnOk result (out.new.items ≡ out.old.items ++ text self.now) };
}

impl Item for Field {
    ghost text = { texts.field_text };

    fn write(&self, alloc: Global, out: &mut Vec<u8>) -> Result<(), Want> {
        match self {
            Field::Int(n) => {
                let digits = n.to_string(alloc)?;
                out.extend_from_slice(digits.as_bytes())?;
            }
            Field::Text(text) => {
                out.push(b'"')?;
                write_escaped(out, text.as_slice())?;
                out.push(b'"')?;
            }
        }
        Ok(())
    }
}

impl Item for Slot {
    ghost text = { texts.slot_text };

    fn write(&self, alloc: Global, out: &mut Vec<u8>) -> Result<(), Want> {
        match self {
            Slot::Any => {
                out.push(b'*')?;
                Ok(())
            }
            Slot::Is(field) => field.write(alloc, out),
        }
    }
}

fn write_escaped(out: &mut Vec<u8>, text: &[u8]) -> Result<(), Want>
    ensures { OnOk result (out.new.items ≡ out.old.items ++ flat_map texts.escaped text.now) }
{
    for c in text {
        if *c == b'"' || *c == b'\\' {
            out.push(b'\\')?;
        }
        out.push(*c)?;
    }
    Ok(())
}

// Each behind a space.
fn write_others<T: Item>(alloc: Global, out: &mut Vec<u8>, items: &[T]) -> Result<(), Want>
    ensures { OnOk result (out.new.items ≡ out.old.items ++ flat_map texts.behind_space (map T.text items.now)) }
{
    for item in items {
        out.push(b' ')?;
        item.write(alloc, out)?;
    }
    Ok(())
}

fn write_list<T: Item>(alloc: Global, out: &mut Vec<u8>, items: &[T]) -> Result<(), Want>
    ensures { OnOk result (out.new.items ≡ out.old.items ++ texts.bracketed (map T.text items.now)) }
{
    out.push(b'(')?;
    if let [first, others @ ..] = items {
        first.write(alloc, out)?;
        write_others(alloc, out, others)?;
    }
    out.push(b')')?;
    Ok(())
}

/// The one text of an operation.
pub fn op_text(alloc: Global, op: &Op) -> Result<Bytes, Want>
    requires { IsOp op.now }
    ensures { IfOk result (λ text. text ≡ texts.op_text op.now) }
{
    let mut out = Vec::new(alloc);
    match op {
        Op::Out(tuple) => {
            out.extend_from_slice(b"out ")?;
            write_list(alloc, &mut out, tuple.fields())?;
        }
        Op::Rdp(template) => {
            out.extend_from_slice(b"rdp ")?;
            write_list(alloc, &mut out, template.slots())?;
        }
        Op::Inp(template) => {
            out.extend_from_slice(b"inp ")?;
            write_list(alloc, &mut out, template.slots())?;
        }
        Op::Cas(template, tuple) => {
            out.extend_from_slice(b"cas ")?;
            write_list(alloc, &mut out, template.slots())?;
            out.push(b' ')?;
            write_list(alloc, &mut out, tuple.fields())?;
        }
    }
    Ok(Bytes::from(out))
}

/// The one text of a reply.
pub fn reply_text(alloc: Global, reply: &Reply) -> Result<Bytes, Want>
    requires { IsReply reply.now }
    ensures { IfOk result (λ text. text ≡ texts.reply_text reply.now) }
{
    let mut out = Vec::new(alloc);
    reply_text_put(alloc, &mut out, reply)?;
    Ok(Bytes::from(out))
}

/// Puts the one text of a reply at the end. After `Want` a part of it may stand there.
pub fn reply_text_put(alloc: Global, out: &mut Vec<u8>, reply: &Reply) -> Result<(), Want>
    requires { IsReply reply.now }
    ensures { OnOk result (out.new.items ≡ out.old.items ++ texts.reply_text reply.now) }
{
    match reply {
        Reply::Done => out.extend_from_slice(b"ok")?,
        Reply::Got(tuple) => {
            out.extend_from_slice(b"tuple ")?;
            write_list(alloc, out, tuple.fields())?;
        }
        Reply::Nothing => out.extend_from_slice(b"none")?,
        Reply::True => out.extend_from_slice(b"true")?,
        Reply::False => out.extend_from_slice(b"false")?,
        Reply::Full => out.extend_from_slice(b"full")?,
        Reply::Bad => out.extend_from_slice(b"bad")?,
    }
    Ok(())
}
