//! Templates as bytes, as they stand in the operations of the tuple space.

ghost use Rattle.std.specs.Prelude.{All, ◌≡◌, ◌++◌, length, OnOk};
ghost use Rattle.std.specs.List.{list_all};
ghost use Rattle.zy_tuple.specs.Values.{IsField, IsSlot, IsTemplate, is_printable as printable};
ghost use Rattle.zy_tuple.specs.Bytes as spelled;
ghost use Rattle.zy_wire.specs.Spelling.{repeated_at};

use std::alloc::Global;
use zy_base::{Bytes, Want};
use zy_tuple::{Field, OpFault, Slot, Template};
use zy_wire::{Cut, Put};

/// How many slots a template may have.
const SLOT_LIMIT: u8 = 8;

/// How many bytes a text field may have.
const TEXT_LIMIT: usize = 64;

fn is_printable(text: &[u8]) -> bool
    ensures { result ≡ list_all printable text.now }
{
    text.iter().all(|c| *c >= 0x20 && *c <= 0x7E)
}

#[tactic(auto, unfolding(zy_tuple::specs::Bytes::printable_text, zy_wire::specs::Fields::bytes_at, zy_wire::specs::Spelling::number_at))]
fn text(alloc: Global, cut: &mut Cut) -> Result<Field, OpFault>
    ensures { spelled.ReadsOp (λ x. (x, cut.new)) result (spelled.field_of_kind 2 cut.old) }
{
    let len = cut.u8()? as usize;
    if len > TEXT_LIMIT {
        return Err(OpFault::NotOp);
    }
    let text = cut.take(len)?;
    if !is_printable(text) {
        return Err(OpFault::NotOp);
    }
    Ok(Field::Text(Bytes::from_slice(alloc, text)?))
}

#[tactic(auto, unfolding(zy_tuple::specs::Bytes::slot_at))]
fn slot_get(alloc: Global, cut: &mut Cut) -> Result<Slot, OpFault>
    ensures { spelled.ReadsOp (λ x. (x, cut.new)) result (spelled.slot_at cut.old) }
{
    match cut.u8()? {
        0 => Ok(Slot::Any),
        1 => Ok(Slot::Is(Field::Int(cut.u64()?.cast_signed()))),
        2 => Ok(Slot::Is(text(alloc, cut)?)),
        _ => Err(OpFault::NotOp),
    }
}

// So many, one after the other.
fn slots_get(alloc: Global, count: u8, cut: &mut Cut) -> Result<Vec<Slot>, OpFault>
    ensures { spelled.ReadsOp (λ x. (x.items, cut.new)) result (repeated_at spelled.slot count cut.old) }
{
    let mut slots = Vec::with_capacity(alloc, count as usize)?;
    for place in 0..count {
        slots.push(slot_get(alloc, cut)?)?;
    }
    Ok(slots)
}

/// The template at the front of the bytes, which then begin behind it. `NotOp` exactly where they begin with none.
#[tactic(auto, unfolding(zy_tuple::specs::Bytes::few_at, zy_wire::specs::Spelling::number_at))]
pub fn template_get(alloc: Global, cut: &mut Cut) -> Result<Template, OpFault>
    ensures { spelled.ReadsOp (λ x. (x, cut.new)) result (spelled.few_at spelled.slot cut.old) }
{
    let count = cut.u8()?;
    if count == 0 || count > SLOT_LIMIT {
        return Err(OpFault::NotOp);
    }
    Ok(Template::from(slots_get(alloc, count, cut)?))
}

fn field_put(out: &mut Put, field: &Field) -> Result<(), Want>
    requires { IsField field.now }
    ensures { OnOk result (out.new ≡ out.old ++ spelled.field_bytes field.now) }
{
    match field {
        Field::Int(n) => {
            out.u8(1)?;
            out.u64(n.cast_unsigned())
        }
        Field::Text(text) => {
            out.u8(2)?;
            out.u8(text.len() as u8)?;
            out.raw(text.as_slice())
        }
    }
}

fn slot_put(out: &mut Put, slot: &Slot) -> Result<(), Want>
    requires { IsSlot slot.now }
    ensures { OnOk result (out.new ≡ out.old ++ spelled.slot_bytes slot.now) }
{
    match slot {
        Slot::Any => out.u8(0),
        Slot::Is(field) => field_put(out, field),
    }
}

/// Puts the one spelling of a template at the end. After `Want` a part of it may stand there.
#[tactic(auto, unfolding(zy_tuple::specs::Bytes::few_bytes))]
pub fn template_put(out: &mut Put, template: &Template) -> Result<(), Want>
    requires { IsTemplate template.now }
    ensures { OnOk result (out.new ≡ out.old ++ spelled.template_bytes template.now) }
{
    let slots = template.slots();
    out.u8(slots.len() as u8)?;
    for slot in slots {
        slot_put(out, slot)?;
    }
    Ok(())
}
