ghost use Rattle.std.specs.Prelude.{◌≡◌};
ghost use Rattle.zy_tuple.specs.Values.{fits_slot, matches as matched};

use crate::{Field, Slot, Template, Tuple};

fn fits(slot: &Slot, field: &Field) -> bool
    ensures { result ≡ fits_slot slot.now field.now }
{
    match slot {
        Slot::Any => true,
        Slot::Is(wanted) => wanted == field,
    }
}

/// Whether a tuple has as many fields as a template has slots, each slot that is no wildcard equal to its field.
pub fn matches(template: &Template, tuple: &Tuple) -> bool
    ensures { result ≡ matched template.now tuple.now }
{
    let slots = template.slots();
    let fields = tuple.fields();
    if slots.len() != fields.len() {
        return false;
    }
    for (slot, field) in slots.iter().zip(fields) {
        if !fits(slot, field) {
            return false;
        }
    }
    true
}
