ghost use Rattle.std.specs.Prelude.{◌≡◌, ◌^◌, ◌<◌, List, [], length};
ghost use Rattle.std.specs.Cmp.Lexicographic.{pointwise};

use std::alloc::AllocError;
use std::marker::Model;
use zy_base::Bytes;

/// A field of a tuple: a number of 64 bits, or a text of up to 64 bytes from 0x20 to 0x7E.
#[derive(Debug, Clone, PartialEq, Eq, Drop)]
pub enum Field {
    Int(i64),
    Text(Bytes),
}

/// A field of a template: a wildcard, or the field that is wanted.
#[derive(Debug, Clone, PartialEq, Eq, Drop)]
pub enum Slot {
    Any,
    Is(Field),
}

/// A tuple of 1 to 8 fields. Contracts see the list of its fields.
#[derive(Debug, Drop)]
pub struct Tuple {
    fields: Vec<Field>,
}

impl Model for Tuple {
    ghost use Rattle.std.specs.Prelude.{List};
    ghost use Rattle.zy_tuple.specs.declared.values.Field.{Field};

    ghost Value = { List Field };

    ghost view = { λ t. t.fields.items };
}

impl Tuple {
    pub fn fields(&self) -> &[Field]
        ensures { result.now ≡ self.now }
    {
        &self.fields
    }
}

impl From<Vec<Field>> for Tuple {
    ghost from_gives = { λ v t. t ≡ v.items };

    /// Takes no memory.
    fn from(fields: Vec<Field>) -> Tuple {
        Tuple { fields }
    }
}

impl Clone for Tuple {
    ghost is_clone = { λ a b. b ≡ a };

    fn clone(&self) -> Result<Tuple, AllocError> {
        Ok(Tuple {
            fields: self.fields.clone()?,
        })
    }
}

/// A template of 1 to 8 slots. Contracts see the list of its slots.
#[derive(Debug, Drop)]
pub struct Template {
    slots: Vec<Slot>,
}

impl Model for Template {
    ghost use Rattle.std.specs.Prelude.{List};
    ghost use Rattle.zy_tuple.specs.declared.values.Slot.{Slot};

    ghost Value = { List Slot };

    ghost view = { λ t. t.slots.items };
}

impl Template {
    pub fn slots(&self) -> &[Slot]
        ensures { result.now ≡ self.now }
    {
        &self.slots
    }
}

impl From<Vec<Slot>> for Template {
    ghost from_gives = { λ v t. t ≡ v.items };

    /// Takes no memory.
    fn from(slots: Vec<Slot>) -> Template {
        Template { slots }
    }
}

/// An operation of the tuple space.
#[derive(Debug, Drop)]
pub enum Op {
    /// Puts a tuple at the end.
    Out(Tuple),
    /// Reads the oldest match.
    Rdp(Template),
    /// Takes the oldest match out.
    Inp(Template),
    /// Puts the tuple at the end where none matches the template.
    Cas(Template, Tuple),
}

/// What the tuple space answers.
#[derive(Debug, Drop)]
pub enum Reply {
    /// The tuple was put in.
    Done,
    /// The match that was read or taken.
    Got(Tuple),
    /// Nothing matches.
    Nothing,
    /// No tuple matched, and the tuple was put in.
    True,
    /// Some tuple matches.
    False,
    /// An insertion was due, and there is no room.
    Full,
    /// The bytes spell no operation.
    Bad,
}
