ghost use Rattle.std.specs.Prelude.{◌≡◌, ◌<◌};

use std::marker::Model;

/// The place of a slot or none, in four bytes.
#[derive(Clone, Copy, Debug)]
pub struct Index {
    raw: u32,
}

// The number that is no place.
const NO_PLACE: u32 = u32::MAX;

impl Model for Index {
    ghost use Rattle.std.specs.Prelude.{ℕ, Option};

    ghost Value = { Option ℕ };

    ghost use Rattle.zy_slots.specs.Places.{place_of, index_of, index_of_place};

    ghost view = { place_of };

    ghost inverse = { index_of };

    ghost inverse_ok = { λ index _. index_of_place index };
}

impl Index {
    /// No place.
    pub fn none() -> Index
        ensures { result ≡ None }
    {
        Index { raw: NO_PLACE }
    }

    /// A place below 2^32 - 1.
    pub fn at(place: usize) -> Index
        requires { place < 4294967295 }
        ensures { result ≡ Some place }
    {
        Index { raw: place as u32 }
    }

    /// The place, if there is one.
    pub fn get(self) -> Option<usize>
        ensures { result ≡ self }
    {
        if self.raw == NO_PLACE {
            None
        } else {
            Some(self.raw as usize)
        }
    }
}
