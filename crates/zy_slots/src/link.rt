ghost use Rattle.std.specs.Prelude.{◌≡◌, ◌<◌};

use crate::index::Index;

/// The neighbours of a slot in a ring, or a ring's own link: its last and its first slot.
#[derive(Clone, Copy, Debug)]
pub struct Link {
    pub prev: Index,
    pub next: Index,
}

impl Link {
    /// No neighbours.
    pub fn none() -> Link
        ensures { result ≡ record { prev = None; next = None } }
    {
        Link {
            prev: Index::none(),
            next: Index::none(),
        }
    }

    /// One neighbour on both sides.
    pub fn both(place: usize) -> Link
        requires { place < 4294967295 }
        ensures { result ≡ record { prev = Some place; next = Some place } }
    {
        Link {
            prev: Index::at(place),
            next: Index::at(place),
        }
    }
}
