ghost use Rattle.std.specs.Prelude.{◌≡◌};
ghost use Rattle.zy_law.specs.Histories.{origin};
ghost use Rattle.zy_world.specs.Shown.{mark_after};

use std::marker::Model;
use zy_base::{Digest, Place};
use zy_chain::EMPTY_HEAD;
use zy_table::Done;

/// The place and the head of the agreed list.
#[derive(Debug, Drop)]
pub(crate) struct Agreed {
    pub(crate) place: Place,
    pub(crate) head: Digest,
}

impl Model for Agreed {
    ghost use Rattle.zy_chain.specs.Stretch.{Mark};

    ghost Value = { Mark };

    ghost view = { λ a. record { place = a.place.0; head = a.head } };
}

impl Agreed {
    /// That of the empty list.
    pub(crate) fn none() -> Agreed
        ensures { result ≡ origin }
    {
        Agreed {
            place: Place(0),
            head: EMPTY_HEAD,
        }
    }

    /// Of several completions at the greatest place the first counts.
    pub(crate) fn complete(&mut self, done: &Option<Done>)
        ensures { self.new ≡ mark_after self.old done.now }
    {
        if let Some(done) = done {
            if self.place < done.place {
                self.place = done.place;
                self.head = done.head;
            }
        }
    }
}
