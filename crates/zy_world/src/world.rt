ghost use Rattle.std.specs.Prelude.{◌≡◌, option_copied, option_map, true, false};
ghost use Rattle.zy_world.specs.Shows.{Shows};
ghost use Rattle.zy_world_law.specs.Safe.{agreed_mark};
ghost use Rattle.zy_world_law.specs.World.{World as Whole, replica_at, client_at};

use crate::agreed::Agreed;
use crate::bag::Bag;
use crate::liars::Liars;
use crate::mutes::Muted;
use crate::seats::Seats;
use std::alloc::Global;
use std::marker::Model;
use zy_base::{ClientId, Digest, Machine, Place, ReplicaId};
use zy_client::Client;
use zy_replica::Replica;
use zy_seal::Directory;
use zy_world_setup::{KeptTexts, SaidTexts, Setup};

/// All parties of a replay, the frames that were sent, and the texts that are kept. Contracts say of each whole world that it
/// shows what an event makes of it.
#[derive(Drop)]
pub struct World<M: Machine> {
    pub(crate) alloc: Global,
    pub(crate) setup: Setup,
    pub(crate) directory: Directory,
    pub(crate) seats: Seats<M>,
    pub(crate) liars: Liars,
    pub(crate) bag: Bag,
    pub(crate) muted: Muted,
    pub(crate) agreed: Agreed,
    pub(crate) texts: KeptTexts,
    pub(crate) said: SaidTexts,
}

impl<M: Machine> Model for World<M> {
    ghost use Rattle.zy_world.specs.Shown.{Shown};

    ghost Value = { Shown M.State };

    ghost view = { λ w. record {
      setup = w.setup;
      keys = w.directory;
      seats = w.seats;
      liars = w.liars;
      bag = w.bag;
      mutes = w.muted;
      agreed = w.agreed;
      texts = w.texts;
      said = w.said;
    } };
}

impl<M: Machine> World<M> {
    /// What it began with.
    pub fn setup(&self) -> &Setup
        ensures { (g : Whole M.State) → Shows g self.now → result.now ≡ g.setup }
    {
        &self.setup
    }

    /// The replica of this number. `None` exactly for a liar, or a number out of range.
    pub fn replica(&self, id: ReplicaId) -> Option<&Replica<M>>
        ensures { (g : Whole M.State) → Shows g self.now → option_copied result ≡ option_map (λ x. x.state) (replica_at g id.0) }
    {
        self.seats.replica(id)
    }

    /// The client of this number. `None` exactly for a liar, or a number out of range.
    pub fn client(&self, id: ClientId) -> Option<&Client>
        ensures { (g : Whole M.State) → Shows g self.now → option_copied result ≡ option_map (λ x. x.state) (client_at g id.0) }
    {
        self.seats.client(id)
    }

    /// The place and the head of the agreed list, which is that of the completion with the greatest place.
    pub fn agreed(&self) -> (Place, Digest)
        ensures { (g : Whole M.State) → Shows g self.now → (result.0.0 ≡ (agreed_mark g).place) × (result.1 ≡ (agreed_mark g).head) }
    {
        (self.agreed.place, self.agreed.head)
    }
}
