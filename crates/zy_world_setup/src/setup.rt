use std::marker::Model;
use zy_base::{ClientId, Counts, ReplicaId};
use zy_lms::Height;
use zy_ots::OtsType;

/// What a world begins with.
#[derive(Drop)]
pub struct Setup {
    pub counts: Counts,
    /// After how many places a checkpoint is taken, from 4 to 32.
    pub interval: u64,
    /// How many clients there are, from 1 to 64.
    pub clients: u32,
    /// The replicas that lie, at most f.
    pub liars: Vec<ReplicaId>,
    /// The clients that lie.
    pub lying_clients: Vec<ClientId>,
    /// What the keys of all parties are derived from.
    pub seed: [u8; 32],
    /// The height of each party's trees.
    pub height: Height,
    /// The type of each party's one-time keys.
    pub ots: OtsType,
}

impl Model for Setup {
    ghost use Rattle.std.specs.Prelude.{map};
    ghost use Rattle.zy_world_law.specs.Setup as world;

    ghost Value = { world.Setup };

    ghost view = { λ s. record {
      counts = s.counts;
      interval = s.interval;
      clients = s.clients;
      liars = map (λ id. id.0) s.liars.items;
      lying_clients = map (λ id. id.0) s.lying_clients.items;
      seed = s.seed;
      height = s.height;
      ots = s.ots;
    } };
}
