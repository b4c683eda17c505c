ghost use Rattle.std.proofs.Props.{props};
ghost use Rattle.std.specs.List.{AllByRecursion};
ghost use Rattle.zy_chain.specs.Entries.{IsEntryInRange};

use crate::batch::Turn;
use zy_base::{Answer, Bytes, Machine, Outgoing, Said};
use zy_replica::Replica;
use zy_table::{Done, Gains};

/// What a replica's step did beside changing it.
#[derive(Drop)]
pub(crate) struct ReplicaStep {
    pub(crate) answer: Answer,
    pub(crate) out: Outgoing,
    pub(crate) said: Said,
    pub(crate) got: Gains,
    ghost entries: { AllByRecursion (λ got. IsEntryInRange got.entry) got } by { Prim.hlevel props },
}

/// What a client's step did beside changing it; by a completion the request that waited became complete.
#[derive(Drop)]
pub(crate) struct ClientStep {
    pub(crate) answer: Answer,
    pub(crate) out: Outgoing,
    pub(crate) said: Said,
    pub(crate) done: Option<Done>,
}

/// A replica that is out of its seat, and the frame that it is to hear.
#[derive(Drop)]
pub(crate) struct Job<M: Machine> {
    pub(crate) replica: Replica<M>,
    pub(crate) bytes: Bytes,
}

/// Replicas that are out of their seats, and the turns of all frames that are brought next.
#[derive(Drop)]
pub(crate) struct Away<M: Machine> {
    pub(crate) jobs: Vec<Job<M>>,
    pub(crate) turns: Vec<Turn>,
}

/// The replica behind its step, and what the step did beside.
#[derive(Drop)]
pub(crate) struct Gone<M: Machine> {
    pub(crate) replica: Replica<M>,
    pub(crate) step: ReplicaStep,
}
