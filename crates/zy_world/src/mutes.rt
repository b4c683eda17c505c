ghost use Rattle.std.specs.Prelude.{◌≡◌, replicate, slice_index_or, slice_set, false, IfOk};
ghost use Rattle.zy_world.specs.Shown.{muted_in, with_muted};

use std::alloc::Global;
use std::marker::Model;
use zy_base::{ClientId, Party, ReplicaId, Want};

/// Which parties are muted.
#[derive(Debug, Drop)]
pub(crate) struct Muted {
    replicas: Vec<bool>,
    clients: Vec<bool>,
}

impl Model for Muted {
    ghost use Rattle.zy_world.specs.Shown.{Mutes};

    ghost Value = { Mutes };

    ghost view = { λ m. record { replicas = m.replicas.items; clients = m.clients.items } };
}

impl Muted {
    /// None of so many replicas and clients.
    pub(crate) fn none(alloc: Global, replicas: usize, clients: usize) -> Result<Muted, Want>
        ensures { IfOk result (λ m. m ≡ record { replicas = replicate replicas false; clients = replicate clients false }) }
    {
        Ok(Muted {
            replicas: vec![in alloc; false; replicas]?,
            clients: vec![in alloc; false; clients]?,
        })
    }

    pub(crate) fn is_muted(&self, party: Party) -> bool
        ensures { result ≡ muted_in self.now party }
    {
        match party {
            Party::Replica(ReplicaId(id)) => is_set(&self.replicas, id as usize),
            Party::Client(ClientId(id)) => is_set(&self.clients, id as usize),
        }
    }

    /// Changes nothing where there is no such party.
    pub(crate) fn set(&mut self, party: Party, on: bool)
        ensures { self.new ≡ with_muted self.old party on }
    {
        match party {
            Party::Replica(ReplicaId(id)) => put(&mut self.replicas, id as usize, on),
            Party::Client(ClientId(id)) => put(&mut self.clients, id as usize, on),
        }
    }
}

/// Whether this mark is there and set.
pub(crate) fn is_set(marks: &[bool], at: usize) -> bool
    ensures { result ≡ slice_index_or marks.now at false }
{
    match marks.get(at) {
        Some(mark) => *mark,
        None => false,
    }
}

/// Changes nothing where there is no such mark.
pub(crate) fn put(marks: &mut Vec<bool>, at: usize, on: bool)
    ensures { marks.new.items ≡ slice_set marks.old.items at on }
{
    if at < marks.len() {
        marks[at] = on;
    }
}
