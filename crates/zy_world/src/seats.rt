ghost use Rattle.std.specs.Prelude.{◌≡◌, ◌≤◌, Bool, List, length, map, slice_get, slice_set, None, Some, option_copied, if◌then◌else◌, IfOk, IsSomeAnd, OnOk};
ghost use Rattle.std.specs.List.{list_all};
ghost use Rattle.zy_table.specs.ClientRows.{ask as ask_row, client_step};
ghost use Rattle.zy_table.specs.ClientState.{ClientState as AClient, ClientOutcome, is_waiting};
ghost use Rattle.zy_table.specs.State.{State};
ghost use Rattle.zy_base.specs.declared.ids.Party.TheVariants as parties;
ghost use Rattle.zy_table.specs.Whole.{whole_step};
ghost use Rattle.zy_client.specs.Stepped.{IsStepped};
ghost use Rattle.zy_world.specs.Ahead.{AreApart, AreOut, IsJob, takes_for, turn_of};
ghost use Rattle.zy_world.specs.Shown.{is_correct_seat, is_liar_seat, is_seated, seat_of, with_replica, with_client};
ghost use Rattle.zy_world.specs.Stepping.{IsReplicaStep, IsClientStep, done_if};
ghost use Rattle.zy_world_law.specs.World.{correct_in, is_told};

use crate::batch::{Due, Turn};
use crate::seat::{Seat, is_there, put_in, seat_at, sitting, take_from};
use crate::step::{Away, ClientStep, Job, ReplicaStep};
use std::alloc::Global;
use std::marker::Model;
use zy_base::{Bytes, ClientId, Event, Machine, Party, ReplicaId, Want};
use zy_client::{Client, ClientStepped};
use zy_replica::Replica;
use zy_table::Done;

/// The correct parties by their numbers, none where a party lies.
#[derive(Drop)]
pub(crate) struct Seats<M: Machine> {
    pub(crate) replicas: Vec<Option<Replica<M>>>,
    pub(crate) clients: Vec<Option<Client>>,
}

impl<M: Machine> Model for Seats<M> {
    ghost use Rattle.zy_world.specs.Shown.{Seated};

    ghost Value = { Seated M.State };

    ghost view = { λ s. record { replicas = s.replicas.items; clients = s.clients.items } };
}

impl<M: Machine> Seats<M> {
    pub(crate) fn seat(&self, party: Party) -> Seat
        ensures { result ≡ seat_of self.now party }
    {
        match party {
            Party::Replica(ReplicaId(id)) => seat_at(&self.replicas, id as usize),
            Party::Client(ClientId(id)) => seat_at(&self.clients, id as usize),
        }
    }

    /// There is each of these parties.
    pub(crate) fn are_seated(&self, to: &[Party]) -> bool
        ensures { result ≡ list_all (λ party. is_seated (seat_of self.now party)) to.now }
    {
        to.iter().all(|party| self.is_seated(*party))
    }

    fn is_seated(&self, party: Party) -> bool
        ensures { result ≡ is_seated (seat_of self.now party) }
    {
        match self.seat(party) {
            Seat::Nobody => false,
            Seat::Liar => true,
            Seat::Correct => true,
        }
    }

    pub(crate) fn is_liar(&self, party: Party) -> bool
        ensures { result ≡ is_liar_seat (seat_of self.now party) }
    {
        match self.seat(party) {
            Seat::Nobody => false,
            Seat::Liar => true,
            Seat::Correct => false,
        }
    }

    pub(crate) fn is_correct(&self, party: Party) -> bool
        ensures { result ≡ is_correct_seat (seat_of self.now party) }
    {
        match self.seat(party) {
            Seat::Nobody => false,
            Seat::Liar => false,
            Seat::Correct => true,
        }
    }

    pub(crate) fn replica(&self, id: ReplicaId) -> Option<&Replica<M>>
        ensures { option_copied result ≡ correct_in (slice_get self.now.replicas id.0) }
    {
        sitting(&self.replicas, id.0 as usize)
    }

    pub(crate) fn client(&self, id: ClientId) -> Option<&Client>
        ensures { option_copied result ≡ correct_in (slice_get self.now.clients id.0) }
    {
        sitting(&self.clients, id.0 as usize)
    }

    /// Of each replica whether it sits in its seat.
    pub(crate) fn who_sits(&self, alloc: Global) -> Result<Vec<bool>, Want>
        ensures { IfOk result (λ sits. sits.items ≡ map is_told self.now.replicas) }
    {
        let mut sits = Vec::new(alloc);
        for seat in &self.replicas {
            sits.push(is_there(seat))?;
        }
        Ok(sits)
    }

    /// Takes the replicas out of their seats to which these frames go, each with the bytes that it is to hear.
    pub(crate) fn take_out(&mut self, alloc: Global, dues: Vec<Due>) -> Result<Away<M>, Want>
        ensures out { (left : List Bool) → AreApart left dues.items (map is_told self.old.replicas) → IfOk result (λ away. AreOut IsJob self.new.replicas dues.items self.old.replicas away.jobs.items) }
        ensures turns { IfOk result (λ away. away.turns.items ≡ map turn_of dues.items) }
        ensures clients { self.new.clients ≡ self.old.clients }
    {
        let mut jobs = Vec::new(alloc);
        let mut turns = Vec::new(alloc);
        for due in dues {
            turns.push(self.take_for(due, &mut jobs)?)?;
        }
        Ok(Away { jobs, turns })
    }

    // The replica to which this frame goes.
    fn take_for(&mut self, due: Due, jobs: &mut Vec<Job<M>>) -> Result<Turn, Want>
        ensures taken { OnOk result (takes_for IsJob due.to due.bytes self.old.replicas self.new.replicas jobs.old.items jobs.new.items) }
        ensures turn { IfOk result (λ turn. turn ≡ turn_of due) }
        ensures clients { self.new.clients ≡ self.old.clients }
    {
        let Due { number, to, bytes } = due;
        match to {
            Party::Replica(id) => {
                self.take_replica(id, bytes, jobs)?;
                Ok(Turn::Replica { number, id })
            }
            Party::Client(id) => Ok(Turn::Client { number, id, bytes }),
        }
    }

    // The replica of this number, if it sits in its seat, with these bytes.
    fn take_replica(
        &mut self,
        id: ReplicaId,
        bytes: Bytes,
        jobs: &mut Vec<Job<M>>,
    ) -> Result<(), Want>
        ensures taken { OnOk result (takes_for IsJob (parties.Replica id) bytes self.old.replicas self.new.replicas jobs.old.items jobs.new.items) }
        ensures clients { self.new.clients ≡ self.old.clients }
    {
        match take_from(&mut self.replicas, id.0 as usize) {
            Some(replica) => Ok(jobs.push(Job { replica, bytes })?),
            None => Ok(()),
        }
    }

    /// The replica of this number makes a step, if there is such a correct one.
    pub(crate) fn step_replica(
        &mut self,
        id: ReplicaId,
        event: Event,
    ) -> Result<Option<ReplicaStep>, Want>
        ensures missing { correct_in (slice_get self.old.replicas id.0) ≡ None → IfOk result (λ step. (step ≡ None) × (self.new ≡ self.old)) }
        ensures stepped { (s : State M.State) → correct_in (slice_get self.old.replicas id.0) ≡ Some s → IfOk result (λ step. IsSomeAnd step (IsReplicaStep (whole_step M.rules s event))) }
        ensures state { (s : State M.State) → correct_in (slice_get self.old.replicas id.0) ≡ Some s → OnOk result (self.new ≡ with_replica self.old id.0 (Some (whole_step M.rules s event).state)) }
    {
        match take_from(&mut self.replicas, id.0 as usize) {
            None => Ok(None),
            Some(replica) => Ok(Some(self.replica_steps(id, replica, event)?)),
        }
    }

    // The replica takes the seat of this number behind its step.
    fn replica_steps(
        &mut self,
        id: ReplicaId,
        replica: Replica<M>,
        event: Event,
    ) -> Result<ReplicaStep, Want>
        ensures stepped { IfOk result (IsReplicaStep (whole_step M.rules replica event)) }
        ensures state { OnOk result (self.new ≡ with_replica self.old id.0 (Some (whole_step M.rules replica event).state)) }
    {
        let stepped = replica.step(event)?;
        stepped.replica.take_in();
        put_in(&mut self.replicas, id.0 as usize, stepped.replica);
        Ok(ReplicaStep {
            answer: stepped.answer,
            out: stepped.out,
            said: stepped.said,
            got: stepped.got,
        })
    }

    /// The client of this number makes a step, if there is such a correct one.
    pub(crate) fn step_client(
        &mut self,
        id: ClientId,
        event: Event,
    ) -> Result<Option<ClientStep>, Want>
        ensures missing { correct_in (slice_get self.old.clients id.0) ≡ None → IfOk result (λ step. (step ≡ None) × (self.new ≡ self.old)) }
        ensures stepped { (s : AClient) → correct_in (slice_get self.old.clients id.0) ≡ Some s → IfOk result (λ step. IsSomeAnd step (IsClientStep s (client_step s event))) }
        ensures state { (s : AClient) → correct_in (slice_get self.old.clients id.0) ≡ Some s → OnOk result (self.new ≡ with_client self.old id.0 (Some (client_step s event).state)) }
    {
        match take_from(&mut self.clients, id.0 as usize) {
            None => Ok(None),
            Some(client) => {
                let waited = waits(&client);
                let stepped = client.step(event)?;
                Ok(Some(self.client_made(id, waited, stepped)?))
            }
        }
    }

    /// The client of this number asks, if there is such a correct one.
    pub(crate) fn ask_client(&mut self, id: ClientId, op: Bytes) -> Result<Option<ClientStep>, Want>
        requires { length op ≤ 1100 }
        ensures missing { correct_in (slice_get self.old.clients id.0) ≡ None → IfOk result (λ step. (step ≡ None) × (self.new ≡ self.old)) }
        ensures stepped { (s : AClient) → correct_in (slice_get self.old.clients id.0) ≡ Some s → IfOk result (λ step. IsSomeAnd step (IsClientStep s (ask_row s op))) }
        ensures state { (s : AClient) → correct_in (slice_get self.old.clients id.0) ≡ Some s → OnOk result (self.new ≡ with_client self.old id.0 (Some (ask_row s op).state)) }
    {
        match take_from(&mut self.clients, id.0 as usize) {
            None => Ok(None),
            Some(client) => {
                let waited = waits(&client);
                let stepped = client.ask(op)?;
                Ok(Some(self.client_made(id, waited, stepped)?))
            }
        }
    }

    // The client takes the seat of this number behind its step; `waited` if a request had waited before.
    fn client_made(
        &mut self,
        id: ClientId,
        waited: bool,
        stepped: ClientStepped,
    ) -> Result<ClientStep, Want>
        ensures stepped { (s : AClient) (o : ClientOutcome) → is_waiting s.waiting ≡ waited → IsStepped o stepped → IfOk result (IsClientStep s o) }
        ensures state { OnOk result (self.new ≡ with_client self.old id.0 (Some stepped.client)) }
    {
        let done = done_now(&stepped.client, waited)?;
        stepped.client.take_in();
        put_in(&mut self.clients, id.0 as usize, stepped.client);
        Ok(ClientStep {
            answer: stepped.answer,
            out: stepped.out,
            said: stepped.said,
            done,
        })
    }
}

fn waits(client: &Client) -> bool
    ensures { result ≡ is_waiting client.now.waiting }
{
    match client.waiting() {
        Some(_) => true,
        None => false,
    }
}

// The completion of the request that had waited, if it waits no longer.
fn done_now(client: &Client, waited: bool) -> Result<Option<Done>, Want>
    ensures { IfOk result (λ done. done ≡ done_if waited client.now) }
{
    if waited && !waits(client) {
        copy_of(client.done())
    } else {
        Ok(None)
    }
}

fn copy_of(done: Option<&Done>) -> Result<Option<Done>, Want>
    ensures { IfOk result (λ copy. copy ≡ option_copied done.entry) }
{
    match done {
        Some(done) => Ok(Some(done.clone()?)),
        None => Ok(None),
    }
}
