//! Flows: replicas hear the next frames at once, and what they did is taken over in the order of the events.

ghost use Rattle.std.specs.Prelude.{◌≡◌, ◌≤◌, ◌+◌, ◌∷◌, ℕ, None, List, Option, Some, Err, length, slice_get, slice_set, map, IfOk, IfErr};
ghost use Rattle.std.specs.Vec.Iter.{into_iter_items};
ghost use Rattle.zy_base.specs.declared.ids.Digest.{Digest as Sum};
ghost use Rattle.zy_base.specs.declared.ids.Party.{Party as Somebody};
ghost use Rattle.zy_base.specs.declared.ids.Party.TheVariants as parties;
ghost use Rattle.zy_table.specs.State.{State};
ghost use Rattle.zy_world.specs.Ahead.{GoesAhead, IsBatch, IsTurn, ShowsAhead, ShowsTurns, turn_of};
ghost use Rattle.zy_world.specs.Answered.{GoesTo, IsBrokenBy};
ghost use Rattle.zy_world.specs.Flowing.{ComesTo, IsCutOff, Passes, Stops, all_done, notes_of};
ghost use Rattle.zy_world.specs.Shown.{seat_in, with_replicas};
ghost use Rattle.zy_world.specs.Shows.{Shows};
ghost use Rattle.zy_world.specs.declared.batch.Due.{Due as ADue};
ghost use Rattle.zy_world.specs.declared.batch.Turn.{Turn as ATurn};
ghost use Rattle.zy_world.specs.declared.flow.FlowFault.TheVariants.{Forged, Clash};
ghost use Rattle.zy_world.specs.declared.seat.Seat.TheVariants.{Correct};
ghost use Rattle.zy_world_law.specs.Events.{bring, happens};
ghost use Rattle.zy_world_law.specs.Events.Broken.{Forged as ShowsForged, Clash as ShowsClash};
ghost use Rattle.zy_world_law.specs.Runs as runs;
ghost use Rattle.zy_world_law.specs.World.{World as Whole, Mail as Post, Replica as AReplica, delivered, mail_at};
ghost use Rattle.zy_world_law.specs.declared.event.WorldEvent.TheVariants as events;
ghost use Rattle.zy_world_law.specs.declared.note.Note.{Note as Told};

use crate::batch::{Due, Turn};
use crate::hands::{Hands, step_all};
use crate::marks::pass;
use crate::seat::put_in;
use crate::step::{Away, Gone};
use crate::{World, WorldFault, WorldStepped};
use std::alloc::Global;
use std::thread::Threads;
use std::vec::IntoIter;
use zy_base::{Bytes, ClientId, Digest, Event, Items, Machine, Party, ReplicaId, Want};
use zy_replica::Replica;
use zy_world_law::Note;

/// What a flow came to: the world behind its last event, and what is told of each event.
#[derive(Drop)]
pub struct Flowed<M: Machine> {
    pub world: World<M>,
    pub notes: Items<Note>,
}

/// Why a flow stopped, behind what is told of its events until then. The world is gone.
#[derive(Debug, Drop)]
pub enum FlowFault {
    /// The next frame shows a signature that verifies under this correct party's key, on a text that it didn't say.
    Forged(Items<Note>, Party),
    /// Two texts have this SHA-256 value.
    Clash(Items<Note>, Digest),
    Want,
}

impl<M: Machine> World<M> {
    /// Delivers the least frame that flows have left, up to so many times. Replicas that hear different frames make their steps at
    /// once, in threads; each thread owns one replica. What they did is judged and taken over in the order of the events, so that the
    /// world and the notes are those of the deliveries one by one, for every `Hands` and however its threads run.
    ///
    /// `Forged` and `Clash` come exactly at the first event that isn't honest, as `World::step` names them, with what is told of the
    /// events before it.
    pub fn flow<R: Threads + Sync, H: Hands>(
        self,
        rt: &R,
        hands: &H,
        events: u64,
    ) -> Result<Flowed<M>, FlowFault>
    where
        M: Send,
        requires { events ≤ 100000 }
        ensures flows { (g : Whole M.State) → Shows g self → IfOk result (λ r. (v : Whole M.State) × Passes (runs.flow M.rules events) g all_done v r.notes × Shows v r.world) }
        ensures forged { (g : Whole M.State) (notes : List Told) (by : Somebody) → Shows g self → result ≡ Err (Forged notes by) → Stops (runs.flow M.rules events) g notes (ShowsForged by) }
        ensures clash { (g : Whole M.State) (notes : List Told) (digest : Sum) → Shows g self → result ≡ Err (Clash notes digest) → Stops (runs.flow M.rules events) g notes (ShowsClash digest) }
        ensures most { IfOk result (λ r. length r.notes ≤ events) }
        ensures most_before { IfErr result (λ fault. length (notes_of fault) ≤ events) }
    {
        let mut notes = Items::new(self.alloc);
        match self.flows(rt, hands, events, &mut notes) {
            Ok(world) => Ok(Flowed { world, notes }),
            Err(WorldFault::Forged(by)) => Err(FlowFault::Forged(notes, by)),
            Err(WorldFault::Clash(digest)) => Err(FlowFault::Clash(notes, digest)),
            Err(WorldFault::Want) => Err(FlowFault::Want),
        }
    }

    // Batch after batch.
    fn flows<R: Threads + Sync, H: Hands>(
        self,
        rt: &R,
        hands: &H,
        events: u64,
        notes: &mut Items<Note>,
    ) -> Result<World<M>, WorldFault>
    where
        M: Send,
        ensures comes { (g : Whole M.State) → Shows g self → IfOk result (λ w. ComesTo (runs.flow M.rules events) g all_done notes.old notes.new (λ v. Shows v w)) }
        ensures cut { (g : Whole M.State) → Shows g self → IfErr result (IsCutOff (runs.flow M.rules events) g notes.old notes.new) }
        ensures most { length notes.new ≤ length notes.old + events }
    {
        let mut world = self;
        let mut left = events;
        while left > 0 {
            let dues = world.next_dues(left)?;
            if dues.is_empty() {
                return Ok(world);
            }
            left -= dues.len() as u64;
            world = world.bring_all(rt, hands, dues, notes)?;
        }
        Ok(world)
    }

    // These frames, of which no two go to one replica, are brought.
    fn bring_all<R: Threads + Sync, H: Hands>(
        mut self,
        rt: &R,
        hands: &H,
        dues: Vec<Due>,
        notes: &mut Items<Note>,
    ) -> Result<World<M>, WorldFault>
    where
        M: Send,
        ensures comes { (g : Whole M.State) (left : ℕ) → Shows g self → IsBatch g dues.items self
            → IfOk result (λ w. ComesTo (runs.flow M.rules (length dues.items + left)) g (runs.flow M.rules left) notes.old notes.new (λ v. Shows v w)) }
        ensures cut { (g : Whole M.State) (left : ℕ) → Shows g self → IsBatch g dues.items self
            → IfErr result (IsCutOff (runs.flow M.rules (length dues.items + left)) g notes.old notes.new) }
        ensures most { length notes.new ≤ length notes.old + length dues.items }
    {
        let Away { jobs, turns } = self.seats.take_out(self.alloc, dues)?;
        let made = step_all(rt, hands, jobs)?;
        self.take_turns(turns, made, notes)
    }

    // Each frame is brought in its turn, and a replica that is out comes back then.
    fn take_turns(
        self,
        turns: Vec<Turn>,
        made: Vec<Result<Gone<M>, Want>>,
        notes: &mut Items<Note>,
    ) -> Result<World<M>, WorldFault>
        ensures comes { (g : Whole M.State) (left : ℕ) → ShowsTurns M.rules g turns.items made.items self
            → IfOk result (λ w. ComesTo (runs.flow M.rules (length turns.items + left)) g (runs.flow M.rules left) notes.old notes.new (λ v. Shows v w)) }
        ensures cut { (g : Whole M.State) (left : ℕ) → ShowsTurns M.rules g turns.items made.items self
            → IfErr result (IsCutOff (runs.flow M.rules (length turns.items + left)) g notes.old notes.new) }
        ensures most { length notes.new ≤ length notes.old + length turns.items }
    {
        let mut world = self;
        let mut out = made.into_iter();
        for turn in turns {
            world = world.take_turn(turn, &mut out, notes)?;
        }
        Ok(world.passed())
    }

    // One frame is brought, and noted.
    fn take_turn(
        self,
        turn: Turn,
        out: &mut IntoIter<Result<Gone<M>, Want>, Global>,
        notes: &mut Items<Note>,
    ) -> Result<World<M>, WorldFault>
        ensures comes { (g : Whole M.State) (more : List ATurn) (left : ℕ) → ShowsTurns M.rules g (turn ∷ more) (into_iter_items out.old) self
            → IfOk result (λ w. ComesTo (runs.flow M.rules (left + 1)) g (runs.flow M.rules left) notes.old notes.new (λ v. ShowsTurns M.rules v more (into_iter_items out.new) w)) }
        ensures cut { (g : Whole M.State) (more : List ATurn) (left : ℕ) → ShowsTurns M.rules g (turn ∷ more) (into_iter_items out.old) self
            → IfErr result (IsCutOff (runs.flow M.rules (left + 1)) g notes.old notes.new) }
        ensures most { length notes.new ≤ length notes.old + 1 }
    {
        let WorldStepped { world, note, .. } = self.turn(turn, out)?;
        notes.push(note)?;
        Ok(world)
    }

    // One frame is brought to whom it goes.
    fn turn(
        self,
        turn: Turn,
        out: &mut IntoIter<Result<Gone<M>, Want>, Global>,
    ) -> Result<WorldStepped<M>, WorldFault>
        ensures goes { (g : Whole M.State) (due : ADue) (more : List ADue) → turn ≡ turn_of due → ShowsAhead M.rules g (due ∷ more) (into_iter_items out.old) self
            → IfOk result (λ r. GoesAhead M.rules (happens M.rules g (events.Deliver due.number None)) more (into_iter_items out.new) r.note r.world) }
        ensures broken { (g : Whole M.State) (due : ADue) (more : List ADue) → turn ≡ turn_of due → ShowsAhead M.rules g (due ∷ more) (into_iter_items out.old) self
            → IfErr result (IsBrokenBy (happens M.rules g (events.Deliver due.number None))) }
    {
        match turn {
            Turn::Replica { number, id } => match out.next() {
                Some(made) => {
                    let gone = made?;
                    self.comes_back(number, id, gone)
                }
                None => Ok(self.no_subject().answered(None)),
            },
            Turn::Client { number, id, bytes } => self.client_hears(number, id, bytes),
        }
    }

    // A replica that is out comes back behind its step, in the turn of the frame that it heard.
    fn comes_back(
        self,
        number: u64,
        id: ReplicaId,
        gone: Gone<M>,
    ) -> Result<WorldStepped<M>, WorldFault>
        ensures goes { (g : Whole M.State) (mail : Post) (x : AReplica M.State) (before : List (Option (State M.State))) → IsTurn M.rules g number mail id x before gone self
            → IfOk result (λ r. GoesTo (bring M.rules g (delivered g number mail) (parties.Replica id) mail.bytes) r.note (with_replicas (λ xs. slice_set before id.0 (Some gone.replica)) r.world)) }
        ensures broken { (g : Whole M.State) (mail : Post) (x : AReplica M.State) (before : List (Option (State M.State))) → IsTurn M.rules g number mail id x before gone self
            → IfErr result (IsBrokenBy (bring M.rules g (delivered g number mail) (parties.Replica id) mail.bytes)) }
        ensures replicas { IfOk result (λ r. r.world.seats.replicas ≡ slice_set self.seats.replicas id.0 (Some gone.replica)) }
    {
        self.marked(number)
            .hears_sent(number)?
            .seated(id, gone.replica)
            .replica_stepped(id, gone.step)
    }

    // A client hears a frame in its turn, while replicas are out.
    fn client_hears(
        self,
        number: u64,
        id: ClientId,
        bytes: Bytes,
    ) -> Result<WorldStepped<M>, WorldFault>
        ensures goes { (g : Whole M.State) (mail : Post) (before : List (Option (State M.State))) → Shows g (with_replicas (λ xs. before) self) → mail_at g number ≡ Some mail → seat_in (slice_get g.clients id.0) ≡ Correct
            → IfOk result (λ r. GoesTo (bring M.rules g (delivered g number mail) (parties.Client id) bytes) r.note (with_replicas (λ xs. before) r.world)) }
        ensures broken { (g : Whole M.State) (mail : Post) (before : List (Option (State M.State))) → Shows g (with_replicas (λ xs. before) self) → mail_at g number ≡ Some mail → seat_in (slice_get g.clients id.0) ≡ Correct
            → IfErr result (IsBrokenBy (bring M.rules g (delivered g number mail) (parties.Client id) bytes)) }
        ensures replicas { IfOk result (λ r. r.world.seats.replicas ≡ self.seats.replicas) }
    {
        self.marked(number)
            .hears(&bytes)?
            .client_steps(id, Event::Heard(bytes))
    }

    // The frame of this number is marked. Flows don't go on over it before all replicas sit in their seats.
    fn marked(mut self, number: u64) -> World<M>
        ensures shows { (g : Whole M.State) (mail : Post) (others : List (Option (State M.State)) → List (Option (State M.State))) → Shows g (with_replicas others self) → mail_at g number ≡ Some mail
            → Shows (delivered g number mail) (with_replicas others result) }
        ensures seats { result.seats ≡ self.seats }
    {
        self.bag.deliver(number);
        self
    }

    // The replica takes the seat of this number. What it checked and signed beside others is known to all from now on.
    fn seated(mut self, id: ReplicaId, replica: Replica<M>) -> World<M>
        ensures { result ≡ with_replicas (λ xs. slice_set xs id.0 (Some replica)) self }
    {
        replica.take_in();
        put_in(&mut self.seats.replicas, id.0 as usize, replica);
        self
    }

    // Flows go on over the frames of which they have nothing left.
    fn passed(mut self) -> World<M>
        ensures { (g : Whole M.State) → Shows g self → Shows g result }
    {
        pass(&mut self.bag, &self.seats, &self.muted);
        self
    }
}
