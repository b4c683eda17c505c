//! A correct party hears a frame and makes a step.

ghost use Rattle.std.specs.Prelude.{◌≡◌, ◌≤◌, ℕ, List, Option, [], length, slice_get, None, Some, IfOk, IfErr};
ghost use Rattle.std.specs.Option.{ForSome};
ghost use Rattle.zy_base.specs.declared.step.Event.{Event as Happening};
ghost use Rattle.zy_base.specs.declared.ids.Party.TheVariants as parties;
ghost use Rattle.zy_world.specs.Answers.{ask_answer, party_answer};
ghost use Rattle.zy_world.specs.Answered.{GoesTo, IsBrokenBy, HeardTo, IsUnheardBy, replica_steps, client_steps};
ghost use Rattle.zy_world.specs.Shown.{numbered, with_replicas};
ghost use Rattle.zy_world.specs.Shows.{Shows};
ghost use Rattle.zy_table.specs.ClientState.{ClientOutcome};
ghost use Rattle.zy_table.specs.Deeds.{Outcome};
ghost use Rattle.zy_table.specs.State.{State};
ghost use Rattle.zy_world.specs.Stepping.{HasReplicaStepped, HasClientStepped};
ghost use Rattle.zy_world_law.specs.Events.{ask_in, no_subject, replica_goes, client_goes, replica_note, client_note as noted_client, client_answer};
ghost use Rattle.zy_world_setup.specs.Reading.{IsInRange};
ghost use Rattle.zy_world_law.specs.Reading.{any_frame_in};
ghost use Rattle.zy_world_law.specs.World.{World as Whole, Mail as Post, Replica as AReplica, Client as AClient, mail_at};

use crate::step::{ClientStep, ReplicaStep};
use crate::{World, WorldFault, WorldStepped};
use zy_base::{Answer, Bytes, Cause, ClientId, Event, Machine, Party, ReplicaId, Want};
use zy_table::{AnyFrame, Done};
use zy_world_law::Note;
use zy_world_setup::read_frame;

/// The world behind an event, and what is told of it.
#[derive(Drop)]
pub(crate) struct Noted<M: Machine> {
    pub(crate) world: World<M>,
    pub(crate) note: Note,
}

impl<M: Machine> Noted<M> {
    /// This is what a party answered to the event, or none that none did.
    pub(crate) fn answered(self, answer: Option<Answer>) -> WorldStepped<M>
        ensures world { result.world ≡ self.world }
        ensures note { result.note ≡ self.note }
        ensures answer { result.answer ≡ answer }
    {
        WorldStepped {
            world: self.world,
            note: self.note,
            answer,
        }
    }
}

impl<M: Machine> World<M> {
    pub(crate) fn noted(self, note: Note) -> Noted<M>
        ensures world { result.world ≡ self }
        ensures note { result.note ≡ note }
    {
        Noted { world: self, note }
    }

    /// The event has no subject, and changes nothing.
    pub(crate) fn no_subject(self) -> Noted<M>
        ensures goes { (g : Whole M.State) (others : List (Option (State M.State)) → List (Option (State M.State))) → Shows g (with_replicas others self) → GoesTo (no_subject g) result.note (with_replicas others result.world) }
        ensures seats { result.world.seats ≡ self.seats }
    {
        self.noted(Note::Refused(None, Cause::NoSubject))
    }

    /// No part of the bytes' frame is forged, and what it brings is kept.
    pub(crate) fn hears(self, bytes: &Bytes) -> Result<World<M>, WorldFault>
        ensures heard { (g : Whole M.State) (others : List (Option (State M.State)) → List (Option (State M.State))) → Shows g (with_replicas others self) → IfOk result (λ w. HeardTo g bytes.now (with_replicas others w)) }
        ensures unheard { (g : Whole M.State) (others : List (Option (State M.State)) → List (Option (State M.State))) → Shows g (with_replicas others self) → IfErr result (IsUnheardBy g bytes.now) }
        ensures seats { IfOk result (λ w. w.seats ≡ self.seats) }
    {
        match read_frame(self.alloc, bytes.as_slice())? {
            Some(frame) => self.hears_frame(&frame),
            None => Ok(self),
        }
    }

    /// As `hears`, of the frame of this number, which was sent.
    pub(crate) fn hears_sent(self, number: u64) -> Result<World<M>, WorldFault>
        ensures heard { (g : Whole M.State) (mail : Post) (others : List (Option (State M.State)) → List (Option (State M.State))) → Shows g (with_replicas others self) → mail_at g number ≡ Some mail → IfOk result (λ w. HeardTo g mail.bytes (with_replicas others w)) }
        ensures unheard { (g : Whole M.State) (mail : Post) (others : List (Option (State M.State)) → List (Option (State M.State))) → Shows g (with_replicas others self) → mail_at g number ≡ Some mail → IfErr result (IsUnheardBy g mail.bytes) }
        ensures seats { IfOk result (λ w. w.seats ≡ self.seats) }
    {
        match self.frame_of(number)? {
            Some(frame) => self.hears_frame(&frame),
            None => Ok(self),
        }
    }

    // The frame of this number, as it is read.
    fn frame_of(&self, number: u64) -> Result<Option<AnyFrame>, Want>
        ensures value { IfOk result (λ frame. (mail : Post) → numbered self.now.bag.mails number ≡ Some mail → frame ≡ any_frame_in mail.bytes) }
        ensures in_range { IfOk result (λ frame. ForSome frame IsInRange) }
    {
        match self.bag.frame(number) {
            Some(mail) => read_frame(self.alloc, mail.bytes.as_slice()),
            None => Ok(None),
        }
    }

    fn hears_frame(mut self, frame: &AnyFrame) -> Result<World<M>, WorldFault>
        requires { IsInRange frame.now }
        ensures heard { (g : Whole M.State) (bytes : List ℕ) (others : List (Option (State M.State)) → List (Option (State M.State))) → Shows g (with_replicas others self) → any_frame_in bytes ≡ Some frame.now → IfOk result (λ w. HeardTo g bytes (with_replicas others w)) }
        ensures unheard { (g : Whole M.State) (bytes : List ℕ) (others : List (Option (State M.State)) → List (Option (State M.State))) → Shows g (with_replicas others self) → any_frame_in bytes ≡ Some frame.now → IfErr result (IsUnheardBy g bytes) }
        ensures seats { IfOk result (λ w. w.seats ≡ self.seats) }
    {
        match self.said.forger(&self.directory, frame)? {
            Some(by) => Err(WorldFault::Forged(by)),
            None => {
                self.directory.take_in();
                self.texts.keep_frame(frame)?;
                Ok(self)
            }
        }
    }

    /// The replica of this number makes a step.
    pub(crate) fn replica_steps(
        mut self,
        id: ReplicaId,
        event: Event,
    ) -> Result<WorldStepped<M>, WorldFault>
        ensures goes { (g : Whole M.State) → Shows g self → IfOk result (λ r. GoesTo (replica_steps M.rules g id event (slice_get g.replicas id.0)) r.note r.world) }
        ensures broken { (g : Whole M.State) → Shows g self → IfErr result (IsBrokenBy (replica_steps M.rules g id event (slice_get g.replicas id.0))) }
        ensures answer { IfOk result (λ r. r.answer ≡ party_answer M.rules self.seats (parties.Replica id) event) }
    {
        match self.seats.step_replica(id, event)? {
            None => Ok(self.no_subject().answered(None)),
            Some(step) => self.replica_stepped(id, step),
        }
    }

    /// A replica has made its step, and nothing else was done yet.
    pub(crate) fn replica_stepped(
        mut self,
        id: ReplicaId,
        step: ReplicaStep,
    ) -> Result<WorldStepped<M>, WorldFault>
        ensures goes { (g : Whole M.State) (x : AReplica M.State) (event : Happening) (o : Outcome M.State) (others : List (Option (State M.State)) → List (Option (State M.State))) → HasReplicaStepped g id x o step (with_replicas others self)
            → IfOk result (λ r. GoesTo (replica_goes g id x [] event o) r.note (with_replicas others r.world)) }
        ensures broken { (g : Whole M.State) (x : AReplica M.State) (event : Happening) (o : Outcome M.State) (others : List (Option (State M.State)) → List (Option (State M.State))) → HasReplicaStepped g id x o step (with_replicas others self)
            → IfErr result (IsBrokenBy (replica_goes g id x [] event o)) }
        ensures seats { IfOk result (λ r. r.world.seats ≡ self.seats) }
        ensures answer { IfOk result (λ r. r.answer ≡ Some step.answer) }
    {
        let answer = step.answer;
        let note = replica_note(id, answer);
        self.texts.keep_step(&step.got)?;
        self.said.add(Party::Replica(id), step.said)?;
        self.bag.send(step.out)?;
        Ok(self.noted(note).answered(Some(answer)))
    }

    /// The client of this number makes a step.
    pub(crate) fn client_steps(
        mut self,
        id: ClientId,
        event: Event,
    ) -> Result<WorldStepped<M>, WorldFault>
        ensures goes { (g : Whole M.State) (others : List (Option (State M.State)) → List (Option (State M.State))) → Shows g (with_replicas others self)
            → IfOk result (λ r. GoesTo (client_steps g id event (slice_get g.clients id.0)) r.note (with_replicas others r.world)) }
        ensures broken { (g : Whole M.State) (others : List (Option (State M.State)) → List (Option (State M.State))) → Shows g (with_replicas others self)
            → IfErr result (IsBrokenBy (client_steps g id event (slice_get g.clients id.0))) }
        ensures replicas { IfOk result (λ r. r.world.seats.replicas ≡ self.seats.replicas) }
        ensures answer { IfOk result (λ r. r.answer ≡ party_answer M.rules self.seats (parties.Client id) event) }
    {
        match self.seats.step_client(id, event)? {
            None => Ok(self.no_subject().answered(None)),
            Some(step) => Ok(self.client_stepped(id, step)?),
        }
    }

    /// The client of this number asks.
    pub(crate) fn client_asks(
        mut self,
        id: ClientId,
        op: Bytes,
    ) -> Result<WorldStepped<M>, WorldFault>
        requires { length op ≤ 1100 }
        ensures goes { (g : Whole M.State) → Shows g self → IfOk result (λ r. GoesTo (ask_in g id op (slice_get g.clients id.0)) r.note r.world) }
        ensures broken { (g : Whole M.State) → Shows g self → IfErr result (IsBrokenBy (ask_in g id op (slice_get g.clients id.0))) }
        ensures answer { IfOk result (λ r. r.answer ≡ ask_answer self.seats id op) }
    {
        match self.seats.ask_client(id, op)? {
            None => Ok(self.no_subject().answered(None)),
            Some(step) => Ok(self.client_stepped(id, step)?),
        }
    }

    // A client has made its step, and nothing else was done yet.
    fn client_stepped(mut self, id: ClientId, step: ClientStep) -> Result<WorldStepped<M>, Want>
        ensures goes { (g : Whole M.State) (x : AClient) (o : ClientOutcome) (others : List (Option (State M.State)) → List (Option (State M.State))) → HasClientStepped g id x o step (with_replicas others self)
            → IfOk result (λ r. GoesTo (client_goes g id x [] o) r.note (with_replicas others r.world)) }
        ensures seats { IfOk result (λ r. r.world.seats ≡ self.seats) }
        ensures answer { IfOk result (λ r. r.answer ≡ Some step.answer) }
    {
        let answer = step.answer;
        self.said.add(Party::Client(id), step.said)?;
        self.bag.send(step.out)?;
        self.agreed.complete(&step.done);
        Ok(
            self.noted(client_note(id, step.done, answer))
                .answered(Some(answer)),
        )
    }
}

fn replica_note(id: ReplicaId, answer: Answer) -> Note
    ensures { result ≡ replica_note id answer }
{
    match answer {
        Answer::Taken => Note::Quiet,
        Answer::Held => Note::Quiet,
        Answer::Refused(cause) => Note::Refused(Some(Party::Replica(id)), cause),
    }
}

fn client_note(id: ClientId, done: Option<Done>, answer: Answer) -> Note
    ensures { result ≡ noted_client id done answer }
{
    match done {
        Some(done) => Note::Done(id, done),
        None => client_answer(id, answer),
    }
}

fn client_answer(id: ClientId, answer: Answer) -> Note
    ensures { result ≡ client_answer id answer }
{
    match answer {
        Answer::Taken => Note::Quiet,
        Answer::Held => Note::Quiet,
        Answer::Refused(cause) => Note::Refused(Some(Party::Client(id)), cause),
    }
}
