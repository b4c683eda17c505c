ghost use Rattle.std.specs.Prelude.{◌≡◌, Some, Err, IfOk, IfErr};
ghost use Rattle.zy_base.specs.declared.ids.Digest.{Digest as Sum};
ghost use Rattle.zy_base.specs.declared.ids.Party.{Party as Somebody};
ghost use Rattle.zy_base.specs.declared.step.Event.TheVariants.{Heard};
ghost use Rattle.zy_world.specs.Answered.{GoesTo, IsBrokenBy, steps, has_timer};
ghost use Rattle.zy_world.specs.Answers.{answer_of, heard_answer, party_answer, timer_answer};
ghost use Rattle.zy_world.specs.Event.{IsEvent};
ghost use Rattle.zy_world.specs.Shown.{numbered};
ghost use Rattle.zy_world.specs.Shows.{Shows};
ghost use Rattle.zy_world.specs.declared.fault.WorldFault.TheVariants.{Forged, Clash};
ghost use Rattle.zy_world_law.specs.Events.{happens, bring, deliver, timer_of};
ghost use Rattle.zy_world_law.specs.Events.Broken.{Forged as ShowsForged, Clash as ShowsClash};
ghost use Rattle.zy_world_law.specs.Events.Happened.{Goes, Breaks};
ghost use Rattle.zy_world_law.specs.World.{World as Whole, Mail as Post, delivered, mail_at};

use crate::marks::pass;
use crate::seat::Seat;
use crate::{World, WorldFault};
use zy_base::{Answer, Bytes, Event, Machine, Party, TimerKind};
use zy_world_law::{Note, WorldEvent};

/// What an event made of a world: the world behind it, and what is told of it.
#[derive(Drop)]
pub struct WorldStepped<M: Machine> {
    pub world: World<M>,
    pub note: Note,
    /// What the correct party answered that the event brought to a step, if it brought one.
    pub answer: Option<Answer>,
}

impl<M: Machine> World<M> {
    /// What an event makes of the world. `Forged` exactly where the event brings to a correct party a frame of which some
    /// signature verifies under a correct party's key on a text that it didn't say: the first of them. `Clash` exactly
    /// where, else, a text that the event brings differs from one kept under its digest: the first of them.
    pub fn step(self, event: WorldEvent) -> Result<WorldStepped<M>, WorldFault>
        requires { IsEvent event }
        ensures goes { (g : Whole M.State) → Shows g self → IfOk result (λ r. (v : Whole M.State) × (happens M.rules g event ≡ Goes v r.note) × Shows v r.world) }
        ensures forged { (g : Whole M.State) (by : Somebody) → Shows g self → result ≡ Err (Forged by) → happens M.rules g event ≡ Breaks (ShowsForged by) }
        ensures clash { (g : Whole M.State) (digest : Sum) → Shows g self → result ≡ Err (Clash digest) → happens M.rules g event ≡ Breaks (ShowsClash digest) }
        ensures answer { IfOk result (λ r. r.answer ≡ answer_of M.rules self event) }
    {
        self.goes(event)
    }

    #[tactic(auto, unfolding(zy_world_law::specs::Events::happens))]
    fn goes(self, event: WorldEvent) -> Result<WorldStepped<M>, WorldFault>
        requires { IsEvent event }
        ensures goes { (g : Whole M.State) → Shows g self → IfOk result (λ r. GoesTo (happens M.rules g event) r.note r.world) }
        ensures broken { (g : Whole M.State) → Shows g self → IfErr result (IsBrokenBy (happens M.rules g event)) }
        ensures answer { IfOk result (λ r. r.answer ≡ answer_of M.rules self event) }
    {
        match event {
            WorldEvent::Ask { client, op } => self.client_asks(client, op),
            WorldEvent::Deliver { frame, to } => self.deliver(frame, to),
            WorldEvent::Timer { party, kind } => self.runs_out(party, kind),
            WorldEvent::Order {
                liar,
                view,
                asks,
                to,
            } => Ok(self.lie_order(liar, view, &asks, &to)?.answered(None)),
            WorldEvent::Spec {
                liar,
                view,
                asks,
                to,
                reply,
            } => Ok(self.lie_spec(liar, view, &asks, &to, reply)?.answered(None)),
            WorldEvent::Statement { liar, bytes, to } => Ok(
                self.lie_statement(liar, &bytes, &to)?.answered(None),
            ),
            WorldEvent::Raw { bytes, to } => Ok(self.raw(&bytes, &to)?.answered(None)),
            WorldEvent::Forge { party, bytes, to } => Ok(
                self.forge_statement(party, &bytes, &to)?.answered(None),
            ),
        }
    }

    // The frame of this number reaches the named party, or the one that it is addressed to.
    fn deliver(self, number: u64, to: Option<Party>) -> Result<WorldStepped<M>, WorldFault>
        ensures goes { (g : Whole M.State) → Shows g self → IfOk result (λ r. GoesTo (deliver M.rules g number to (mail_at g number)) r.note r.world) }
        ensures broken { (g : Whole M.State) → Shows g self → IfErr result (IsBrokenBy (deliver M.rules g number to (mail_at g number))) }
        ensures answer { IfOk result (λ r. r.answer ≡ heard_answer M.rules self.seats to (numbered self.bag.mails number)) }
    {
        match self.bag.frame(number) {
            None => Ok(self.no_subject().answered(None)),
            Some(mail) => {
                let to = to.unwrap_or(mail.to);
                let bytes = mail.bytes.clone()?;
                self.bring(number, to, bytes)
            }
        }
    }

    // The frame of this number, which has these bytes, reaches a party.
    fn bring(self, number: u64, to: Party, bytes: Bytes) -> Result<WorldStepped<M>, WorldFault>
        ensures goes { (g : Whole M.State) (mail : Post) → Shows g self → mail_at g number ≡ Some mail → IfOk result (λ r. GoesTo (bring M.rules g (delivered g number mail) to bytes) r.note r.world) }
        ensures broken { (g : Whole M.State) (mail : Post) → Shows g self → mail_at g number ≡ Some mail → IfErr result (IsBrokenBy (bring M.rules g (delivered g number mail) to bytes)) }
        ensures answer { IfOk result (λ r. r.answer ≡ party_answer M.rules self.seats to (Heard bytes)) }
    {
        match self.seats.seat(to) {
            Seat::Nobody => Ok(self.no_subject().answered(None)),
            Seat::Liar => Ok(self.delivered(number).noted(Note::Quiet).answered(None)),
            Seat::Correct => self
                .delivered(number)
                .hears(&bytes)?
                .steps(to, Event::Heard(bytes)),
        }
    }

    // The frame of this number is marked.
    fn delivered(mut self, number: u64) -> World<M>
        ensures shows { (g : Whole M.State) (mail : Post) → Shows g self → mail_at g number ≡ Some mail → Shows (delivered g number mail) result }
        ensures seats { result.seats ≡ self.seats }
    {
        self.bag.deliver(number);
        pass(&mut self.bag, &self.seats, &self.muted);
        self
    }

    // A party makes a step.
    fn steps(self, party: Party, event: Event) -> Result<WorldStepped<M>, WorldFault>
        ensures goes { (g : Whole M.State) → Shows g self → IfOk result (λ r. GoesTo (steps M.rules g party event) r.note r.world) }
        ensures broken { (g : Whole M.State) → Shows g self → IfErr result (IsBrokenBy (steps M.rules g party event)) }
        ensures answer { IfOk result (λ r. r.answer ≡ party_answer M.rules self.seats party event) }
    {
        match party {
            Party::Replica(id) => self.replica_steps(id, event),
            Party::Client(id) => self.client_steps(id, event),
        }
    }

    // A timer runs out at a party, which has it.
    fn runs_out(self, party: Party, kind: TimerKind) -> Result<WorldStepped<M>, WorldFault>
        ensures goes { (g : Whole M.State) → Shows g self → IfOk result (λ r. GoesTo (timer_of M.rules g party kind) r.note r.world) }
        ensures broken { (g : Whole M.State) → Shows g self → IfErr result (IsBrokenBy (timer_of M.rules g party kind)) }
        ensures answer { IfOk result (λ r. r.answer ≡ timer_answer M.rules self.seats party kind) }
    {
        if has_timer(party, kind) {
            self.steps(party, Event::Timer(kind))
        } else {
            Ok(self.no_subject().answered(None))
        }
    }
}

// A replica has the timers `Request` and `Change`, and a client `Answer`.
fn has_timer(party: Party, kind: TimerKind) -> bool
    ensures { result ≡ has_timer party kind }
{
    match (party, kind) {
        (Party::Replica(_), TimerKind::Request | TimerKind::Change) => true,
        (Party::Replica(_), TimerKind::Answer) => false,
        (Party::Client(_), TimerKind::Answer) => true,
        (Party::Client(_), TimerKind::Request | TimerKind::Change) => false,
    }
}
