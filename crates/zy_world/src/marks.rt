//! What flows have left.

ghost use Rattle.std.specs.Prelude.{◌≡◌, ◌≤◌, length, drop, position, true, false};
ghost use Rattle.zy_world.specs.Passed.{ArePast, is_due_in, is_left, is_past};
ghost use Rattle.zy_world.specs.Shown.{Mutes};
ghost use Rattle.zy_world.specs.Shows.{Shows};
ghost use Rattle.zy_world_law.specs.World.{World as Whole, drop_frame, next_undelivered, set_muted};

use crate::World;
use crate::bag::{Bag, Mail};
use crate::mutes::Muted;
use crate::seat::Seat;
use crate::seats::Seats;
use zy_base::{Machine, Party};

impl<M: Machine> World<M> {
    /// The least number of a frame that was never delivered or dropped and goes to a correct party that isn't muted.
    pub fn next_undelivered(&self) -> Option<u64>
        ensures { (g : Whole M.State) → Shows g self.now → result ≡ next_undelivered g }
    {
        match self.first_due() {
            Some(ahead) => Some((self.bag.passed.idle + ahead + 1) as u64),
            None => None,
        }
    }

    // The first such frame of those that flows have not gone over.
    fn first_due(&self) -> Option<usize>
        ensures within { self.now.bag.passed.idle ≤ length self.now.bag.mails }
        ensures first { result ≡ position (is_due_in self.now) (drop self.now.bag.passed.idle self.now.bag.mails) }
    {
        self.first_among(&self.bag.mails[self.bag.passed.idle..])
    }

    fn first_among(&self, mails: &[Mail]) -> Option<usize>
        ensures { result ≡ position (is_due_in self.now) mails.now }
    {
        mails.iter().position(|mail| self.is_due(mail))
    }

    pub(crate) fn is_due(&self, mail: &Mail) -> bool
        ensures { result ≡ is_due_in self.now mail.now }
    {
        is_left(&self.seats, &self.muted, mail)
    }

    /// Flows pass over the frame of this number; it may still be delivered by its number. Changes nothing where there is no
    /// such frame. Takes no memory.
    pub fn drop_frame(&mut self, frame: u64)
        ensures { (g : Whole M.State) → Shows g self.old → Shows (drop_frame g frame) self.new }
    {
        self.bag.drop_frame(frame);
        pass(&mut self.bag, &self.seats, &self.muted);
    }

    /// Flows pass over the frames to this party. Changes nothing where there is no such party. Takes no memory.
    pub fn mute(&mut self, party: Party)
        ensures { (g : Whole M.State) → Shows g self.old → Shows (set_muted g party true) self.new }
    {
        self.muted.set(party, true);
    }

    /// Flows pass over the frames to this party no longer. Changes nothing where there is no such party. Takes no memory.
    pub fn unmute(&mut self, party: Party)
        ensures { (g : Whole M.State) → Shows g self.old → Shows (set_muted g party false) self.new }
    {
        look_again(&mut self.bag, &self.seats);
        self.muted.set(party, false);
    }
}

// Flows have nothing left of the frame, whoever is muted: it was delivered or dropped, or goes to no correct party.
fn is_past<M: Machine>(seats: &Seats<M>, mail: &Mail) -> bool
    ensures { result ≡ is_past seats.now mail.now }
{
    mail.delivered || mail.dropped || seats.seat(mail.to) != Seat::Correct
}

// Flows have the frame left while these are muted.
fn is_left<M: Machine>(seats: &Seats<M>, muted: &Muted, mail: &Mail) -> bool
    ensures { result ≡ is_left seats.now muted.now mail.now }
{
    !is_past(seats, mail) && !muted.is_muted(mail.to)
}

// Goes on over the frames of which flows have nothing left while these are muted.
pub(crate) fn pass<M: Machine>(bag: &mut Bag, seats: &Seats<M>, muted: &Muted)
    ensures mails { bag.new.mails ≡ bag.old.mails }
    ensures past { ArePast seats.now muted.now bag.old → ArePast seats.now muted.now bag.new }
{
    while bag.passed.idle < bag.mails.len() && !is_left(seats, muted, &bag.mails[bag.passed.idle]) {
        bag.passed.idle += 1;
    }
}

// A muted party is heard again: flows go over the frames alone of which they have nothing left, whoever is muted.
fn look_again<M: Machine>(bag: &mut Bag, seats: &Seats<M>)
    ensures mails { bag.new.mails ≡ bag.old.mails }
    ensures past { (mutes others : Mutes) → ArePast seats.now mutes bag.old → ArePast seats.now others bag.new }
{
    pass_past(bag, seats);
    bag.passed.idle = bag.passed.past;
}

// Goes on over the frames of which flows have nothing left, whoever is muted.
fn pass_past<M: Machine>(bag: &mut Bag, seats: &Seats<M>)
    ensures mails { bag.new.mails ≡ bag.old.mails }
    ensures past { (mutes : Mutes) → ArePast seats.now mutes bag.old → ArePast seats.now mutes bag.new }
{
    while bag.passed.past < bag.mails.len() && is_past(seats, &bag.mails[bag.passed.past]) {
        bag.passed.past += 1;
    }
}
