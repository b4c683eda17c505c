ghost use Rattle.std.specs.Prelude.{◌≡◌, ◌<◌, ◌≤◌, [], None, Some, IfOk, length, take, slice_get};
ghost use Rattle.zy_edge.specs.Binding.{after_binding};
ghost use Rattle.zy_edge.specs.Faults.{IsCounted, raised};
ghost use Rattle.zy_edge.specs.Link.{StaysAsTold, IsHeard, IsSent, bind_failed, receive_failed, send_failed};
ghost use Rattle.zy_edge.specs.Memory.{next_is_listed, send_fails, counted, mail_of};

use super::binding::{Address, Binding};
use super::{Bound, Heard, Link, Sent};
use crate::calls::Calls;
use crate::faults::raised;
use std::alloc::Global;
use std::marker::Model;
use zy_base::{Bytes, Party, Want};

/// The bytes of the longest datagram that is taken.
pub const MAX_PARCEL: usize = 8229;

#[derive(Debug, Drop)]
struct Slot {
    to: Party,
    len: usize,
    bytes: [u8; MAX_PARCEL],
    ghost fits: { len ≤ 8229 },
}

/// Datagrams in memory, of which chosen calls fail: those that are to be heard, and room for so many that are sent. A
/// call fails exactly where its number is listed, or where it is a `send` for which no room is left or whose datagram has
/// more than 8,229 bytes.
#[derive(Debug, Drop)]
pub struct MemLink {
    heard: Vec<Bytes>,
    next: usize,
    sent: Vec<Slot>,
    room: usize,
    calls: Calls,
    receives: u64,
    binding: Binding,
    /// How many datagrams had been heard and sent when an address was asked for last.
    heard_then: usize,
    sent_then: usize,
}

impl Model for MemLink {
    ghost use Rattle.std.specs.Prelude.{◌≤◌, Some, drop, length, map, take, vec_capacity};
    ghost use Rattle.zy_edge.specs.Binding.{calls_of};
    ghost use Rattle.zy_edge.specs.Memory.{MemoryLink};

    ghost Value = { MemoryLink };

    ghost view = { λ m. record {
      coming = drop m.next m.heard.items;
      sent = map (λ s. record { to = s.to; bytes = take s.len s.bytes }) m.sent.items;
      room = m.room;
      calls = m.calls;
      receives = m.receives;
      binding = calls_of m.binding (Some (record {
        coming = drop m.heard_then m.heard.items;
        sent = map (λ s. record { to = s.to; bytes = take s.len s.bytes }) (take m.sent_then m.sent.items);
      }));
    } };

    ghost invariant = { λ m. (m.next ≤ length m.heard.items) × (length m.sent.items ≤ m.room) × (m.room ≤ vec_capacity m.sent) × (m.sent_then ≤ length m.sent.items) };
}

impl MemLink {
    /// Takes the datagrams that are to be heard in their order, the numbers of the calls that are to fail, and at once the
    /// room. Calls are numbered from 1, and the number stays at 2^64 - 1.
    pub fn new(
        alloc: Global,
        heard: Vec<Bytes>,
        failing: Vec<u64>,
        room: u64,
    ) -> Result<MemLink, Want>
        requires { room ≤ 4096 }
        ensures { IfOk result (λ link. link ≡ record {
          coming = heard.items;
          sent = [];
          room = room;
          calls = record { failing = failing.items; made = 0; faults = 0 };
          receives = 0;
          binding = record { times = 0; last = None; stood = record { receives = 0; mail = Some (record { coming = heard.items; sent = [] }) } };
        }) }
    {
        let room = room as usize;
        Ok(MemLink {
            heard,
            next: 0,
            sent: Vec::with_capacity(alloc, room)?,
            room,
            calls: Calls::new(failing),
            receives: 0,
            binding: Binding::none(),
            heard_then: 0,
            sent_then: 0,
        })
    }

    /// How often it was bound, or was to be, where last, and how many receives were made before that.
    pub fn binding(&self) -> Binding
        ensures { result ≡ record { times = self.now.binding.times; last = self.now.binding.last; receives = self.now.binding.stood.receives } }
    {
        self.binding
    }

    /// How many datagrams were sent.
    pub fn parcels(&self) -> usize
        ensures { result ≡ length self.now.sent }
    {
        self.sent.len()
    }

    /// A datagram that was sent, by its number from 0.
    #[tactic(auto, using(crate::proofs::LinkLemmas::mapped_at))]
    pub fn parcel(&self, number: usize) -> (Party, &[u8])
        requires { number < length self.now.sent }
        ensures { slice_get self.now.sent number ≡ Some (record { to = result.0; bytes = result.1.now }) }
    {
        let slot = &self.sent[number];
        (slot.to, &slot.bytes[..slot.len])
    }
}

// Copies as much as fits, and says how much.
fn copy_front(bytes: &[u8], buf: &mut [u8]) -> usize
    ensures len { result ≤ length buf.new }
    ensures front { take result buf.new ≡ take (length buf.new) bytes.now }
{
    let len = bytes.len().min(buf.len());
    buf[..len].copy_from_slice(&bytes[..len]);
    len
}

impl Link for MemLink {
    ghost faults = { λ m. m.calls.faults };

    ghost receives = { λ m. m.receives };

    ghost mail = { λ m. Some (mail_of m) };

    ghost binding = { λ m. m.binding };

    #[tactic(auto, using(std::proofs::lemmas::List::take_all))]
    fn bind(&mut self, port: u16, me: Party) -> Bound
        ensures exactly { bind_failed result ≡ next_is_listed self.old.calls }
        ensures calls { self.new.calls ≡ counted (bind_failed result) self.old.calls }
        ensures room { self.new.room ≡ self.old.room }
        ensures mail { StaysAsTold (Some (mail_of self.old)) (Some (mail_of self.new)) }
        ensures binding { self.new.binding ≡ after_binding (record { port = port; party = me }) (record { receives = self.old.receives; mail = Some (mail_of self.old) }) self.old.binding }
        ensures receives { self.new.receives ≡ self.old.receives }
        ensures count { IsCounted (bind_failed result) self.old.calls.faults self.new.calls.faults }
    {
        let failed = self.calls.next_is_listed();
        self.calls.count(failed);
        let asked = Address { port, party: me };
        self.binding = self.binding.after(asked, self.receives);
        self.heard_then = self.next;
        self.sent_then = self.sent.len();
        if failed { Bound::Failed } else { Bound::Bound }
    }

    fn receive(&mut self, buf: &mut [u8], _wait_ms: u64) -> Heard
        ensures exactly { receive_failed result ≡ next_is_listed self.old.calls }
        ensures calls { self.new.calls ≡ counted (receive_failed result) self.old.calls }
        ensures room { self.new.room ≡ self.old.room }
        ensures mail { IsHeard result buf.new (Some (mail_of self.old)) (Some (mail_of self.new)) }
        ensures binding { self.new.binding ≡ self.old.binding }
        ensures receives { self.new.receives ≡ raised self.old.receives }
        ensures count { IsCounted (receive_failed result) self.old.calls.faults self.new.calls.faults }
    {
        let failed = self.calls.next_is_listed();
        self.calls.count(failed);
        self.receives = raised(self.receives);
        if failed {
            return Heard::Failed;
        }
        match self.heard.get(self.next) {
            None => Heard::Quiet,
            Some(datagram) => {
                let len = copy_front(datagram.as_slice(), buf);
                self.next += 1;
                Heard::Datagram(len)
            }
        }
    }

    #[tactic(auto, using(crate::proofs::LinkLemmas::sent_before))]
    fn send(&mut self, to: Party, bytes: &[u8]) -> Sent
        ensures exactly { send_failed result ≡ send_fails self.old bytes.now }
        ensures calls { self.new.calls ≡ counted (send_failed result) self.old.calls }
        ensures room { self.new.room ≡ self.old.room }
        ensures mail { IsSent result to bytes.now (Some (mail_of self.old)) (Some (mail_of self.new)) }
        ensures binding { self.new.binding ≡ self.old.binding }
        ensures receives { self.new.receives ≡ self.old.receives }
        ensures count { IsCounted (send_failed result) self.old.calls.faults self.new.calls.faults }
    {
        let failed = self.calls.next_is_listed()
            || self.room <= self.sent.len()
            || bytes.len() > MAX_PARCEL;
        self.calls.count(failed);
        if failed {
            return Sent::Failed;
        }
        // The room was taken at the start, so this can't fail.
        match self.sent.push(filled_slot(to, bytes)) {
            Ok(()) => Sent::Sent,
            Err(_) => unreachable!(),
        }
    }
}

#[tactic(auto, using(std::proofs::lemmas::List::take_all))]
fn filled_slot(to: Party, bytes: &[u8]) -> Slot
    requires { length bytes.now ≤ 8229 }
    ensures to { result.to ≡ to }
    ensures bytes { take result.len result.bytes ≡ bytes.now }
{
    let mut room = [0; MAX_PARCEL];
    let len = copy_front(bytes, &mut room);
    Slot {
        to,
        len,
        bytes: room,
    }
}
