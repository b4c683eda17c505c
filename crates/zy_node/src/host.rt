ghost use Rattle.std.specs.Prelude.{◌≡◌, ◌<◌, ◌^◌, IfOk};
ghost use Rattle.zy_edge.specs.Faults.{IsCounted, raised};
ghost use Rattle.zy_pieces.specs.Gathering.{added};
ghost use Rattle.zy_node.specs.Timing.{again_at, is_reached, moment_of};
ghost use Rattle.zy_node.specs.Turn.{all_parcels, host_of, steps, takes, reads, fires};
ghost use Rattle.zy_node.specs.Told.{ComesTo, FiresAs, HearsTo, RunsTo, TurnsTo, is_link_fault};

use crate::due::{Due, is_reached};
use crate::fault::{NodeFault, SendFault};
use crate::sending::send_all;
use crate::{Core, Moved};
use std::alloc::Global;
use std::marker::Model;
use zy_base::{Bytes, Event, Outgoing, Party, TimerKind, Want};
use zy_edge::{Clock, Heard, Link};
use zy_pieces::{Gather, Gathered, MAX_DATAGRAM};

/// How long a turn waits for a datagram, in milliseconds.
pub(crate) const WAIT_MS: u64 = 20;

/// What a step made of a host: the host after it, the frames to send, and whether the event was refused.
#[derive(Drop)]
pub(crate) struct Handled<C: Core> {
    pub(crate) host: Host<C>,
    pub(crate) out: Outgoing,
    pub(crate) refused: bool,
}

/// A core with the frames of which some pieces have come, and the moments at which its timers run out.
#[derive(Drop)]
pub struct Host<C: Core> {
    alloc: Global,
    core: C,
    gather: Gather,
    due: Due,
}

impl<C: Core> Model for Host<C> {
    ghost use Rattle.zy_node.specs.Turn.{HostState};

    ghost Value = { HostState C };

    ghost view = { λ h. record { core = h.core; frames = h.gather; due = h.due } };
}

impl<C: Core> Host<C> {
    /// Nothing has come yet, and the timers that are to run begin to run.
    pub fn new(alloc: Global, core: C) -> Host<C>
        ensures { result ≡ host_of core }
    {
        Host {
            alloc,
            core,
            gather: Gather::new(alloc),
            due: Due::none(),
        }
    }

    pub fn core(&self) -> &C
        ensures { result.now ≡ self.now.core }
    {
        &self.core
    }

    pub(crate) fn allocator(&self) -> Global {
        self.alloc
    }

    pub fn into_core(self) -> C
        ensures { result ≡ self.core }
    {
        let Host {
            alloc: _,
            core,
            gather: _,
            due: _,
        } = self;
        core
    }

    /// One turn: a datagram is heard, or none within 20 ms; a frame that it makes whole is stepped, and what the step sends
    /// is sent; then the clock is read, and each timer whose moment has come is stepped likewise. The first call of the
    /// link that fails ends the turn. The room is what datagrams are read into, and its bytes tell nothing before or after.
    pub fn turn<L: Link, T: Clock>(
        self,
        room: &mut [u8; MAX_DATAGRAM],
        link: &mut L,
        clock: &mut T,
    ) -> Result<Host<C>, NodeFault<Host<C>>>
        ensures turn { TurnsTo C.rules self result (record { mail = L.mail link.old; receives = L.receives link.old; moments = T.moments clock.old }) (record { mail = L.mail link.new; receives = L.receives link.new; moments = T.moments clock.new }) }
        ensures binding { L.binding link.new ≡ L.binding link.old }
        ensures count { IsCounted (is_link_fault result) (L.faults link.old) (L.faults link.new) }
    {
        let host = self.hear(room, link)?;
        let now = clock.now_ms();
        host.read(now).fire_all(now, link)
    }

    /// Turns, until the core is done, or so many are taken.
    pub fn serve<L: Link, T: Clock>(
        self,
        link: &mut L,
        clock: &mut T,
        turns: u64,
    ) -> Result<Host<C>, NodeFault<Host<C>>>
        ensures run { RunsTo C.rules turns self result (record { mail = L.mail link.old; receives = L.receives link.old; moments = T.moments clock.old }) (record { mail = L.mail link.new; receives = L.receives link.new; moments = T.moments clock.new }) }
        ensures binding { L.binding link.new ≡ L.binding link.old }
        ensures count { IsCounted (is_link_fault result) (L.faults link.old) (L.faults link.new) }
    {
        let mut room = [0; MAX_DATAGRAM];
        let mut host = self;
        for _ in 0..turns {
            if host.is_done() {
                return Ok(host);
            }
            host = host.turn(&mut room, link, clock)?;
        }
        Ok(host)
    }

    fn is_done(&self) -> bool
        ensures { result ≡ C.rules.is_done self.now.core }
    {
        self.core.is_done()
    }

    // A datagram, and what it makes.
    fn hear<L: Link>(
        self,
        room: &mut [u8; MAX_DATAGRAM],
        link: &mut L,
    ) -> Result<Host<C>, NodeFault<Host<C>>>
        ensures hears { HearsTo C.rules self result (L.mail link.old) (L.mail link.new) (L.receives link.old) (L.receives link.new) }
        ensures receives { L.receives link.new ≡ raised (L.receives link.old) }
        ensures binding { L.binding link.new ≡ L.binding link.old }
        ensures count { IsCounted (is_link_fault result) (L.faults link.old) (L.faults link.new) }
    {
        match link.receive(room, WAIT_MS) {
            Heard::Datagram(len) => self.take(&room[..len], link),
            Heard::Quiet => Ok(self),
            Heard::Failed => Err(NodeFault::Link(self)),
        }
    }

    fn take<L: Link>(mut self, datagram: &[u8], link: &mut L) -> Result<Host<C>, NodeFault<Host<C>>>
        ensures comes { ComesTo (takes C.rules datagram.now self) result (L.mail link.old) (L.mail link.new) }
        ensures receives { L.receives link.new ≡ L.receives link.old }
        ensures binding { L.binding link.new ≡ L.binding link.old }
        ensures count { IsCounted (is_link_fault result) (L.faults link.old) (L.faults link.new) }
    {
        match self.gather(datagram)? {
            Gathered::Whole(frame) => self.step(Event::Heard(frame), link),
            Gathered::Part => Ok(self),
            Gathered::Refused(_) => Ok(self),
        }
    }

    pub(crate) fn gather(&mut self, datagram: &[u8]) -> Result<Gathered, Want>
        ensures answer { IfOk result (λ answer. answer ≡ (added self.old.frames datagram.now).answer) }
        ensures host { IfOk result (λ _. self.new ≡ record self.old { frames = (added self.old.frames datagram.now).frames }) }
    {
        self.gather.add(datagram)
    }

    // A step, and its sendings.
    fn step<L: Link>(self, event: Event, link: &mut L) -> Result<Host<C>, NodeFault<Host<C>>>
        ensures comes { ComesTo (steps C.rules event self) result (L.mail link.old) (L.mail link.new) }
        ensures receives { L.receives link.new ≡ L.receives link.old }
        ensures binding { L.binding link.new ≡ L.binding link.old }
        ensures count { IsCounted (is_link_fault result) (L.faults link.old) (L.faults link.new) }
    {
        let Handled {
            host,
            out,
            refused: _,
        } = self.handle(event)?;
        host.send(out.as_slice(), link)
    }

    /// The core after an event, and the frames to send. Timers that are no longer to run have no moment.
    pub(crate) fn handle(self, event: Event) -> Result<Handled<C>, Want>
        ensures steps { IfOk result (λ h. steps C.rules event self ≡ record { host = h.host; sent = all_parcels h.out }) }
        ensures refused { IfOk result (λ h. h.refused ≡ (C.rules.step event self.core).refused) }
    {
        let Host {
            alloc,
            core,
            gather,
            due,
        } = self;
        let Moved { core, out, refused } = core.handle(event)?;
        let due = due.kept_for(core.running_timers());
        let host = Host {
            alloc,
            core,
            gather,
            due,
        };
        Ok(Handled { host, out, refused })
    }

    fn send<L: Link>(
        self,
        out: &[(Party, Bytes)],
        link: &mut L,
    ) -> Result<Host<C>, NodeFault<Host<C>>>
        ensures comes { ComesTo (record { host = self; sent = all_parcels out.now }) result (L.mail link.old) (L.mail link.new) }
        ensures receives { L.receives link.new ≡ L.receives link.old }
        ensures binding { L.binding link.new ≡ L.binding link.old }
        ensures count { IsCounted (is_link_fault result) (L.faults link.old) (L.faults link.new) }
    {
        match send_all(self.alloc, link, out) {
            Ok(()) => Ok(self),
            Err(SendFault::Link) => Err(NodeFault::Link(self)),
            Err(SendFault::Want) => Err(NodeFault::Want),
        }
    }

    /// The clock was read.
    #[tactic(auto, unfolding(crate::specs::Turn::reads))]
    pub(crate) fn read(mut self, now: u64) -> Host<C>
        requires { now < 2 ^ 62 }
        ensures { result ≡ reads C.rules now self }
    {
        self.due = self.due.begun_at(now, self.core.running_timers());
        self
    }

    // The timers in their order.
    fn fire_all<L: Link>(self, now: u64, link: &mut L) -> Result<Host<C>, NodeFault<Host<C>>>
        requires { now < 2 ^ 62 }
        ensures fires { FiresAs C.rules now self result (L.mail link.old) (L.mail link.new) }
        ensures receives { L.receives link.new ≡ L.receives link.old }
        ensures binding { L.binding link.new ≡ L.binding link.old }
        ensures count { IsCounted (is_link_fault result) (L.faults link.old) (L.faults link.new) }
    {
        let host = self.fire(TimerKind::Request, now, link)?;
        let host = host.fire(TimerKind::Change, now, link)?;
        host.fire(TimerKind::Answer, now, link)
    }

    // A timer, where its moment has come.
    fn fire<L: Link>(
        self,
        kind: TimerKind,
        now: u64,
        link: &mut L,
    ) -> Result<Host<C>, NodeFault<Host<C>>>
        requires { now < 2 ^ 62 }
        ensures comes { ComesTo (fires C.rules kind now self) result (L.mail link.old) (L.mail link.new) }
        ensures receives { L.receives link.new ≡ L.receives link.old }
        ensures binding { L.binding link.new ≡ L.binding link.old }
        ensures count { IsCounted (is_link_fault result) (L.faults link.old) (L.faults link.new) }
    {
        if self.is_due(kind, now) {
            self.run_again(kind, now).step(Event::Timer(kind), link)
        } else {
            Ok(self)
        }
    }

    pub(crate) fn is_due(&self, kind: TimerKind, now: u64) -> bool
        ensures { result ≡ is_reached now (moment_of kind self.now.due) }
    {
        is_reached(now, self.due.moment(kind))
    }

    pub(crate) fn run_again(mut self, kind: TimerKind, now: u64) -> Host<C>
        requires { now < 2 ^ 62 }
        ensures { result ≡ record self { due = again_at now kind self.due } }
    {
        self.due = self.due.again_at(now, kind);
        self
    }
}
