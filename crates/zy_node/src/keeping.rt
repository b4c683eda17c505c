//! A turn whose events are stored, and nothing of which is sent.

ghost use Rattle.std.specs.Prelude.{◌≡◌, ◌≤◌, ◌<◌, ◌^◌, ◌++◌, false, true, None, [], ◌∷◌, IfOk, length};
ghost use Rattle.zy_base.specs.declared.step.Event.TheVariants as events;
ghost use Rattle.zy_edge.specs.Faults.{IsCounted};
ghost use Rattle.zy_edge.specs.Link.{send_failed};
ghost use Rattle.zy_journal.specs.Journal.{IsAtEnd, IsPiece};
ghost use Rattle.zy_node.specs.Events.{SuitsJournal, event_bytes, event_due, events_due, events_heard, events_of, records, timer_bytes};
ghost use Rattle.zy_node.specs.Keeping.{KeepsAs, TakesTo, all_owed, is_disk_fault, is_taken_link_fault};
ghost use Rattle.zy_node.specs.Timing.{again_at};
ghost use Rattle.zy_node.specs.Told.{SendsAs};
ghost use Rattle.zy_pieces.specs.Gathering.{added};
ghost use Rattle.zy_node.specs.Turn.{fires, fires_to, hears, reads, stays, steps};
ghost use Rattle.zy_base.specs.declared.step.TimerKind.TheVariants as kinds;

use crate::Core;
use crate::fault::TakeFault;
use crate::host::{Handled, Host, WAIT_MS};
use crate::owing::{Owed, owe_all, send_owed};
use crate::records::record_of;
use std::alloc::Global;
use std::marker::Model;
use zy_base::{Event, Items, TimerKind, Want};
use zy_edge::{Clock, Heard, Link, Sent};
use zy_journal::{AppendFault, Disk, Journal};
use zy_pieces::{Gathered, MAX_DATAGRAM};

/// A core on its way through a turn: its events so far are stored, and their datagrams are owed.
#[derive(Drop)]
pub(crate) struct Keeping<C: Core> {
    pub(crate) host: Host<C>,
    pub(crate) journal: Journal,
    pub(crate) owed: Items<Owed>,
}

impl<C: Core> Model for Keeping<C> {
    ghost use Rattle.zy_node.specs.Keeping.{UnsentState, all_owed};

    ghost Value = { UnsentState C };

    ghost view = { λ k. record { host = k.host; gate = k.journal; owed = all_owed k.owed } };
}

/// What a step made of it, and whether the event was refused.
#[derive(Drop)]
struct Stepped<C: Core> {
    keeping: Keeping<C>,
    refused: bool,
}

impl<C: Core> Keeping<C> {
    /// Nothing is owed.
    pub(crate) fn new(host: Host<C>, journal: Journal) -> Keeping<C>
        ensures { result ≡ record { host = host; gate = journal; owed = [] } }
    {
        let owed = Items::new(host.allocator());
        Keeping {
            host,
            journal,
            owed,
        }
    }

    /// One turn of `Host`: what it would send is owed. The clock is read before the first step. Only what isn't refused is
    /// stored.
    pub(crate) fn turn<D: Disk, L: Link, T: Clock>(
        self,
        room: &mut [u8; MAX_DATAGRAM],
        disk: &mut D,
        link: &mut L,
        clock: &mut T,
    ) -> Result<Keeping<C>, TakeFault>
        requires free { self.owed ≡ [] }
        requires suits { SuitsJournal C.rules }
        requires silent { self.host.due.answer ≡ None }
        requires end { IsAtEnd (D.contents disk.old) (D.may_leave disk.old) self.gate }
        ensures taken { TakesTo D.contents D.may_leave D.moment D.left_since C.rules (record { host = self.host; gate = self.gate }) result
            (record { mail = L.mail link.old; receives = L.receives link.old; moments = T.moments clock.old }) (record { mail = L.mail link.new; receives = L.receives link.new; moments = T.moments clock.new }) disk.old disk.new }
        ensures silent { IfOk result (λ k. k.host.due.answer ≡ None) }
        ensures binding { L.binding link.new ≡ L.binding link.old }
        ensures disk_count { IsCounted (is_disk_fault result) (D.faults disk.old) (D.faults disk.new) }
        ensures link_count { IsCounted (is_taken_link_fault result) (L.faults link.old) (L.faults link.new) }
    {
        match link.receive(room, WAIT_MS) {
            Heard::Datagram(len) => {
                let now = clock.now_ms();
                self.hear(&room[..len], disk)?.read(now).fire_due(now, disk)
            }
            Heard::Quiet => {
                let now = clock.now_ms();
                self.read(now).fire_due(now, disk)
            }
            Heard::Failed => Err(TakeFault::Link),
        }
    }

    /// Sends what is owed. The first call of the link that fails is the last one; nothing is owed then either.
    pub(crate) fn give<L: Link>(&mut self, link: &mut L) -> Sent
        ensures sent { SendsAs result self.old.owed (L.mail link.old) (L.mail link.new) }
        ensures after { self.new ≡ record { host = self.old.host; gate = self.old.gate; owed = [] } }
        ensures receives { L.receives link.new ≡ L.receives link.old }
        ensures binding { L.binding link.new ≡ L.binding link.old }
        ensures count { IsCounted (send_failed result) (L.faults link.old) (L.faults link.new) }
    {
        let sent = send_owed(link, self.owed.as_slice());
        self.owed = Items::new(self.host.allocator());
        sent
    }

    // A datagram, and what it makes.
    fn hear<D: Disk>(mut self, datagram: &[u8], disk: &mut D) -> Result<Keeping<C>, TakeFault>
        requires suits { SuitsJournal C.rules }
        requires end { IsAtEnd (D.contents disk.old) (D.may_leave disk.old) self.gate }
        ensures keeps { KeepsAs D.contents D.may_leave D.moment D.left_since (hears C.rules (Some datagram.now) self.host) (records C.rules (events_heard (Some datagram.now) self.host) self.host.core) self result disk.old disk.new }
        ensures count { IsCounted (is_disk_fault result) (D.faults disk.old) (D.faults disk.new) }
    {
        match self.gather(datagram)? {
            Gathered::Whole(frame) => self.store(Event::Heard(frame), disk),
            Gathered::Part => Ok(self),
            Gathered::Refused(_) => Ok(self),
        }
    }

    fn gather(&mut self, datagram: &[u8]) -> Result<Gathered, Want>
        ensures answer { IfOk result (λ answer. answer ≡ (added self.old.host.frames datagram.now).answer) }
        ensures after { IfOk result (λ _. self.new ≡ record { host = record self.old.host { frames = (added self.old.host.frames datagram.now).frames }; gate = self.old.gate; owed = self.old.owed }) }
    {
        self.host.gather(datagram)
    }

    // The clock was read.
    fn read(self, now: u64) -> Keeping<C>
        requires { now < 2 ^ 62 }
        ensures { result ≡ record { host = reads C.rules now self.host; gate = self.gate; owed = self.owed } }
    {
        let Keeping {
            host,
            journal,
            owed,
        } = self;
        Keeping {
            host: host.read(now),
            journal,
            owed,
        }
    }

    // The timers in their order. That of a client isn't among them.
    fn fire_due<D: Disk>(self, now: u64, disk: &mut D) -> Result<Keeping<C>, TakeFault>
        requires now { now < 2 ^ 62 }
        requires end { IsAtEnd (D.contents disk.old) (D.may_leave disk.old) self.gate }
        ensures keeps { KeepsAs D.contents D.may_leave D.moment D.left_since (fires_to C.rules kinds.Change now self.host) (records C.rules (events_due C.rules kinds.Change now self.host) self.host.core) self result disk.old disk.new }
        ensures count { IsCounted (is_disk_fault result) (D.faults disk.old) (D.faults disk.new) }
    {
        self.fire(TimerKind::Request, now, disk)?
            .fire(TimerKind::Change, now, disk)
    }

    // A timer, where its moment has come.
    fn fire<D: Disk>(self, kind: TimerKind, now: u64, disk: &mut D) -> Result<Keeping<C>, TakeFault>
        requires now { now < 2 ^ 62 }
        requires stored { 1 ≤ length (timer_bytes kind) }
        requires end { IsAtEnd (D.contents disk.old) (D.may_leave disk.old) self.gate }
        ensures keeps { KeepsAs D.contents D.may_leave D.moment D.left_since (fires C.rules kind now self.host) (records C.rules (event_due kind now self.host) self.host.core) self result disk.old disk.new }
        ensures count { IsCounted (is_disk_fault result) (D.faults disk.old) (D.faults disk.new) }
    {
        if self.host.is_due(kind, now) {
            self.run_again(kind, now).store(Event::Timer(kind), disk)
        } else {
            Ok(self)
        }
    }

    fn run_again(self, kind: TimerKind, now: u64) -> Keeping<C>
        requires { now < 2 ^ 62 }
        ensures { result ≡ record { host = record self.host { due = again_at now kind self.host.due }; gate = self.gate; owed = self.owed } }
    {
        let Keeping {
            host,
            journal,
            owed,
        } = self;
        Keeping {
            host: host.run_again(kind, now),
            journal,
            owed,
        }
    }

    // A step, and its record, unless the event is refused.
    fn store<D: Disk>(self, event: Event, disk: &mut D) -> Result<Keeping<C>, TakeFault>
        requires fits { (C.rules.step event self.host.core).refused ≡ false → IsPiece (event_bytes event) }
        requires end { IsAtEnd (D.contents disk.old) (D.may_leave disk.old) self.gate }
        ensures keeps { KeepsAs D.contents D.may_leave D.moment D.left_since (steps C.rules event self.host) (records C.rules (event ∷ []) self.host.core) self result disk.old disk.new }
        ensures count { IsCounted (is_disk_fault result) (D.faults disk.old) (D.faults disk.new) }
    {
        let piece = record_of(self.host.allocator(), &event)?;
        let Stepped { keeping, refused } = self.step(event)?;
        if refused {
            Ok(keeping)
        } else {
            keeping.append(piece.as_slice(), disk)
        }
    }

    // A step, and what it owes.
    fn step(self, event: Event) -> Result<Stepped<C>, Want>
        ensures keeping { IfOk result (λ s. s.keeping ≡ record { host = (steps C.rules event self.host).host; gate = self.gate; owed = self.owed ++ (steps C.rules event self.host).sent }) }
        ensures refused { IfOk result (λ s. s.refused ≡ (C.rules.step event self.host.core).refused) }
    {
        let Keeping {
            host,
            journal,
            mut owed,
        } = self;
        let alloc = host.allocator();
        let Handled { host, out, refused } = host.handle(event)?;
        owe_all(alloc, &mut owed, out.as_slice())?;
        let keeping = Keeping {
            host,
            journal,
            owed,
        };
        Ok(Stepped { keeping, refused })
    }

    fn append<D: Disk>(self, piece: &[u8], disk: &mut D) -> Result<Keeping<C>, TakeFault>
        requires fits { IsPiece piece.now }
        requires end { IsAtEnd (D.contents disk.old) (D.may_leave disk.old) self.gate }
        ensures keeps { KeepsAs D.contents D.may_leave D.moment D.left_since (stays self.host) (piece.now ∷ []) self result disk.old disk.new }
        ensures count { IsCounted (is_disk_fault result) (D.faults disk.old) (D.faults disk.new) }
    {
        let Keeping {
            host,
            journal,
            owed,
        } = self;
        match journal.append(host.allocator(), disk, piece) {
            Ok(journal) => Ok(Keeping {
                host,
                journal,
                owed,
            }),
            Err(AppendFault::Disk) => Err(TakeFault::Disk),
            Err(AppendFault::Full(_)) => Err(TakeFault::Full),
            Err(AppendFault::Want(_)) => Err(TakeFault::Want),
        }
    }
}
