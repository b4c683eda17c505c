//! A replica on the network whose events a journal keeps.

ghost use Rattle.std.specs.Prelude.{IfOk};
ghost use Rattle.zy_edge.specs.Faults.{IsCounted};
ghost use Rattle.zy_journal.specs.Disk.{Rests};
ghost use Rattle.zy_journal.specs.Journal.{IsAtEnd, IsAtGate};
ghost use Rattle.zy_node.specs.Keeping.{GivesTo, TakesTo, is_disk_fault, is_give_fault, is_taken_link_fault};
ghost use Rattle.zy_node.specs.Recovering.{RecoversTo, is_recover_fault};
ghost use Rattle.zy_node.specs.Replicas.{replica_rules};
ghost use Rattle.zy_node.specs.Serving.{KeepsRun, KeepsTurn};
ghost use Rattle.std.specs.Prelude.{◌≡◌};

use crate::fault::{GiveFault, RecoverFault, TakeFault};
use crate::keeping::Keeping;
use crate::recovering::{Recovered, recover};
use std::alloc::Global;
use std::marker::Model;
use zy_base::Machine;
use zy_edge::{Clock, Link, Sent};
use zy_journal::{Disk, Reading};
use zy_pieces::MAX_DATAGRAM;
use zy_replica::Replica;

/// A replica in its node, with the journal of its events, of which contracts see the place of the gate that ends it.
#[derive(Drop)]
pub struct KeptNode<M: Machine> {
    keeping: Keeping<Replica<M>>,
}

impl<M: Machine> Model for KeptNode<M> {
    ghost use Rattle.zy_node.specs.Keeping.{IsReady, KeptState, given};
    ghost use Rattle.zy_table.specs.State.{State};

    ghost Value = { KeptState (State M.State) };

    ghost view = { λ n. given n.keeping };

    ghost invariant = { λ n. IsReady n.keeping };
}

/// A replica whose events are stored, and the datagrams that it owes for them.
#[derive(Drop)]
pub struct Unsent<M: Machine> {
    keeping: Keeping<Replica<M>>,
}

impl<M: Machine> Model for Unsent<M> {
    ghost use Rattle.std.specs.Prelude.{◌≡◌, None};
    ghost use Rattle.zy_node.specs.Keeping.{UnsentState};
    ghost use Rattle.zy_table.specs.State.{State};

    ghost Value = { UnsentState (State M.State) };

    ghost view = { λ u. u.keeping };

    ghost invariant = { λ u. u.keeping.host.due.answer ≡ None };
}

impl<M: Machine> KeptNode<M> {
    /// Steps the replica over the records that are left to be read. What these steps would send is lost. The timers that are
    /// to run then begin to run.
    pub fn recover<D: Disk>(
        alloc: Global,
        replica: Replica<M>,
        reading: Reading,
        disk: &mut D,
    ) -> Result<KeptNode<M>, RecoverFault>
        requires { IsAtGate (D.contents disk.old) (D.may_leave disk.old) reading }
        ensures recovered { RecoversTo (replica_rules M.rules) replica (D.contents disk.old) reading result }
        ensures end { IfOk result (λ n. IsAtEnd (D.contents disk.new) (D.may_leave disk.new) n.gate) }
        ensures rests { Rests D.contents D.may_leave D.moment D.left_since disk.old disk.new }
        ensures count { IsCounted (is_recover_fault result) (D.faults disk.old) (D.faults disk.new) }
    {
        match recover(alloc, replica, reading, disk) {
            Ok(Recovered { host, journal }) => Ok(KeptNode {
                keeping: Keeping::new(host, journal),
            }),
            Err(fault) => Err(fault),
        }
    }

    pub fn replica(&self) -> &Replica<M>
        ensures { result.now ≡ self.now.host.core }
    {
        self.keeping.host.core()
    }

    /// One turn of `Host`, whose clock is read before the first step. What isn't refused is stored, and nothing is sent.
    pub fn take<D: Disk, L: Link, T: Clock>(
        self,
        room: &mut [u8; MAX_DATAGRAM],
        disk: &mut D,
        link: &mut L,
        clock: &mut T,
    ) -> Result<Unsent<M>, TakeFault>
        requires { IsAtEnd (D.contents disk.old) (D.may_leave disk.old) self.gate }
        ensures taken { TakesTo D.contents D.may_leave D.moment D.left_since (replica_rules M.rules) self result
            (record { mail = L.mail link.old; receives = L.receives link.old; moments = T.moments clock.old }) (record { mail = L.mail link.new; receives = L.receives link.new; moments = T.moments clock.new }) disk.old disk.new }
        ensures binding { L.binding link.new ≡ L.binding link.old }
        ensures disk_count { IsCounted (is_disk_fault result) (D.faults disk.old) (D.faults disk.new) }
        ensures link_count { IsCounted (is_taken_link_fault result) (L.faults link.old) (L.faults link.new) }
    {
        let KeptNode { keeping } = self;
        match keeping.turn(room, disk, link, clock) {
            Ok(keeping) => Ok(Unsent { keeping }),
            Err(fault) => Err(fault),
        }
    }

    /// So many turns, each stored before anything of it is sent, or those until a call fails. What was stored of a turn that
    /// is cut off stays.
    pub fn serve<D: Disk, L: Link, T: Clock>(
        self,
        disk: &mut D,
        link: &mut L,
        clock: &mut T,
        turns: u64,
    ) -> Result<KeptNode<M>, TakeFault>
        requires { IsAtEnd (D.contents disk.old) (D.may_leave disk.old) self.gate }
        ensures run { KeepsRun D.contents D.may_leave D.moment D.left_since (replica_rules M.rules) turns self result
            (record { mail = L.mail link.old; receives = L.receives link.old; moments = T.moments clock.old }) (record { mail = L.mail link.new; receives = L.receives link.new; moments = T.moments clock.new }) disk.old disk.new }
        ensures binding { L.binding link.new ≡ L.binding link.old }
        ensures disk_count { IsCounted (is_disk_fault result) (D.faults disk.old) (D.faults disk.new) }
        ensures link_count { IsCounted (is_taken_link_fault result) (L.faults link.old) (L.faults link.new) }
    {
        let mut room = [0; MAX_DATAGRAM];
        let mut node = self;
        for _ in 0..turns {
            node = node.turn(&mut room, disk, link, clock)?;
        }
        Ok(node)
    }

    // A turn, and then its datagrams.
    fn turn<D: Disk, L: Link, T: Clock>(
        self,
        room: &mut [u8; MAX_DATAGRAM],
        disk: &mut D,
        link: &mut L,
        clock: &mut T,
    ) -> Result<KeptNode<M>, TakeFault>
        requires { IsAtEnd (D.contents disk.old) (D.may_leave disk.old) self.gate }
        ensures kept { KeepsTurn D.contents D.may_leave D.moment D.left_since (replica_rules M.rules) self result
            (record { mail = L.mail link.old; receives = L.receives link.old; moments = T.moments clock.old }) (record { mail = L.mail link.new; receives = L.receives link.new; moments = T.moments clock.new }) disk.old disk.new }
        ensures binding { L.binding link.new ≡ L.binding link.old }
        ensures disk_count { IsCounted (is_disk_fault result) (D.faults disk.old) (D.faults disk.new) }
        ensures link_count { IsCounted (is_taken_link_fault result) (L.faults link.old) (L.faults link.new) }
    {
        match self.take(room, disk, link, clock)?.give(link) {
            Ok(node) => Ok(node),
            Err(GiveFault::Link(_)) => Err(TakeFault::Link),
        }
    }
}

impl<M: Machine> Unsent<M> {
    /// Sends what is owed. The first call of the link that fails is the last one. It needs no memory.
    pub fn give<L: Link>(self, link: &mut L) -> Result<KeptNode<M>, GiveFault<KeptNode<M>>>
        ensures given { GivesTo self result (L.mail link.old) (L.mail link.new) }
        ensures receives { L.receives link.new ≡ L.receives link.old }
        ensures binding { L.binding link.new ≡ L.binding link.old }
        ensures count { IsCounted (is_give_fault result) (L.faults link.old) (L.faults link.new) }
    {
        let Unsent { mut keeping } = self;
        let sent = keeping.give(link);
        let node = KeptNode { keeping };
        match sent {
            Sent::Sent => Ok(node),
            Sent::Failed => Err(GiveFault::Link(node)),
        }
    }
}
