//! A replica on the network.

ghost use Rattle.std.specs.Prelude.{◌≡◌};
ghost use Rattle.zy_edge.specs.Faults.{IsCounted};
ghost use Rattle.zy_node.specs.Replicas.{replica_rules};
ghost use Rattle.zy_node.specs.Told.{ServesTo, TurnsTo, is_link_fault};
ghost use Rattle.zy_node.specs.Turn.{host_of};

use crate::cores::is_refused;
use crate::fault::NodeFault;
use crate::host::Host;
use crate::{Core, Moved};
use std::alloc::Global;
use std::marker::Model;
use zy_base::{Event, Machine, Timers, Want};
use zy_edge::{Clock, Link};
use zy_pieces::MAX_DATAGRAM;
use zy_replica::{Replica, Stepped};

/// A replica with the frames that are being gathered for it and the moments at which its timers run out.
#[derive(Drop)]
pub struct Node<M: Machine> {
    host: Host<Replica<M>>,
}

impl<M: Machine> Model for Node<M> {
    ghost use Rattle.zy_node.specs.Turn.{HostState};
    ghost use Rattle.zy_table.specs.State.{State};

    ghost Value = { HostState (State M.State) };

    ghost view = { λ n. n.host };
}

impl<M: Machine> Node<M> {
    /// Nothing has come yet, and the timers that are to run begin to run.
    pub fn new(alloc: Global, replica: Replica<M>) -> Node<M>
        ensures { result ≡ host_of replica }
    {
        Node {
            host: Host::new(alloc, replica),
        }
    }

    pub fn replica(&self) -> &Replica<M>
        ensures { result.now ≡ self.now.core }
    {
        self.host.core()
    }

    /// One turn of `Host`. Where the link fails, the node that is handed back has taken the steps until then.
    pub fn turn<L: Link, T: Clock>(
        self,
        link: &mut L,
        clock: &mut T,
    ) -> Result<Node<M>, NodeFault<Node<M>>>
        ensures turn { TurnsTo (replica_rules M.rules) self result (record { mail = L.mail link.old; receives = L.receives link.old; moments = T.moments clock.old }) (record { mail = L.mail link.new; receives = L.receives link.new; moments = T.moments clock.new }) }
        ensures binding { L.binding link.new ≡ L.binding link.old }
        ensures count { IsCounted (is_link_fault result) (L.faults link.old) (L.faults link.new) }
    {
        let mut room = [0; MAX_DATAGRAM];
        node_of(self.host.turn(&mut room, link, clock))
    }

    /// So many turns, or those until a call of the link fails.
    pub fn serve<L: Link, T: Clock>(
        self,
        link: &mut L,
        clock: &mut T,
        turns: u64,
    ) -> Result<Node<M>, NodeFault<Node<M>>>
        ensures run { ServesTo (replica_rules M.rules) turns self result (record { mail = L.mail link.old; receives = L.receives link.old; moments = T.moments clock.old }) (record { mail = L.mail link.new; receives = L.receives link.new; moments = T.moments clock.new }) }
        ensures binding { L.binding link.new ≡ L.binding link.old }
        ensures count { IsCounted (is_link_fault result) (L.faults link.old) (L.faults link.new) }
    {
        node_of(self.host.serve(link, clock, turns))
    }
}

fn node_of<M: Machine>(
    hosted: Result<Host<Replica<M>>, NodeFault<Host<Replica<M>>>>,
) -> Result<Node<M>, NodeFault<Node<M>>>
    ensures { result ≡ hosted }
{
    match hosted {
        Ok(host) => Ok(Node { host }),
        Err(NodeFault::Link(host)) => Err(NodeFault::Link(Node { host })),
        Err(NodeFault::Want) => Err(NodeFault::Want),
    }
}

impl<M: Machine> Core for Replica<M> {
    ghost rules = { replica_rules M.rules };

    fn handle(self, event: Event) -> Result<Moved<Replica<M>>, Want> {
        let Stepped {
            replica,
            answer,
            out,
            timers: _,
            said: _,
            got: _,
        } = self.step(event)?;
        replica.take_in();
        Ok(Moved {
            core: replica,
            out,
            refused: is_refused(answer),
        })
    }

    fn running_timers(&self) -> Timers {
        self.timers()
    }

    fn is_done(&self) -> bool {
        false
    }
}
