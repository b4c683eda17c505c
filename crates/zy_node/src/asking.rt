//! A client on the network: it asks, and takes turns until its request is complete.

ghost use Rattle.std.specs.Prelude.{◌≡◌, ◌≤◌, OnErr, OnOk, length};
ghost use Rattle.zy_edge.specs.Faults.{IsCounted};
ghost use Rattle.zy_node.specs.Asking.{AskerRunsTo, AskerTurnsTo, AsksAs, BeginsAs, WaitsAs, ask_result, is_ask_fault};
ghost use Rattle.zy_node.specs.Clients.{client_rules};
ghost use Rattle.zy_node.specs.Told.{Sends, SendsFront};
ghost use Rattle.zy_node.specs.Turn.{all_parcels};

use crate::asker::{Asked, Asker, Begun};
use crate::cores::is_refused;
use crate::fault::{AskFault, NodeFault};
use crate::host::Host;
use crate::sending::send_all;
use crate::{Core, Moved};
use std::alloc::Global;
use zy_base::{Answer, Bytes, Event, Party, Timers, Want};
use zy_client::{Client, ClientStepped};
use zy_edge::{Clock, Link};
use zy_pieces::MAX_DATAGRAM;

impl Asker {
    /// Asks for an operation of at most 1,100 bytes, and sends the request.
    pub fn begin<L: Link>(
        alloc: Global,
        client: Client,
        op: Bytes,
        link: &mut L,
    ) -> Result<Begun, AskFault>
        requires { length op ≤ 1100 }
        ensures begins { BeginsAs client op result (L.mail link.old) (L.mail link.new) }
        ensures receives { L.receives link.new ≡ L.receives link.old }
        ensures binding { L.binding link.new ≡ L.binding link.old }
        ensures count { IsCounted (is_ask_fault result) (L.faults link.old) (L.faults link.new) }
    {
        let ClientStepped {
            client,
            answer,
            out,
            timers: _,
            said: _,
        } = client.ask(op)?;
        match answer {
            Answer::Refused(cause) => Ok(Begun::Refused(client, cause)),
            Answer::Taken | Answer::Held => {
                send_request(alloc, link, out.as_slice())?;
                Ok(Begun::Waiting(Asker {
                    host: Host::new(alloc, client),
                }))
            }
        }
    }

    /// One turn of `Host`.
    pub fn turn<L: Link, T: Clock>(self, link: &mut L, clock: &mut T) -> Result<Asker, AskFault>
        ensures turn { AskerTurnsTo self result (record { mail = L.mail link.old; receives = L.receives link.old; moments = T.moments clock.old }) (record { mail = L.mail link.new; receives = L.receives link.new; moments = T.moments clock.new }) }
        ensures binding { L.binding link.new ≡ L.binding link.old }
        ensures count { IsCounted (is_ask_fault result) (L.faults link.old) (L.faults link.new) }
    {
        let mut room = [0; MAX_DATAGRAM];
        asker_of(self.host.turn(&mut room, link, clock))
    }

    pub fn client(&self) -> &Client
        ensures { result.now ≡ self.now.core }
    {
        self.host.core()
    }

    pub fn into_client(self) -> Client
        ensures { result ≡ self.core }
    {
        self.host.into_core()
    }

    // Turns until the request is complete, or so many are taken.
    fn serve<L: Link, T: Clock>(
        self,
        link: &mut L,
        clock: &mut T,
        turns: u64,
    ) -> Result<Asker, AskFault>
        ensures run { AskerRunsTo turns self result (record { mail = L.mail link.old; receives = L.receives link.old; moments = T.moments clock.old }) (record { mail = L.mail link.new; receives = L.receives link.new; moments = T.moments clock.new }) }
        ensures binding { L.binding link.new ≡ L.binding link.old }
        ensures count { IsCounted (is_ask_fault result) (L.faults link.old) (L.faults link.new) }
    {
        asker_of(self.host.serve(link, clock, turns))
    }

    // Whether they completed it.
    fn wait<L: Link, T: Clock>(
        self,
        link: &mut L,
        clock: &mut T,
        turns: u64,
    ) -> Result<Asked, AskFault>
        ensures waits { WaitsAs self turns result (record { mail = L.mail link.old; receives = L.receives link.old; moments = T.moments clock.old }) (record { mail = L.mail link.new; receives = L.receives link.new; moments = T.moments clock.new }) }
        ensures binding { L.binding link.new ≡ L.binding link.old }
        ensures count { IsCounted (is_ask_fault result) (L.faults link.old) (L.faults link.new) }
    {
        let asker = self.serve(link, clock, turns)?;
        let client = asker.into_client();
        if client.is_done() {
            Ok(Asked::Done(client))
        } else {
            Ok(Asked::Spent(client))
        }
    }
}

// Owns no client: its caller drops its own where a call fails.
fn send_request<L: Link>(
    alloc: Global,
    link: &mut L,
    out: &[(Party, Bytes)],
) -> Result<(), AskFault>
    ensures ok { OnOk result (Sends (all_parcels out.now) (L.mail link.old) (L.mail link.new)) }
    ensures err { OnErr result (SendsFront (all_parcels out.now) (L.mail link.old) (L.mail link.new)) }
    ensures receives { L.receives link.new ≡ L.receives link.old }
    ensures binding { L.binding link.new ≡ L.binding link.old }
    ensures count { IsCounted (is_ask_fault result) (L.faults link.old) (L.faults link.new) }
{
    send_all(alloc, link, out)?;
    Ok(())
}

fn asker_of(hosted: Result<Host<Client>, NodeFault<Host<Client>>>) -> Result<Asker, AskFault>
    ensures { result ≡ ask_result hosted }
{
    match hosted {
        Ok(host) => Ok(Asker { host }),
        Err(fault) => Err(AskFault::from(fault)),
    }
}

/// Asks for an operation of at most 1,100 bytes, and takes turns until the request is complete, at most so many.
pub fn ask_over<L: Link, T: Clock>(
    alloc: Global,
    client: Client,
    op: Bytes,
    link: &mut L,
    clock: &mut T,
    turns: u64,
) -> Result<Asked, AskFault>
    requires { length op ≤ 1100 }
    ensures asks { AsksAs client op turns result (record { mail = L.mail link.old; receives = L.receives link.old; moments = T.moments clock.old }) (record { mail = L.mail link.new; receives = L.receives link.new; moments = T.moments clock.new }) }
    ensures binding { L.binding link.new ≡ L.binding link.old }
    ensures count { IsCounted (is_ask_fault result) (L.faults link.old) (L.faults link.new) }
{
    match Asker::begin(alloc, client, op, link)? {
        Begun::Refused(client, cause) => Ok(Asked::Refused(client, cause)),
        Begun::Waiting(asker) => asker.wait(link, clock, turns),
    }
}

impl Core for Client {
    ghost rules = { client_rules };

    fn handle(self, event: Event) -> Result<Moved<Client>, Want> {
        let ClientStepped {
            client,
            answer,
            out,
            timers: _,
            said: _,
        } = self.step(event)?;
        client.take_in();
        Ok(Moved {
            core: client,
            out,
            refused: is_refused(answer),
        })
    }

    fn running_timers(&self) -> Timers {
        self.timers()
    }

    // Its last request is complete.
    fn is_done(&self) -> bool {
        match self.done() {
            Some(done) => done.stamp == self.stamp(),
            None => false,
        }
    }
}
