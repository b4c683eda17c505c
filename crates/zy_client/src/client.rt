ghost use Rattle.std.specs.Prelude.{◌≡◌, ◌≤◌, ◌<◌, ◌^◌, length, option_copied, option_map, replicate, None, IfOk};
ghost use Rattle.zy_base.specs.declared.ids.Party.TheVariants as parties;

use std::alloc::Global;
use std::marker::Model;
use zy_base::{Answer, ClientId, Counts, Items, Outgoing, Party, Said, Stamp, Timers, View, Want};
use zy_parts::{Ask, Signed};
use zy_seal::{Directory, Sealer};
use zy_table::{Commit, Done, Response};

/// A client: its keys, the request that waits, the responses to it, the commit certificate that it sent for it, and the
/// views whose primary it told all of.
#[derive(Drop)]
pub struct Client {
    pub(crate) alloc: Global,
    pub(crate) me: ClientId,
    pub(crate) counts: Counts,
    pub(crate) directory: Directory,
    pub(crate) sealer: Sealer,
    pub(crate) known_view: View,
    pub(crate) stamp: Stamp,
    pub(crate) waiting: Option<Signed<Ask>>,
    pub(crate) responses: Vec<Option<Response>>,
    pub(crate) commit: Option<Commit>,
    pub(crate) done: Option<Done>,
    pub(crate) blamed: Items<View>,
}

impl Model for Client {
    ghost use Rattle.zy_table.specs.ClientState.{ClientState};

    ghost Value = { ClientState };

    ghost view = { λ c. record {
      me = c.me;
      counts = c.counts;
      keys = c.directory;
      sealer = c.sealer;
      known_view = c.known_view;
      stamp = c.stamp;
      waiting = c.waiting;
      responses = c.responses.items;
      commit = c.commit;
      done = c.done;
      blamed = c.blamed;
    } };

    ghost use Rattle.zy_client.specs.Ready.{IsReady};

    ghost invariant = { λ c. IsReady (record {
      me = c.me;
      counts = c.counts;
      keys = c.directory;
      sealer = c.sealer;
      known_view = c.known_view;
      stamp = c.stamp;
      waiting = c.waiting;
      responses = c.responses.items;
      commit = c.commit;
      done = c.done;
      blamed = c.blamed;
    }) };
}

/// What a step made of its event: the client after it, the answer, the frames to send, the timers that are to run
/// from now on, and the statements that were signed.
#[derive(Drop)]
pub struct ClientStepped {
    pub client: Client,
    pub answer: Answer,
    pub out: Outgoing,
    pub timers: Timers,
    pub said: Said,
}

impl Client {
    ghost use Rattle.zy_table.specs.ClientState.{client_start, timers_of};

    /// A client that has not asked yet; its first request has the stamp after the given one.
    pub fn start(
        alloc: Global,
        counts: Counts,
        me: ClientId,
        sealer: Sealer,
        directory: Directory,
        stamp: Stamp,
    ) -> Result<Client, Want>
        requires signer { sealer.me ≡ parties.Client me }
        requires stamp { stamp.0 ≤ 2 ^ 61 }
        ensures { IfOk result (λ c. c ≡ client_start me counts directory sealer stamp) }
    {
        let responses = no_responses(alloc, counts.n)?;
        Ok(Client {
            alloc,
            me,
            counts,
            sealer: sealer.beside(&directory),
            directory,
            known_view: View(0),
            stamp,
            waiting: None,
            responses,
            commit: None,
            done: None,
            blamed: Items::new(alloc),
        })
    }

    /// What it checked and signed is known from now on to all that share its store of signatures.
    pub fn take_in(&self) {
        self.directory.take_in();
        self.sealer.take_in();
    }

    /// The last completion.
    pub fn done(&self) -> Option<&Done>
        ensures { option_copied result ≡ self.now.done }
    {
        self.done.as_ref()
    }

    /// The stamp of the request that waits.
    pub fn waiting(&self) -> Option<Stamp>
        ensures { result ≡ option_map (λ ask. ask.stmt.stamp) self.now.waiting }
    {
        match &self.waiting {
            Some(ask) => Some(ask.stmt.stamp),
            None => None,
        }
    }

    /// The number of its next signature.
    pub fn key_next(&self) -> u32
        ensures { result ≡ self.now.sealer.key.next }
    {
        self.sealer.next_leaf()
    }

    /// The stamp of the last request.
    pub fn stamp(&self) -> Stamp
        ensures { result ≡ self.now.stamp }
    {
        self.stamp
    }

    /// The timers that are to run now.
    pub fn timers(&self) -> Timers
        ensures { result ≡ timers_of self.now }
    {
        Timers {
            request: false,
            change: false,
            answer: self.waiting.is_some(),
        }
    }
}

// None of so many replicas has responded.
pub(crate) fn no_responses(alloc: Global, replicas: u64) -> Result<Vec<Option<Response>>, Want>
    ensures { IfOk result (λ v. v.items ≡ replicate replicas None) }
{
    let mut responses = Vec::with_capacity(alloc, replicas as usize)?;
    for _ in 0..replicas {
        responses.push(None)?;
    }
    Ok(responses)
}
