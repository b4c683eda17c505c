//! The frames that are brought next, of which no two go to one replica.

ghost use Rattle.std.specs.Prelude.{◌≡◌, ◌≤◌, ◌<◌, ◌∷◌, ◌++◌, [], None, if◌then◌else◌, length, IfOk, OnOk};
ghost use Rattle.zy_world.specs.Ahead.{IsBatch, due_of, is_free, with_taken};
ghost use Rattle.zy_world.specs.Gathering.{AreGathered, GoesIn};
ghost use Rattle.zy_world.specs.Shows.{Shows};
ghost use Rattle.zy_world_law.specs.World.{World as Whole, next_undelivered};

use crate::World;
use crate::bag::Mail;
use crate::mutes::{is_set, put};
use std::alloc::Global;
use zy_base::{Bytes, ClientId, Machine, Party, ReplicaId, Want};

/// A frame that flows have left.
#[derive(Drop)]
pub(crate) struct Due {
    pub(crate) number: u64,
    pub(crate) to: Party,
    pub(crate) bytes: Bytes,
}

/// Whose turn it is to hear the frame of this number. A replica is out of its seat and has the frame's bytes with it.
#[derive(Drop)]
pub(crate) enum Turn {
    Replica {
        number: u64,
        id: ReplicaId,
    },
    Client {
        number: u64,
        id: ClientId,
        bytes: Bytes,
    },
}

// Frames that flows have left, in order, and which replicas sit in their seats when those are out to which they go.
#[derive(Drop)]
struct Batch {
    dues: Vec<Due>,
    sits: Vec<bool>,
}

impl Batch {
    // One frame more, unless its replica stands among them already.
    fn add(&mut self, number: u64, mail: &Mail) -> Result<bool, Want>
        ensures added { OnOk result (self.new.dues.items ≡ (if is_free mail.now.to self.old.sits.items then self.old.dues.items ++ due_of number mail.now ∷ [] else self.old.dues.items)) }
        ensures taken { OnOk result (self.new.sits.items ≡ (if is_free mail.now.to self.old.sits.items then with_taken mail.now.to self.old.sits.items else self.old.sits.items)) }
        ensures free { IfOk result (λ free. free ≡ is_free mail.now.to self.old.sits.items) }
    {
        if !is_free(&self.sits, mail.to) {
            return Ok(false);
        }
        let due = Due {
            number,
            to: mail.to,
            bytes: mail.bytes.clone()?,
        };
        self.dues.push(due)?;
        take(&mut self.sits, mail.to);
        Ok(true)
    }
}

fn is_free(sits: &[bool], to: Party) -> bool
    ensures { result ≡ is_free to sits.now }
{
    match to {
        Party::Replica(ReplicaId(id)) => is_set(sits, id as usize),
        Party::Client(_) => true,
    }
}

fn take(sits: &mut Vec<bool>, to: Party)
    ensures { sits.new.items ≡ with_taken to sits.old.items }
{
    match to {
        Party::Replica(ReplicaId(id)) => put(sits, id as usize, false),
        Party::Client(_) => {}
    }
}

impl<M: Machine> World<M> {
    /// The frames that flows bring next, at most so many, up to the first whose replica stands among them. They are known before
    /// any of them is brought, as what is sent meanwhile stands behind them.
    pub(crate) fn next_dues(&self, most: u64) -> Result<Vec<Due>, Want>
        ensures next { (g : Whole M.State) → Shows g self.now → IfOk result (λ dues. IsBatch g dues.items self.now) }
        ensures none { (g : Whole M.State) → Shows g self.now → 0 < most → IfOk result (λ dues. dues.items ≡ [] → next_undelivered g ≡ None) }
        ensures most { IfOk result (λ dues. length dues.items ≤ most) }
    {
        let mut batch = Batch {
            dues: Vec::new(self.alloc),
            sits: self.seats.who_sits(self.alloc)?,
        };
        self.gather(most, &mut batch)?;
        Ok(batch.dues)
    }

    fn gather(&self, most: u64, batch: &mut Batch) -> Result<(), Want>
        ensures within { self.now.bag.passed.idle ≤ length self.now.bag.mails }
        ensures gathered { OnOk result (AreGathered self.now most batch.old batch.new) }
    {
        let mut at = self.bag.passed.idle;
        while at < self.bag.mails.len() && (batch.dues.len() as u64) < most {
            if !self.goes_in(at, batch)? {
                return Ok(());
            }
            at += 1;
        }
        Ok(())
    }

    // The frame at this index is one more, if it is due; not where its replica stands among them already.
    fn goes_in(&self, at: usize, batch: &mut Batch) -> Result<bool, Want>
        requires { at < length self.now.bag.mails }
        ensures { IfOk result (GoesIn self.now at batch.old batch.new) }
    {
        let mail = &self.bag.mails[at];
        if self.is_due(mail) {
            batch.add((at + 1) as u64, mail)
        } else {
            Ok(true)
        }
    }
}
