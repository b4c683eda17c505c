ghost use Rattle.std.specs.Prelude.{◌≡◌, ◌++◌, ◌∷◌, [], map, option_copied, option_map, IfOk, IfSome, OnOk};
ghost use Rattle.std.specs.List.{AllByRecursion};
ghost use Rattle.std.specs.Option.{ForSome};
ghost use Rattle.zy_parts.specs.Signing.{IsSignedInRange};
ghost use Rattle.zy_parts.specs.Statements.{IsAskInRange};
ghost use Rattle.zy_table.specs.Sending.{copies};
ghost use Rattle.zy_world.specs.Passed.{AreWithin};
ghost use Rattle.zy_world.specs.Shown.{numbered, request_in as request_at, requests_in, with_delivered, with_dropped};
ghost use Rattle.zy_world_law.specs.World.{mail_to};

use std::alloc::Global;
use std::marker::Model;
use zy_base::{Bytes, Items, Outgoing, Party, Want};
use zy_parts::{Ask, Signed};
use zy_world_setup::request_in;

/// A frame that was sent, with its marks.
#[derive(Debug, Drop)]
pub struct Mail {
    pub to: Party,
    pub bytes: Bytes,
    /// An event brought it to some party.
    pub delivered: bool,
    /// Flows pass over it.
    pub dropped: bool,
}

impl Model for Mail {
    ghost use Rattle.zy_world_law.specs.World.{Mail as Post};

    ghost Value = { Post };

    ghost view = { λ m. record {
      to = m.to;
      bytes = m.bytes;
      delivered = m.delivered;
      dropped = m.dropped;
    } };
}

/// How many of the first frames flows go over.
#[derive(Debug, Drop)]
pub(crate) struct Passed {
    /// Of them they have nothing left, whoever is muted.
    pub(crate) past: usize,
    /// Of them they have nothing left while no muted party is heard again.
    pub(crate) idle: usize,
}

/// Every frame that was sent, in order.
#[derive(Debug, Drop)]
pub(crate) struct Bag {
    pub(crate) mails: Vec<Mail>,
    pub(crate) passed: Passed,
}

impl Model for Bag {
    ghost use Rattle.std.specs.Prelude.{◌≤◌, length};
    ghost use Rattle.zy_world.specs.Shown.{Posted};

    ghost Value = { Posted };

    ghost view = { λ b. record { mails = b.mails.items; passed = b.passed } };

    ghost invariant = { λ b. (b.passed.past ≤ length b.mails.items) × (b.passed.idle ≤ length b.mails.items) };
}

impl Bag {
    pub(crate) fn new(alloc: Global) -> Bag
        ensures { result ≡ record { mails = []; passed = record { past = 0; idle = 0 } } }
    {
        Bag {
            mails: Vec::new(alloc),
            passed: Passed { past: 0, idle: 0 },
        }
    }

    /// Puts frames in at the end.
    pub(crate) fn send(&mut self, sent: Outgoing) -> Result<(), Want>
        ensures sent { OnOk result (self.new ≡ record { mails = self.old.mails ++ map mail_to sent; passed = self.old.passed }) }
        ensures within { AreWithin self.old }
    {
        let _ = &self.mails;
        for (to, bytes) in sent.into_vec() {
            self.put(to, bytes)?;
        }
        Ok(())
    }

    fn put(&mut self, to: Party, bytes: Bytes) -> Result<(), Want>
        ensures { OnOk result (self.new ≡ record { mails = self.old.mails ++ mail_to (to, bytes) ∷ []; passed = self.old.passed }) }
    {
        Ok(
            self.mails.push(Mail {
                to,
                bytes,
                delivered: false,
                dropped: false,
            })?,
        )
    }

    /// The frame of this number, if there is one.
    pub(crate) fn frame(&self, number: u64) -> Option<&Mail>
        ensures { option_copied result ≡ numbered self.now.mails number }
    {
        if number == 0 {
            return None;
        }
        self.mails.get((number - 1) as usize)
    }

    /// Marks the frame of this number as delivered.
    pub(crate) fn deliver(&mut self, number: u64)
        ensures { self.new ≡ record { mails = with_delivered self.old.mails number; passed = self.old.passed } }
    {
        if number == 0 {
            return;
        }
        if let Some(mail) = self.mails.get_mut((number - 1) as usize) {
            mail.delivered = true;
        }
    }

    /// Marks the frame of this number as dropped.
    pub(crate) fn drop_frame(&mut self, number: u64)
        ensures { self.new ≡ record { mails = with_dropped self.old.mails number; passed = self.old.passed } }
    {
        if number == 0 {
            return;
        }
        if let Some(mail) = self.mails.get_mut((number - 1) as usize) {
            mail.dropped = true;
        }
    }

    /// Puts a frame in for each of these parties.
    pub(crate) fn send_copies(&mut self, bytes: &Bytes, to: &Items<Party>) -> Result<(), Want>
        ensures sent { OnOk result (self.new ≡ record { mails = self.old.mails ++ map mail_to (copies bytes.now to.now); passed = self.old.passed }) }
        ensures within { AreWithin self.old }
    {
        let _ = &self.mails;
        for party in to.as_slice() {
            self.put(*party, bytes.clone()?)?;
        }
        Ok(())
    }

    /// The requests that the frames of these numbers are, if each is one that a client signed.
    pub(crate) fn requests(
        &self,
        alloc: Global,
        numbers: &Items<u64>,
    ) -> Result<Option<Items<Signed<Ask>>>, Want>
        ensures value { IfOk result (λ found. found ≡ requests_in self.now.mails numbers.now) }
        ensures range { IfOk result (λ found. IfSome found (AllByRecursion (IsSignedInRange IsAskInRange))) }
    {
        let mut found = Items::new(alloc);
        for number in numbers.as_slice() {
            match self.request(alloc, *number)? {
                Some(ask) => found.push(ask)?,
                None => return Ok(None),
            }
        }
        Ok(Some(found))
    }

    fn request(&self, alloc: Global, number: u64) -> Result<Option<Signed<Ask>>, Want>
        ensures value { IfOk result (λ ask. ask ≡ request_at self.now.mails number) }
        ensures range { IfOk result (λ ask. ForSome ask (IsSignedInRange IsAskInRange)) }
    {
        match self.frame(number) {
            Some(mail) => request_in(alloc, mail.bytes.as_slice()),
            None => Ok(None),
        }
    }
}
