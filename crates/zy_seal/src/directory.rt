ghost use Rattle.std.specs.Prelude.{◌≡◌, ◌↔◌, ℕ, List, Option, option_copied, None, Some, IsTrue};
ghost use Rattle.zy_lms.specs.Hss.{HssVerifies, hss_verified};

use crate::known::Known;
use std::alloc::{AllocError, Global};
use std::marker::Model;
use zy_base::{ClientId, Party, ReplicaId};
use zy_lms::hss_verify;

/// The public keys of a group, each of two levels: their number, and the top LMS key (RFC 8554, section 6.1). What it knows beside, which no clause
/// sees, spares checks that were made already.
#[derive(Drop)]
pub struct Directory {
    alloc: Global,
    replicas: Vec<[u8; 60]>,
    clients: Vec<[u8; 60]>,
    known: Known,
}

impl Model for Directory {
    ghost use Rattle.zy_seal.specs.Keys.{Keys};

    ghost Value = { Keys };

    ghost view = { λ d. record { replicas = d.replicas.items; clients = d.clients.items } };
}

impl Clone for Directory {
    ghost is_clone = { λ a b. b ≡ a };

    /// Both stand beside one store.
    fn clone(&self) -> Result<Directory, AllocError> {
        Ok(Directory {
            alloc: self.alloc,
            replicas: Vec::from_slice(self.alloc, &self.replicas)?,
            clients: Vec::from_slice(self.alloc, &self.clients)?,
            known: self.known.beside(),
        })
    }
}

/// What a check of a signature says.
#[derive(Clone, Copy, Debug, PartialEq, Eq)]
pub enum SealAnswer {
    /// The signature verifies under the party's key.
    Yes,
    /// The directory has no such party.
    UnknownParty,
    /// The directory has the party, and the signature doesn't verify under its key.
    BadSignature,
}

impl Directory {
    ghost use Rattle.zy_seal.specs.Keys.{key_of};

    /// The keys in the order of the parties' numbers. Takes no memory: a copy takes it from `alloc`.
    pub fn new(alloc: Global, replicas: Vec<[u8; 60]>, clients: Vec<[u8; 60]>) -> Directory
        ensures { result ≡ record { replicas = replicas.items; clients = clients.items } }
    {
        Directory {
            alloc,
            replicas,
            clients,
            known: Known::nothing(alloc),
        }
    }

    /// The same keys, beside a store of the signatures that this process checks and makes, if there is memory for it. Its copies share it.
    pub fn with_store(mut self) -> Directory
        ensures { result ≡ self }
    {
        self.known = Known::open(self.alloc);
        self
    }

    /// Keeps for all that share the store what was checked since by this directory.
    pub fn take_in(&self) {
        self.known.take_in();
    }

    pub(crate) fn known(&self) -> &Known {
        &self.known
    }

    // What is known to verify isn't checked again.
    fn verifies(&self, key: &[u8; 60], text: &[u8], sig: &[u8]) -> bool
        ensures value { result ≡ hss_verified key.now text.now sig.now }
        ensures meaning { IsTrue result ↔ HssVerifies key.now text.now sig.now }
    {
        if self.known.has(key, text, sig) {
            return true;
        }
        let verifies = hss_verify(key, text, sig);
        if verifies {
            self.known.keep(key, text, sig);
        }
        verifies
    }

    pub fn key(&self, by: Party) -> Option<&[u8; 60]>
        ensures { option_copied result ≡ key_of self.now by }
    {
        match by {
            Party::Replica(ReplicaId(id)) => self.replicas.get(id as usize),
            Party::Client(ClientId(id)) => self.clients.get(id as usize),
        }
    }
}

ghost use Rattle.zy_seal.specs.Keys.{key_of};
ghost use Rattle.zy_seal.specs.Checking.{answer_of};

/// Whether the party signed the text. Needs no memory: what verified is kept where there is some.
pub fn check(directory: &Directory, by: Party, text: &[u8], sig: &[u8]) -> SealAnswer
    ensures value { result ≡ answer_of directory.now by text.now sig.now }
    ensures unknown { (result ≡ SealAnswer.UnknownParty) ↔ (key_of directory.now by ≡ None) }
    ensures yes { (result ≡ SealAnswer.Yes) ↔ ((key : List ℕ) × (key_of directory.now by ≡ Some key) × HssVerifies key text.now sig.now) }
{
    match directory.key(by) {
        None => SealAnswer::UnknownParty,
        Some(key) => {
            if directory.verifies(key, text, sig) {
                SealAnswer::Yes
            } else {
                SealAnswer::BadSignature
            }
        }
    }
}
