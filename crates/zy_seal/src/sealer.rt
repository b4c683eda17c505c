ghost use Rattle.std.specs.Prelude.{◌≡◌, ◌≤◌, ◌↔◌, IfOk, OnOk, OnErr, IsErrOf};
ghost use Rattle.zy_lms.specs.Hss.{IsHssKey};
ghost use Rattle.zy_seal.specs.Sealing.{signatures_by, left_of};
ghost use Rattle.zy_seal.specs.declared.sealer.SealFault.TheVariants.{KeySpent};

use crate::Directory;
use crate::known::Known;
use std::alloc::Global;
use std::marker::Model;
use zy_base::{Party, Want};
use zy_lms::{HssKey, SignFault};
use zy_parts::{Signed, Statement, signed_text};

/// Why a statement isn't signed. No signature is spent then.
#[derive(Clone, Copy, Debug, PartialEq, Eq)]
pub enum SealFault {
    /// The key has no signature left.
    KeySpent,
    Want,
}

impl From<Want> for SealFault {
    ghost use Rattle.zy_seal.specs.declared.sealer.SealFault.TheVariants as faults;

    ghost from_gives = { λ _ fault. fault ≡ faults.Want };

    fn from(_: Want) -> SealFault {
        SealFault::Want
    }
}

/// A party with its secret key.
#[derive(Drop)]
pub struct Sealer {
    alloc: Global,
    me: Party,
    key: HssKey,
    known: Known,
}

impl Model for Sealer {
    ghost use Rattle.zy_seal.specs.Sealing.{SealerState};

    ghost Value = { SealerState };

    ghost view = { λ s. record { me = s.me; key = s.key } };
}

impl Sealer {
    ghost use Rattle.zy_seal.specs.Sealing.{IsSealed, sealed_by, spent_one};

    /// Takes no memory. What is sealed takes it from `alloc`.
    pub fn new(alloc: Global, me: Party, key: HssKey) -> Sealer
        ensures { result ≡ record { me = me; key = key } }
    {
        Sealer {
            alloc,
            me,
            key,
            known: Known::nothing(alloc),
        }
    }

    /// The same party, beside the directory's store, if it has one: what it signs needn't be checked there.
    pub fn beside(mut self, directory: &Directory) -> Sealer
        ensures { result ≡ self }
    {
        self.known = directory.known().beside();
        self
    }

    /// Keeps for all that share the store what was signed since.
    pub fn take_in(&self) {
        self.known.take_in();
    }

    /// The statement with the own signature on its signed text, by the key's next signature.
    pub fn seal<S: Statement>(&mut self, stmt: S) -> Result<Signed<S>, SealFault>
        requires { S.in_range stmt }
        ensures value { IfOk result (λ s. s ≡ sealed_by S.its_number S.spelling self.old stmt) }
        ensures sealed { IfOk result (IsSealed S.its_number S.spelling self.old stmt) }
        ensures spent_one { OnOk result (self.new ≡ spent_one self.old) }
        ensures spent { IsErrOf result SealFault.KeySpent ↔ (self.old.key.next ≡ signatures_by self.old.key.height) }
        ensures unchanged { OnErr result (self.new ≡ self.old) }
    {
        if self.left() == 0 {
            return Err(SealFault::KeySpent);
        }
        let text = signed_text(self.alloc, self.me, &stmt)?;
        let public = self.key.public();
        match self.key.sign(text.as_slice()) {
            Ok(sig) => {
                self.known.keep(&public, text.as_slice(), sig.as_slice());
                Ok(Signed {
                    by: self.me,
                    stmt,
                    sig,
                })
            }
            Err(SignFault::Spent) => Err(SealFault::KeySpent),
            Err(SignFault::Want) => Err(SealFault::Want),
        }
    }

    /// The party that signs.
    pub fn party(&self) -> Party
        ensures { result ≡ self.now.me }
    {
        self.me
    }

    /// How many statements the key can still sign.
    pub fn left(&self) -> u32
        ensures left { result ≡ left_of self.now }
        ensures within { self.now.key.next ≤ signatures_by self.now.key.height }
        ensures key { IsHssKey self.now.key }
    {
        self.key.left()
    }

    /// The number of the next signature.
    pub fn next_leaf(&self) -> u32
        ensures { result ≡ self.now.key.next }
    {
        self.key.next_leaf()
    }
}
