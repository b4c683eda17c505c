// Keys of two levels, which sign by one leaf after another of one lower key after another (RFC 8554, sections 6.1 and 6.2).

ghost use Rattle.std.specs.Prelude.{◌≡◌, ℕ, ◌+◌, ◌-◌, ◌*◌, ◌/◌, ◌%◌, ◌^◌, ◌<◌, ◌≤◌, ◌↔◌, IfOk, OnOk, OnErr, IsErrOf};
ghost use Rattle.zy_lms.specs.Height.{levels_of, signatures_of};
ghost use Rattle.zy_lms.specs.KeyState.{at_leaf};
ghost use Rattle.zy_lms.specs.Hss.{IsHssKey, HssVerifies, hss_public_of, hss_signature_of, top_leaf, lower_leaf, top_leaf_in, lower_leaf_in};

use crate::height::Height;
use crate::key::{LmsKey, SignFault};
use crate::lower::{LowerKey, lower_at};
use std::alloc::Global;
use std::marker::Model;
use zy_base::{Bytes, Want};
use zy_ots::OtsType;

/// The first number of a public key.
pub(crate) const LEVELS: u32 = 2;

/// A secret key of two levels, and the number of the signature that it gives next. It isn't `Clone`, since a copy would sign
/// by the same leaves again.
#[derive(Drop)]
pub struct HssKey {
    top: LmsKey,
    // The lower key that signed last, so that its tree is made once.
    lower: Option<LowerKey>,
    next: u32,
}

impl Model for HssKey {
    ghost use Rattle.std.specs.Prelude.{IfSome};
    ghost use Rattle.zy_lms.specs.KeyState.{KeyState, at_leaf};
    ghost use Rattle.zy_lms.specs.Hss.{IsHssKey, IsLowerKey};

    ghost Value = { KeyState };

    ghost view = { λ k. at_leaf k.top k.next };

    ghost invariant = { λ k. IsHssKey (at_leaf k.top k.next) × IfSome k.lower (λ l. IsLowerKey k.top l.leaf l.key l.signed) };
}

impl HssKey {
    /// The key whose top key has this seed and identifier, at the signature with the number `next`, from 0 on. Makes the
    /// top key's tree; a lower tree is made as its first signature needs it.
    pub fn make(
        alloc: Global,
        seed: &[u8; 32],
        id: &[u8; 16],
        height: Height,
        ots: OtsType,
        next: u32,
    ) -> Result<HssKey, Want>
        requires { next ≤ signatures_of height }
        ensures { IfOk result (λ k. k ≡ record { seed = seed.now; id = id.now; height = height; ots = ots; next = next }) }
    {
        let top = LmsKey::make(alloc, seed, id, height, ots, 0)?;
        Ok(HssKey {
            top,
            lower: None,
            next,
        })
    }

    /// The key whose top key is an LMS key that may have signed already. It begins at that key's next leaf, so that no leaf by
    /// which it signed signs again. Takes no memory.
    pub fn migrate(key: LmsKey) -> Result<HssKey, (LmsKey, Want)>
        ensures migrated { result ≡ Ok (at_leaf key (key.next * 2 ^ levels_of key.height)) }
        ensures behind { IfOk result (λ k. (number : ℕ) → k.next ≤ number → key.next ≤ top_leaf (at_leaf k number)) }
    {
        let next = key.next_leaf() * key.height().leaf_count();
        Ok(HssKey {
            top: key,
            lower: None,
            next,
        })
    }

    /// The public key: the number of levels and the top key's public key.
    pub fn public(&self) -> [u8; 60]
        ensures { result ≡ hss_public_of self.now }
    {
        let mut public = [0u8; 60];
        public[..4].copy_from_slice(&LEVELS.to_be_bytes());
        public[4..].copy_from_slice(&self.top.public());
        public
    }

    /// How many signatures the key still gives.
    pub fn left(&self) -> u32
        ensures left { result ≡ signatures_of self.now.height - self.now.next }
        ensures within { self.now.next ≤ signatures_of self.now.height }
        ensures key { IsHssKey self.now }
    {
        self.top.height().signature_count() - self.next
    }

    /// The number of the next signature, from 0 on. Where none is left it is the number of signatures.
    pub fn next_leaf(&self) -> u32
        ensures { result ≡ self.now.next }
    {
        self.next
    }

    /// The signature of `message` by the next leaf of a lower key, by which no later signature is. At a lower key's first leaf that
    /// key's tree is made, which takes as long as `make`.
    pub fn sign(&mut self, message: &[u8]) -> Result<Bytes, SignFault>
        ensures value { IfOk result (λ s. s ≡ hss_signature_of self.old message.now) }
        ensures verifies { IfOk result (λ s. HssVerifies (hss_public_of self.old) message.now s) }
        ensures at_top_leaf { IfOk result (λ s. top_leaf_in s ≡ top_leaf self.old) }
        ensures at_lower_leaf { IfOk result (λ s. lower_leaf_in self.old.height self.old.ots s ≡ lower_leaf self.old) }
        ensures raised { OnOk result (self.new ≡ record self.old { next = self.old.next + 1 }) }
        ensures spent { IsErrOf result SignFault.Spent ↔ (self.old.next ≡ signatures_of self.old.height) }
        ensures unchanged { OnErr result (self.new ≡ self.old) }
    {
        if self.left() == 0 {
            return Err(SignFault::Spent);
        }
        Ok(self.sign_next(message)?)
    }

    // The same, where a signature is left.
    fn sign_next(&mut self, message: &[u8]) -> Result<Bytes, Want>
        requires { self.old.next < signatures_of self.old.height }
        ensures value { IfOk result (λ s. s ≡ hss_signature_of self.old message.now) }
        ensures raised { OnOk result (self.new ≡ record self.old { next = self.old.next + 1 }) }
        ensures unchanged { OnErr result (self.new ≡ self.old) }
    {
        let height = self.top.height();
        let lower = lower_at(self.lower.take(), &self.top, top_of(height, self.next))?;
        let signed = lower.signature(lower_of(height, self.next), message);
        self.lower = Some(lower);
        let signature = signed?;
        self.next += 1;
        Ok(signature)
    }
}

// The top leaf under which the signature with this number lies.
fn top_of(height: Height, number: u32) -> u32
    requires { number < signatures_of height }
    ensures value { result ≡ number / 2 ^ levels_of height }
    ensures within { result < 2 ^ levels_of height }
{
    number / height.leaf_count()
}

// The lower key's leaf that gives it.
fn lower_of(height: Height, number: u32) -> u32
    ensures value { result ≡ number % 2 ^ levels_of height }
    ensures within { result < 2 ^ levels_of height }
{
    number % height.leaf_count()
}
