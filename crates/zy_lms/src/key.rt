// LMS keys, which sign by one leaf after another (RFC 8554, sections 5.2 to 5.4).

ghost use Rattle.std.specs.Prelude.{◌≡◌, ℕ, ◌+◌, ◌-◌, ◌*◌, ◌^◌, ◌<◌, ◌≤◌, ◌↔◌, ◌++◌, IfOk, OnOk, OnErr, IsErrOf, List, [], length};
ghost use Rattle.std.specs.List.{concat};
ghost use Rattle.zy_lms.specs.declared.key.SignFault.TheVariants.{Want as OutOfMemory};
ghost use Rattle.zy_lms.specs.Height.{levels_of};
ghost use Rattle.zy_lms.specs.Tree.{path_from};
ghost use Rattle.zy_lms.specs.Nodes.{HoldsNodes};
ghost use Rattle.zy_lms.specs.KeyState.{IsKey, at_leaf};
ghost use Rattle.zy_lms.specs.Lms.{public_of, signature_of, signature_len_of, leaf_of, Verifies};
ghost use Rattle.zy_lms.specs.Hss.{key_under};

use crate::derived::{id_under, seed_under};
use crate::height::Height;
use crate::tree::make_nodes;
use std::alloc::Global;
use std::marker::Model;
use zy_base::{Bytes, Digest, Want};
use zy_ots::{OtsType, ots_sign_onto};

/// Why a key gives no signature. It is then as it was before.
#[derive(Clone, Copy, Debug, PartialEq, Eq)]
pub enum SignFault {
    /// Each leaf has signed.
    Spent,
    /// Want of memory.
    Want,
}

impl From<Want> for SignFault {
    ghost from_gives = { λ _ fault. fault ≡ OutOfMemory };

    fn from(_: Want) -> SignFault {
        SignFault::Want
    }
}

/// A secret key with its tree, and the leaf that signs next. It isn't `Clone`, since a copy would
/// sign by the same leaves again.
#[derive(Drop)]
pub struct LmsKey {
    seed: [u8; 32],
    id: [u8; 16],
    height: Height,
    ots: OtsType,
    next: u32,
    // The tree's nodes, node r at index r, so that a signature only reads its path.
    nodes: Vec<Digest>,
}

impl Model for LmsKey {
    ghost use Rattle.zy_lms.specs.Height.{levels_of};
    ghost use Rattle.zy_lms.specs.Nodes.{HoldsNodes};
    ghost use Rattle.zy_lms.specs.KeyState.{KeyState, IsKey};

    ghost Value = { KeyState };

    ghost view = { λ k. record { seed = k.seed; id = k.id; height = k.height; ots = k.ots; next = k.next } };

    ghost invariant = { λ k. IsKey (record { seed = k.seed; id = k.id; height = k.height; ots = k.ots; next = k.next }) × HoldsNodes k.ots k.id k.seed (levels_of k.height) k.nodes.items 1 };
}

impl LmsKey {
    /// The key with identifier `id` whose one-time keys are made from `seed`, at leaf `next`.
    pub fn make(
        alloc: Global,
        seed: &[u8; 32],
        id: &[u8; 16],
        height: Height,
        ots: OtsType,
        next: u32,
    ) -> Result<LmsKey, Want>
        requires { next ≤ 2 ^ levels_of height }
        ensures { IfOk result (λ k. k ≡ record { seed = seed.now; id = id.now; height = height; ots = ots; next = next }) }
    {
        Ok(LmsKey {
            seed: *seed,
            id: *id,
            height,
            ots,
            next,
            nodes: make_nodes(alloc, id, seed, height, ots)?,
        })
    }

    /// The public key: the LMS type, the LM-OTS type, the identifier and the root.
    pub fn public(&self) -> [u8; 56]
        ensures { result ≡ public_of self.now }
    {
        let mut public = [0u8; 56];
        public[..4].copy_from_slice(&self.height.number().to_be_bytes());
        public[4..8].copy_from_slice(&self.ots.number().to_be_bytes());
        public[8..24].copy_from_slice(&self.id);
        public[24..].copy_from_slice(&self.nodes[1].0);
        public
    }

    /// How many leaves have not signed yet.
    pub fn left(&self) -> u32
        ensures left { result ≡ 2 ^ levels_of self.now.height - self.now.next }
        ensures within { self.now.next ≤ 2 ^ levels_of self.now.height }
        ensures key { IsKey self.now }
    {
        self.height.leaf_count() - self.next
    }

    /// The number of the leaf that signs next. Where none is left it is the number of leaves.
    pub fn next_leaf(&self) -> u32
        ensures { result ≡ self.now.next }
    {
        self.next
    }

    /// The signature of `message` by the next leaf, which no later signature uses.
    pub fn sign(&mut self, message: &[u8]) -> Result<Bytes, SignFault>
        ensures value { IfOk result (λ s. s ≡ signature_of self.old message.now) }
        ensures verifies { IfOk result (λ s. Verifies (public_of self.old) message.now s) }
        ensures leaf { IfOk result (λ s. leaf_of s ≡ self.old.next) }
        ensures raised { OnOk result (self.new ≡ record self.old { next = self.old.next + 1 }) }

        ensures spent { IsErrOf result SignFault.Spent ↔ (self.old.next ≡ 2 ^ levels_of self.old.height) }
        ensures unchanged { OnErr result (self.new ≡ self.old) }
    {
        if self.left() == 0 {
            return Err(SignFault::Spent);
        }
        let signature = self.signature(message)?;
        self.next += 1;
        Ok(signature)
    }

    // The signature of `message` by the next leaf.
    fn signature(&self, message: &[u8]) -> Result<Bytes, Want>
        requires { self.now.next < 2 ^ levels_of self.now.height }
        ensures { IfOk result (λ s. s ≡ signature_of self.now message.now) }
    {
        let out = self.room_for(self.signature_len())?;
        Ok(self.signature_onto(out, self.next, message)?.into())
    }

    /// The length of a signature in bytes.
    pub(crate) fn signature_len(&self) -> usize
        ensures value { result ≡ signature_len_of self.now.height self.now.ots }
        ensures short { result ≤ 2508 }
    {
        self.height.signature_len(self.ots)
    }

    /// Nothing, with room for so many bytes.
    pub(crate) fn room_for(&self, len: usize) -> Result<Vec<u8>, Want>
        ensures { IfOk result (λ out. out.items ≡ []) }
    {
        Ok(Vec::with_capacity(*self.nodes.allocator(), len)?)
    }

    /// The signature of `message` by a leaf, behind the bytes that stand in `out` already. One leaf must not sign two messages.
    pub(crate) fn signature_onto(
        &self,
        mut out: Vec<u8>,
        leaf: u32,
        message: &[u8],
    ) -> Result<Vec<u8>, Want>
        requires { leaf < 2 ^ levels_of self.now.height }
        ensures { IfOk result (λ v. v.items ≡ out.items ++ signature_of (at_leaf self.now leaf) message.now) }
    {
        out.extend_from_slice(&leaf.to_be_bytes())?;
        let mut out = ots_sign_onto(out, self.ots, &self.id, leaf, &self.seed, message)?;
        out.extend_from_slice(&self.height.number().to_be_bytes())?;
        let node = self.height.leaf_count() + leaf;
        path_onto(out, &self.nodes, self.height, node)
    }

    /// The height of the tree.
    pub(crate) fn height(&self) -> Height
        ensures value { result ≡ self.now.height }
        ensures key { IsKey self.now }
    {
        self.height
    }

    /// The lower key under a leaf, where this is the top key of two levels.
    pub(crate) fn key_under(&self, leaf: u32) -> Result<LmsKey, Want>
        ensures { IfOk result (λ k. k ≡ key_under self.now leaf) }
    {
        let seed = seed_under(&self.seed, leaf);
        let id = id_under(&self.seed, leaf);
        LmsKey::make(
            *self.nodes.allocator(),
            &seed,
            &id,
            self.height,
            self.ots,
            0,
        )
    }
}

// The path from a leaf, given by its node's number, behind the bytes that stand in `out` already.
fn path_onto(mut out: Vec<u8>, nodes: &[Digest], height: Height, leaf: u32) -> Result<Vec<u8>, Want>
    requires whole { length nodes.now ≡ 2 * 2 ^ levels_of height }
    requires low { 2 ^ levels_of height ≤ leaf }
    requires high { leaf < 2 * 2 ^ levels_of height }
    ensures { (t : OtsType) (id seed : List ℕ) → HoldsNodes t id seed (levels_of height) nodes.now 1
        → IfOk result (λ v. v.items ≡ out.items ++ concat (path_from t id seed (levels_of height) 0 (levels_of height) leaf)) }
{
    'levels: for level in 0..height.levels() {
        let beside = (leaf >> level) ^ 1;
        out.extend_from_slice(&nodes[beside as usize].0)?;
    }
    Ok(out)
}
