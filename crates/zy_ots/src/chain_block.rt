// The 55 bytes that each step of a hash chain hashes, rewritten in place from step to step.

ghost use Rattle.std.specs.Prelude.{◌≡◌, ◌-◌, ◌≤◌, ◌++◌, ◌∷◌, [], length};
ghost use Rattle.std.specs.Int.{w16, w32, to_be_bytes};
ghost use Rattle.sha2.specs.Sha256.{sha256};
ghost use Rattle.zy_ots.specs.Chain.{chain};

use sha2::{Digest as _, Sha256};
use std::marker::Model;

const INDEX: usize = 20;

const STEP: usize = 22;

const VALUE: usize = 23;

// What stands in a step's place where a private value is made (RFC 8554, appendix A).
const PRIVATE: u8 = 0xff;

// I, the leaf's number, the chain's number, the step's number and the chain's value.
#[derive(Drop)]
pub(crate) struct ChainBlock {
    bytes: [u8; 55],
}

impl Model for ChainBlock {
    ghost use Rattle.std.specs.Prelude.{take, drop};
    ghost use Rattle.zy_ots.specs.Link.{Link};

    ghost Value = { Link };

    ghost view = { λ b. record { key = take 20 b.bytes; index = take 2 (drop 20 b.bytes); value = drop 23 b.bytes } };
}

impl ChainBlock {
    // A block for the chains of the key with identifier `id` at leaf `q`.
    pub(crate) fn new(id: &[u8; 16], q: u32) -> ChainBlock
        ensures { result.key ≡ id.now ++ to_be_bytes w32 q }
    {
        let mut bytes = [0u8; 55];
        bytes[..16].copy_from_slice(id);
        bytes[16..INDEX].copy_from_slice(&q.to_be_bytes());
        ChainBlock { bytes }
    }

    // Turns to chain `index`, at this value.
    pub(crate) fn load(&mut self, index: u16, value: &[u8])
        requires { length value.now ≡ 32 }
        ensures { self.new ≡ record self.old { index = to_be_bytes w16 index; value = value.now } }
    {
        self.bytes[INDEX..STEP].copy_from_slice(&index.to_be_bytes());
        self.bytes[VALUE..].copy_from_slice(value);
    }

    // Turns to chain `index`, at the private value that `seed` gives it.
    pub(crate) fn begin(&mut self, index: u16, seed: &[u8; 32])
        ensures { self.new ≡ record self.old { index = to_be_bytes w16 index; value = sha256 (self.old.key ++ to_be_bytes w16 index ++ 0xff ∷ [] ++ seed.now) } }
    {
        self.load(index, seed);
        self.step(PRIVATE);
    }

    // Takes the step with this number.
    pub(crate) fn step(&mut self, number: u8)
        ensures { self.new ≡ record self.old { value = sha256 (self.old.key ++ self.old.index ++ number ∷ [] ++ self.old.value) } }
    {
        self.bytes[STEP] = number;
        let digest = Sha256::digest(&self.bytes);
        self.bytes[VALUE..].copy_from_slice(&digest);
    }

    // Takes the steps from one place of the chain to another.
    pub(crate) fn walk(&mut self, from: u8, to: u8)
        requires { from ≤ to }
        ensures { self.new ≡ record self.old { value = chain (self.old.key ++ self.old.index) from (to - from) self.old.value } }
    {
        'steps: for j in from..to {
            self.step(j);
        }
    }

    pub(crate) fn value(&self) -> &[u8]
        ensures { result.now ≡ self.now.value }
    {
        &self.bytes[VALUE..]
    }
}
