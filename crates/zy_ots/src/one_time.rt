// LM-OTS keys and signatures (RFC 8554, sections 4.2 to 4.6).

ghost use Rattle.std.specs.Prelude.{◌≡◌, ◌↔◌, ◌++◌, IfOk, IsSome, IfSome, length, ◌≤◌};
ghost use Rattle.std.specs.Int.{w16};
ghost use Rattle.sha2.specs.Hashers.{Holds256};
ghost use Rattle.zy_ots.specs.Chain.{prefix_of};
ghost use Rattle.zy_ots.specs.OneTime.{public_of, signature_of, candidate_of, HasForm, Verifies, message_digest};

use crate::chain_block::ChainBlock;
use crate::digits::{coef, u32_at, with_checksum};
use crate::ots_type::OtsType;
use sha2::{Digest as _, Sha256};
use std::alloc::Global;
use zy_base::{Bytes, Digest, Want};

const PUBLIC: u16 = 0x8080;

const MESSAGE: u16 = 0x8181;

const RANDOMIZER: u16 = 0xfffd;

/// A hasher that has taken what each hash of a key begins with: the identifier, the number of a leaf
/// or a node, and what is hashed.
pub fn prefix_hasher(id: &[u8; 16], number: u32, what: u16) -> Sha256
    ensures { Holds256 result (prefix_of id.now number what) }
{
    let mut hasher = Sha256::new();
    hasher.update(id);
    hasher.update(&number.to_be_bytes());
    hasher.update(&what.to_be_bytes());
    hasher
}

fn message_digest(id: &[u8; 16], q: u32, randomizer: &[u8], message: &[u8]) -> Digest
    ensures { result.0 ≡ message_digest id.now q randomizer.now message.now }
{
    let mut hasher = prefix_hasher(id, q, MESSAGE);
    hasher.update(randomizer);
    hasher.update(message);
    Digest(hasher.finalize())
}

/// The public value K of the key with identifier `id` at leaf `q`, whose private values are made
/// from `seed`.
pub fn ots_public(ots: OtsType, id: &[u8; 16], q: u32, seed: &[u8; 32]) -> Digest
    ensures { result.0 ≡ public_of ots id.now q seed.now }
{
    let mut block = ChainBlock::new(id, q);
    let mut hasher = prefix_hasher(id, q, PUBLIC);
    'chains: for i in 0..ots.chain_count() {
        block.begin(i, seed);
        block.walk(0, ots.last_place());
        hasher.update(block.value());
    }
    Digest(hasher.finalize())
}

/// The signature of `message` by the key with identifier `id` at leaf `q`, whose private values
/// are made from `seed`. One key must not sign two messages.
pub fn ots_sign(
    alloc: Global,
    ots: OtsType,
    id: &[u8; 16],
    q: u32,
    seed: &[u8; 32],
    message: &[u8],
) -> Result<Bytes, Want>
    ensures value { IfOk result (λ s. s ≡ signature_of ots id.now q seed.now message.now) }
    ensures verifies { IfOk result (λ s. Verifies ots id.now q message.now s (public_of ots id.now q seed.now)) }
{
    let signature = Vec::with_capacity(alloc, ots.signature_len())?;
    Ok(ots_sign_onto(signature, ots, id, q, seed, message)?.into())
}

/// What `ots_sign` gives, behind the bytes that stand in `out` already.
pub fn ots_sign_onto(
    mut out: Vec<u8>,
    ots: OtsType,
    id: &[u8; 16],
    q: u32,
    seed: &[u8; 32],
    message: &[u8],
) -> Result<Vec<u8>, Want>
    ensures { IfOk result (λ v. v.items ≡ out.items ++ signature_of ots id.now q seed.now message.now) }
{
    let mut block = ChainBlock::new(id, q);
    block.begin(RANDOMIZER, seed);
    let digest = message_digest(id, q, block.value(), message);
    let places = with_checksum(ots, &digest);
    out.extend_from_slice(&ots.number().to_be_bytes())?;
    out.extend_from_slice(block.value())?;
    'chains: for i in 0..ots.chain_count() {
        block.begin(i, seed);
        block.walk(0, coef(&places, i as usize, ots));
        out.extend_from_slice(block.value())?;
    }
    Ok(out)
}

/// The public value that `message` and its signature lead to. The signature is good exactly where
/// this is the key's public value.
pub fn ots_recover(
    ots: OtsType,
    id: &[u8; 16],
    q: u32,
    message: &[u8],
    sig: &[u8],
) -> Option<Digest>
    ensures form { IsSome result ↔ HasForm ots sig.now }
    ensures value { IfSome result (λ k. k.0 ≡ candidate_of ots id.now q message.now sig.now) }
{
    if sig.len() != ots.signature_len() || u32_at(sig, 0) != ots.number() {
        return None;
    }
    let digest = message_digest(id, q, &sig[4..36], message);
    let places = with_checksum(ots, &digest);
    let mut block = ChainBlock::new(id, q);
    let mut hasher = prefix_hasher(id, q, PUBLIC);
    'chains: for i in 0..ots.chain_count() {
        let at = 36 + 32 * i as usize;
        block.load(i, &sig[at..at + 32]);
        block.walk(coef(&places, i as usize, ots), ots.last_place());
        hasher.update(block.value());
    }
    Some(Digest(hasher.finalize()))
}
