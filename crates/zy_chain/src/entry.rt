ghost use Rattle.std.specs.Prelude.{◌≡◌, ◌≤◌, IfOk, length};
ghost use Rattle.zy_chain.specs.Entries.{IsEntryInRange, bytes_of_entry, digest_of_entry, digest_of_request};
ghost use Rattle.zy_chain.specs.Heads.{head_after};

use sha2::{Digest as Hasher, Sha256};
use std::alloc::Global;
use zy_base::{Bytes, ClientId, Digest, Stamp, Want};

/// One operation of a history: whose it is, its stamp among that client's, below 2^62, and its bytes, at most 1,100.
#[derive(Clone, Debug, Drop, PartialEq, Eq)]
pub struct Entry {
    pub client: ClientId,
    pub stamp: Stamp,
    pub op: Bytes,
}

/// The head of the empty history.
pub const EMPTY_HEAD: Digest = Digest([0; 32]);

/// The one spelling of an entry: the client in four bytes, the stamp in eight, and the operation behind its length
/// in two, each number high byte first.
#[tactic(auto, unfolding(crate::specs::Entries::bytes_of_request))]
pub fn entry_bytes(alloc: Global, e: &Entry) -> Result<Bytes, Want>
    requires { IsEntryInRange e.now }
    ensures { IfOk result (λ b. b ≡ bytes_of_entry e.now) }
{
    let op = e.op.as_slice();
    let mut bytes = Vec::with_capacity(alloc, 14 + op.len())?;
    bytes.extend_from_slice(&e.client.0.to_be_bytes())?;
    bytes.extend_from_slice(&e.stamp.0.to_be_bytes())?;
    bytes.extend_from_slice(&(op.len() as u16).to_be_bytes())?;
    bytes.extend_from_slice(op)?;
    Ok(Bytes::from(bytes))
}

/// SHA-256 (FIPS 180-4) of the entry's bytes. Takes no memory.
pub fn entry_digest(e: &Entry) -> Digest
    requires { IsEntryInRange e.now }
    ensures { result ≡ digest_of_entry e.now }
{
    request_digest(e.client, e.stamp, e.op.as_slice())
}

/// The digest of the entry that a client's request stands for, at most 1,100 bytes of operation. Takes no memory.
pub fn request_digest(client: ClientId, stamp: Stamp, op: &[u8]) -> Digest
    requires { length op.now ≤ 1100 }
    ensures { result ≡ digest_of_request client stamp op.now }
{
    let mut hasher = Sha256::new();
    hasher.update(&client.0.to_be_bytes());
    hasher.update(&stamp.0.to_be_bytes());
    hasher.update(&(op.len() as u16).to_be_bytes());
    hasher.update(op);
    Digest(hasher.finalize())
}

/// SHA-256 of a head followed by the digest of the next entry: the head with that entry. Takes no memory.
#[tactic(auto, unfolding(crate::specs::Heads::head_after))]
pub fn next_head(h: &Digest, d: &Digest) -> Digest
    ensures { result ≡ head_after h.now d.now }
{
    let mut hasher = Sha256::new();
    hasher.update(&h.0);
    hasher.update(&d.0);
    Digest(hasher.finalize())
}
