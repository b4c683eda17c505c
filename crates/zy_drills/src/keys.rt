//! The key by which every party signs, and signed statements, spelled byte by byte, without the code that
//! reads and writes them elsewhere.

ghost use Rattle.std.specs.Prelude.{◌≡◌, ◌≤◌, ◌<◌, length, IfOk};

use crate::words::{Names, labelled, lacking, not_a_line, number_of, party, value, word_of};
use sha2::{Digest, Sha256};
use std::alloc::Global;
use std::io;
use zy_base::Party;
use zy_lms::{Height, HssKey};
use zy_ots::{OtsType, ots_sign_onto};
use zy_seal::{Directory, Sealer, party_id, party_seed};

/// The kinds of statements, whose numbers begin with 1.
const STATEMENTS: [&str; 12] = [
    "ask", "order", "spec", "local", "confirm", "hole", "hate", "check", "change", "new", "began",
    "fetch",
];

/// Whose key it is in a group whose seed is zero, the leaf of its first lower key that signs, the public key, what stands before the
/// lower signature, and the leaf's path.
#[derive(Drop)]
pub(crate) struct Key {
    owner: Party,
    leaf: u32,
    public: [u8; 60],
    signed: Vec<u8>,
    path: Vec<u8>,
}

/// Reads the words of a `key`.
pub(crate) fn read_key(alloc: Global, names: &Names, words: &str) -> io::Result<Key> {
    let (owner, rest) = word_of(words)?;
    let (leaf, rest) = word_of(rest)?;
    let (public, rest) = word_of(rest)?;
    let (signed, path) = word_of(rest)?;
    let owner = party(owner)?;
    let leaf = leaf_of(leaf)?;
    let public = public_key(alloc, names, public)?;
    Ok(Key {
        owner,
        leaf,
        public,
        signed: value(alloc, names, signed)?,
        path: value(alloc, names, path)?,
    })
}

fn public_key(alloc: Global, names: &Names, word: &str) -> io::Result<[u8; 60]> {
    let bytes = value(alloc, names, word)?;
    <[u8; 60]>::try_from(bytes.as_slice()).map_err(|_| not_a_line())
}

/// The number of a signature, counted by lower leaves, or how many there are where none is left.
pub(crate) fn leaf_of(word: &str) -> io::Result<u32>
    ensures { IfOk result (λ leaf. leaf ≤ 1024) }
{
    let leaf = labelled(word, "leaf")?;
    if leaf > 1024 {
        return Err(not_a_line());
    }
    Ok(leaf as u32)
}

impl Key {
    /// What signs for this party, next with this number.
    pub(crate) fn sealer(&self, alloc: Global, me: Party, leaf: u32) -> io::Result<Sealer>
        requires { leaf ≤ 1024 }
        ensures { IfOk result (λ s. s.me ≡ me) }
    {
        let seed = party_seed(&[0; 32], self.owner);
        let id = party_id(&[0; 32], self.owner);
        match HssKey::make(alloc, &seed, &id, Height::H5, OtsType::W4, leaf) {
            Ok(key) => Ok(Sealer::new(alloc, me, key)),
            Err(want) => Err(lacking(want)),
        }
    }

    /// The public keys of four replicas and two clients.
    pub(crate) fn directory(&self, alloc: Global) -> io::Result<Directory>
        ensures replicas { IfOk result (λ d. length d.replicas ≤ 4) }
        ensures clients { IfOk result (λ d. length d.clients ≤ 64) }
    {
        let public = self.public;
        let clients = vec![in alloc; public, public]?;
        let replicas = vec![in alloc; public, public, public, public]?;
        Ok(Directory::new(alloc, replicas, clients))
    }

    fn signature(&self, alloc: Global, text: &[u8]) -> io::Result<Vec<u8>> {
        let mut signature = Vec::new(alloc);
        signature.extend_from_slice(&self.signed)?;
        signature.extend_from_slice(&self.leaf.to_be_bytes())?;
        let top = party_seed(&[0; 32], self.owner);
        let seed = first_lower(3, &top);
        let mut id = [0; 16];
        id.copy_from_slice(&first_lower(4, &top)[..16]);
        match ots_sign_onto(signature, OtsType::W4, &id, self.leaf, &seed, text) {
            Ok(signature) => joined(signature, &self.path),
            Err(want) => Err(lacking(want)),
        }
    }
}

/// What the first lower key is made from: SHA-256 of a byte, the top key's seed and the top leaf 0.
fn first_lower(purpose: u8, seed: &[u8; 32]) -> [u8; 32] {
    let mut hasher = Sha256::new();
    hasher.update(&[purpose]);
    hasher.update(seed);
    hasher.update(&[0; 4]);
    hasher.finalize()
}

fn joined(mut bytes: Vec<u8>, more: &[u8]) -> io::Result<Vec<u8>> {
    bytes.extend_from_slice(more)?;
    Ok(bytes)
}

/// A party in five bytes: 0 for a replica or 1 for a client, and its number.
fn party_bytes(party: Party) -> [u8; 5] {
    let (kind, id) = match party {
        Party::Replica(id) => (0, u32::from(id.0)),
        Party::Client(id) => (1, id.0),
    };
    let [a, b, c, d] = id.to_be_bytes();
    [kind, a, b, c, d]
}

/// The text of a statement: two letters, the version, the statement's number, its signer and its fields.
fn signed_text(alloc: Global, signer: Party, number: u8, fields: &[u8]) -> io::Result<Vec<u8>> {
    let mut text = Vec::new(alloc);
    text.extend_from_slice(b"ZY")?;
    text.push(1)?;
    text.push(number)?;
    text.extend_from_slice(&party_bytes(signer))?;
    text.extend_from_slice(fields)?;
    Ok(text)
}

/// Reads the words of a `say` behind its name: the bytes of a signed statement.
pub(crate) fn said(alloc: Global, names: &Names, key: &Key, words: &str) -> io::Result<Vec<u8>> {
    let (by, rest) = word_of(words)?;
    let (kind, rest) = word_of(rest)?;
    let by = party(by)?;
    let number = number_of(&STATEMENTS, kind)?;
    let (fields, signer) = match rest.split_once('\t') {
        Some((fields, signer)) => (fields, other_signer(signer)?),
        None => (rest, by),
    };
    let fields = value(alloc, names, fields)?;
    signed(alloc, key, (by, signer), number, &fields)
}

/// The party behind `as`.
fn other_signer(words: &str) -> io::Result<Party> {
    match words.strip_prefix("as ") {
        Some(word) => party(word),
        None => Err(not_a_line()),
    }
}

/// The signer, the fields, and the signature behind its length.
fn signed(
    alloc: Global,
    key: &Key,
    (by, signer): (Party, Party),
    number: u8,
    fields: &[u8],
) -> io::Result<Vec<u8>> {
    let signature = signature_on(alloc, key, signer, number, fields)?;
    let mut bytes = Vec::new(alloc);
    bytes.extend_from_slice(&party_bytes(by))?;
    bytes.extend_from_slice(fields)?;
    bytes.extend_from_slice(&(signature.len() as u64).to_be_bytes()[6..])?;
    bytes.extend_from_slice(&signature)?;
    Ok(bytes)
}

fn signature_on(
    alloc: Global,
    key: &Key,
    signer: Party,
    number: u8,
    fields: &[u8],
) -> io::Result<Vec<u8>> {
    let text = signed_text(alloc, signer, number, fields)?;
    key.signature(alloc, &text)
}
