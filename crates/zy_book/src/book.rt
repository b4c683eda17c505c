ghost use Rattle.std.specs.Prelude.{◌≡◌, ◌≢◌, ℕ, List, [], ◌∷◌, ◌++◌, None, Some, Err, option_copied, IfErr, IsOk, OnOk, OnErr};
ghost use Rattle.indexmap.specs.IndexMap.{get};
ghost use Rattle.zy_book.specs.Texts.{text_under, with_text};
ghost use Rattle.zy_book.specs.declared.fault.KeepFault.TheVariants.{Clash, Want as NoRoom};

use crate::KeepFault;
use crate::joined::{bytes_joined, is_joined};
use indexmap::IndexMap;
use std::alloc::Global;
use std::hash::Hash;
use std::marker::Model;
use zy_base::{Bytes, Digest, Want};

/// Texts, one under each digest. Contracts see them in the order in which they came. A text is found by its digest's hash, however many
/// there are.
#[derive(Drop)]
pub struct Book {
    alloc: Global,
    texts: IndexMap<Digest, Bytes>,
}

impl Model for Book {
    ghost use Rattle.zy_book.specs.Texts.{Texts};

    ghost Value = { Texts };

    ghost view = { λ b. b.texts.entries };
}

impl Book {
    /// No text. Takes no memory.
    pub fn new(alloc: Global) -> Book
        ensures { result ≡ [] }
    {
        Book {
            alloc,
            texts: IndexMap::new(alloc),
        }
    }

    /// The text under a digest.
    pub fn text(&self, digest: &Digest) -> Option<&[u8]>
        ensures { option_copied result ≡ text_under self.now digest.now }
    {
        match self.texts.get(digest) {
            Some(text) => Some(text.as_slice()),
            None => None,
        }
    }

    /// Keeps the text of two pieces in a row under the digest that the caller gives. `Clash` comes exactly where another text is kept
    /// there, and `Want` only where none is: a text that is kept already takes no memory.
    pub fn keep(&mut self, digest: Digest, front: &[u8], rest: &[u8]) -> Result<(), KeepFault>
        ensures known { text_under self.old digest ≡ Some (front.now ++ rest.now) → IsOk result }
        ensures clash { (kept : List ℕ) → text_under self.old digest ≡ Some kept → kept ≢ front.now ++ rest.now → result ≡ Err Clash }
        ensures fresh { text_under self.old digest ≡ None → IfErr result (λ fault. fault ≡ NoRoom) }
        ensures texts { OnOk result (self.new ≡ with_text self.old digest (front.now ++ rest.now)) }
        ensures err { OnErr result (self.new ≡ self.old) }
    {
        match self.texts.get(&digest) {
            Some(kept) => {
                if is_joined(kept.as_slice(), front, rest) {
                    Ok(())
                } else {
                    Err(KeepFault::Clash)
                }
            }
            None => {
                let text = bytes_joined(self.alloc, front, rest)?;
                put(&mut self.texts, digest, text)?;
                Ok(())
            }
        }
    }
}

// One pair more, whose key is new.
fn put<K: Hash + Eq + Drop, V: Drop>(map: &mut IndexMap<K, V>, key: K, value: V) -> Result<(), Want>
    requires { get K.eq map.old key ≡ None }
    ensures ok { OnOk result (map.new.entries ≡ map.old.entries ++ (key, value) ∷ []) }
    ensures err { OnErr result (map.new.entries ≡ map.old.entries) }
{
    map.insert(key, value)?;
    Ok(())
}
