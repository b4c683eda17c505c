//! What a process needn't check again: signatures that verify, each with its key and its text.

ghost use Rattle.std.specs.Prelude.{◌≡◌, IsTrue, true};
ghost use Rattle.std.proofs.Props.{props};
ghost use Rattle.zy_lms.specs.Hss.{hss_verified};

use crate::signature_number;
use indexmap::IndexMap;
use std::alloc::Global;
use std::mem;
use zy_base::{Bytes, Want};

// So many bytes are kept in each of two parts. When the younger is full, the older is let go, and the younger takes its place.
const MOST_BYTES: usize = 4 << 20;

// What a signature costs beside its text and its own bytes, at most.
const BESIDE: usize = 256;

/// A signature of a text that verifies under a key.
#[derive(Drop)]
pub(crate) struct Checked {
    key: [u8; 60],
    text: Bytes,
    sig: Bytes,
    ghost verifies: { hss_verified key text sig ≡ true } by { Prim.hlevel props },
}

impl Checked {
    pub(crate) fn new(
        alloc: Global,
        key: &[u8; 60],
        text: &[u8],
        sig: &[u8],
    ) -> Result<Checked, Want>
        requires { IsTrue (hss_verified key.now text.now sig.now) }
    {
        Ok(Checked {
            key: *key,
            text: Bytes::from_slice(alloc, text)?,
            sig: Bytes::from_slice(alloc, sig)?,
        })
    }

    /// Whether it is the signature of this text under this key. All is compared, byte by byte.
    pub(crate) fn is_of(&self, key: &[u8; 60], text: &[u8], sig: &[u8]) -> bool
        ensures { IsTrue result → IsTrue (hss_verified key.now text.now sig.now) }
    {
        self.sig.as_slice() == sig && self.text.as_slice() == text && self.key == *key
    }

    fn slot(&self) -> Slot {
        Slot::of(&self.key, self.sig.as_slice())
    }

    fn size(&self) -> usize {
        BESIDE
            .saturating_add(self.text.len())
            .saturating_add(self.sig.len())
    }
}

// Where a signature is looked for: at the identifier of its top key and the number that it tells, by which an honest key signs one text alone.
#[derive(Clone, Copy, PartialEq, Eq, Hash)]
struct Slot {
    id: [u8; 16],
    number: Option<u32>,
}

impl Slot {
    fn of(key: &[u8; 60], sig: &[u8]) -> Slot {
        let mut id = [0; 16];
        id.copy_from_slice(&key[12..28]);
        Slot {
            id,
            number: signature_number(sig),
        }
    }
}

/// The signatures that a process checked or made, the last ones first to stay.
#[derive(Drop)]
pub(crate) struct Store {
    alloc: Global,
    young: IndexMap<Slot, Checked>,
    old: IndexMap<Slot, Checked>,
    // Of the younger part, at least what it keeps.
    size: usize,
}

impl Store {
    /// Nothing. Takes no memory.
    pub(crate) fn new(alloc: Global) -> Store {
        Store {
            alloc,
            young: IndexMap::new(alloc),
            old: IndexMap::new(alloc),
            size: 0,
        }
    }

    pub(crate) fn has(&self, key: &[u8; 60], text: &[u8], sig: &[u8]) -> bool
        ensures { IsTrue result → IsTrue (hss_verified key.now text.now sig.now) }
    {
        let slot = Slot::of(key, sig);
        has_at(&self.young, &slot, key, text, sig) || has_at(&self.old, &slot, key, text, sig)
    }

    /// Where there is no memory for it, it isn't kept.
    pub(crate) fn keep(&mut self, checked: Checked) {
        let size = checked.size();
        if size > MOST_BYTES {
            return;
        }
        if self.size.saturating_add(size) > MOST_BYTES {
            self.old = mem::replace(&mut self.young, IndexMap::new(self.alloc));
            self.size = 0;
        }
        if self.young.insert(checked.slot(), checked).is_ok() {
            self.size = self.size.saturating_add(size);
        }
    }
}

fn has_at(
    part: &IndexMap<Slot, Checked>,
    slot: &Slot,
    key: &[u8; 60],
    text: &[u8],
    sig: &[u8],
) -> bool
    ensures { IsTrue result → IsTrue (hss_verified key.now text.now sig.now) }
{
    match part.get(slot) {
        Some(checked) => checked.is_of(key, text, sig),
        None => false,
    }
}
