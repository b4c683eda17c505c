ghost use Rattle.std.specs.Prelude.{◌≡◌, ◌+◌, ◌<◌, ◌≤◌, ◌^◌, ℕ, [], length, take, drop, option_copied, OnOk, OnErr, IfErr, IfSome, IfNone};
ghost use Rattle.zy_chain.specs.Entries.{IsEntryInRange};
ghost use Rattle.zy_chain.specs.Heads.{head_from};
ghost use Rattle.zy_chain.specs.Stretch.{end_of, head_in, entry_in, with_entry, up_to, from_place, IsShared, IsLastShared};

use crate::{Entry, entry_digest, next_head};
use std::alloc::Global;
use std::collections::VecDeque;
use std::marker::Model;
use zy_base::{Digest, Place, Want};

/// A stretch of a history: a base place with its head, and the entries above it with the head after each. Contracts
/// see the base and the entries.
#[derive(Debug, Drop)]
pub struct Spine {
    base: Place,
    base_head: Digest,
    entries: VecDeque<Entry>,
    heads: VecDeque<Digest>,
}

impl Model for Spine {
    ghost use Rattle.zy_chain.specs.Stretch.{Stretch, IsStretch};

    ghost Value = { Stretch };

    ghost view = { λ s. record { base = record { place = s.base.0; head = s.base_head }; entries = s.entries.items } };

    ghost invariant = { λ s. IsStretch s.base.0 s.base_head s.entries.items s.heads.items };
}

impl Spine {
    /// A stretch without entries. Takes no memory.
    pub fn new(alloc: Global, base: Place, head: Digest) -> Spine
        requires { base.0 < 2 ^ 62 }
        ensures { result ≡ record { base = record { place = base.0; head = head }; entries = [] } }
    {
        Spine {
            base,
            base_head: head,
            entries: VecDeque::new(alloc),
            heads: VecDeque::new(alloc),
        }
    }

    /// The place that the stretch stands on.
    pub fn base(&self) -> Place
        ensures { result.0 ≡ self.now.base.place }
    {
        self.base
    }

    /// The place of the last entry, or the base.
    pub fn end(&self) -> Place
        ensures place { result.0 ≡ end_of self.now }
        ensures fits { end_of self.now ≤ 2 ^ 63 }
    {
        Place(self.base.0 + self.entries.len() as u64)
    }

    /// The head at a place. `None` exactly outside base to end.
    pub fn head_at(&self, place: Place) -> Option<Digest>
        ensures { result ≡ head_in self.now place.0 }
    {
        if place.0 < self.base.0 || place.0 > self.end().0 {
            return None;
        }
        Some(self.head_after((place.0 - self.base.0) as usize))
    }

    // The head after so many of the entries.
    fn head_after(&self, count: usize) -> Digest
        requires { count ≤ length self.now.entries }
        ensures { result ≡ head_from self.now.base.head (take count self.now.entries) }
    {
        if count == 0 {
            self.base_head
        } else {
            self.heads[count - 1]
        }
    }

    /// The entry that leads to a place. `None` exactly outside base + 1 to end.
    pub fn entry_at(&self, place: Place) -> Option<&Entry>
        ensures entry { option_copied result ≡ entry_in self.now place.0 }
        ensures in_range { IfSome result (λ e. IsEntryInRange e.now) }
    {
        if place.0 <= self.base.0 {
            return None;
        }
        self.entries.get((place.0 - self.base.0 - 1) as usize)
    }

    /// The head at the end.
    pub fn head(&self) -> Digest
        ensures { result ≡ head_from self.now.base.head self.now.entries }
    {
        self.head_after(self.entries.len())
    }

    /// One entry more. The answer is `Err` for want of memory alone: then the entry comes back, and the stretch is as
    /// it was.
    pub fn push(&mut self, e: Entry) -> Result<(), (Entry, Want)>
        requires room { end_of self.old < 2 ^ 63 }
        requires entry { IsEntryInRange e }
        ensures ok { OnOk result (self.new ≡ with_entry self.old e) }
        ensures err { OnErr result (self.new ≡ self.old) }
        ensures entry { IfErr result (λ refused. refused.0 ≡ e) }
    {
        if let Err(_) = self.heads.reserve(1) {
            return Err((e, Want));
        }
        if let Err(_) = self.entries.reserve(1) {
            return Err((e, Want));
        }
        let head = next_head(&self.head(), &entry_digest(&e));
        self.heads.push_back_reserved(head);
        self.entries.push_back_reserved(e);
        Ok(())
    }

    /// Takes the last entry out again. `None` exactly where there is none. Takes no memory.
    pub fn pop(&mut self) -> Option<Entry>
        ensures some { IfSome result (λ e. self.old ≡ with_entry self.new e) }
        ensures in_range { IfSome result IsEntryInRange }
        ensures none { IfNone result (self.old.entries ≡ []) }
        ensures same { IfNone result (self.new ≡ self.old) }
    {
        self.heads.pop_back();
        self.entries.pop_back()
    }

    /// Drops the entries above a place. Takes no memory.
    pub fn cut_above(&mut self, place: Place)
        requires above { self.old.base.place ≤ place.0 }
        requires below { place.0 ≤ end_of self.old }
        ensures { self.new ≡ up_to place.0 self.old }
    {
        let kept = (place.0 - self.base.0) as usize;
        self.entries.truncate(kept);
        self.heads.truncate(kept);
    }

    /// Drops the entries up to a place, on which the stretch then stands. Takes no memory.
    pub fn cut_below(&mut self, place: Place)
        requires above { self.old.base.place ≤ place.0 }
        requires below { place.0 ≤ end_of self.old }
        ensures { self.new ≡ from_place place.0 self.old }
    {
        let dropped = (place.0 - self.base.0) as usize;
        self.base_head = self.head_after(dropped);
        self.base = place;
        drop_front(&mut self.entries, dropped);
        drop_front(&mut self.heads, dropped);
    }

    /// The greatest place at which both have one head. `None` exactly where there is none. Takes no memory.
    pub fn common(&self, other: &Spine) -> Option<Place>
        ensures found { IfSome result (λ place. IsLastShared self.now other.now place.0) }
        ensures none { IfNone result ((place : ℕ) → IsShared self.now other.now place → ⊥) }
    {
        let low = self.base.0.max(other.base.0);
        let high = self.end().0.min(other.end().0);
        for place in (low..high + 1).rev() {
            if self.head_at(Place(place)) == other.head_at(Place(place)) {
                return Some(Place(place));
            }
        }
        None
    }
}

fn drop_front<T: Drop>(queue: &mut VecDeque<T>, count: usize)
    ensures { queue.new.items ≡ drop count queue.old.items }
{
    for _ in 0..count {
        queue.pop_front();
    }
}
