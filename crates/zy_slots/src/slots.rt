ghost use Rattle.std.specs.Prelude.{◌≡◌, ◌≢◌, ◌<◌, ◌≤◌, ◌∷◌, ◌++◌, ℕ, [], List, length, option_map, IfOk, OnErr, IfErr};
ghost use Rattle.zy_slots.specs.Rings.{first_of};
ghost use Rattle.zy_slots.specs.Cells.{Cell, Kept, ids, chain_of, with_live, with_stack, Stands, IsLive, kept, relinked, CanRelink, CanTakeLast, IsFresh};

use crate::cells::{
    BUCKETS, empty_chains, ends_of, first_in_chain, hold, live_slot, named, put_in, release,
    set_live, take_free, take_out, value_in,
};
use crate::index::Index;
use crate::link::Link;
use crate::ring::{detach, link_in, put_first};
use crate::slot::{Held, Kind, Slot};
use std::alloc::Global;
use std::marker::Model;
use zy_base::Want;

/// The name of a value from its insertion on, until it is taken out or forgotten. Then another value may get the name.
#[derive(Clone, Copy, Debug, PartialEq, Eq)]
pub struct SlotId(pub u64);

/// Values in the order of their insertion, each in one of 64 buckets, and a stack of those that were unlinked and may
/// come back. Only `insert` takes memory. Each call takes a few steps, however many values there are.
#[derive(Debug, Drop)]
pub struct Slots<T> {
    slots: Vec<Slot<T>>,
    order: Link,
    chains: [Link; BUCKETS],
    stack: Link,
    free: Link,
}

impl<T> Model for Slots<T> {
    ghost use Rattle.zy_slots.specs.Cells.{Cells};

    ghost Value = { Cells T };

    ghost use Rattle.zy_slots.specs.Shape.{cells_of, IsLinked};

    ghost view = { λ s. cells_of s.slots.items s.order s.stack };

    ghost invariant = { λ s. IsLinked s.slots.items s.order s.chains s.stack s.free };
}

impl<T> Slots<T> {
    /// No values. Takes no memory.
    pub fn new(alloc: Global) -> Slots<T>
        ensures { result ≡ record { live = []; stack = [] } }
    {
        Slots {
            slots: Vec::new(alloc),
            order: Link::none(),
            chains: empty_chains(),
            stack: Link::none(),
            free: Link::none(),
        }
    }

    /// One value more, the last in the order and in its bucket. After `Want` all is as before, and the value comes back.
    /// There may be 2^32 - 1 values, unlinked ones too.
    pub fn insert(&mut self, bucket: u8, value: T) -> Result<SlotId, (T, Want)>
    where
        T: Drop,
        requires { bucket < 64 }
        ensures ok { IfOk result (λ id. self.new ≡ with_live self.old (self.old.live ++ record { id = id.0; bucket = bucket; value = value } ∷ [])) }
        ensures fresh { IfOk result (λ id. IsFresh self.old id.0) }
        ensures err { OnErr result (self.new ≡ self.old) }
        ensures value { IfErr result (λ failed. failed.0 ≡ value) }
    {
        let place = match take_free(&mut self.slots, &mut self.free) {
            Ok(place) => place,
            Err(want) => return Err((value, want)),
        };
        let held = Held {
            value: Some(value),
            bucket,
            live: true,
        };
        hold(&mut self.slots, place, held);
        let sides = Link {
            prev: self.order.prev,
            next: Index::none(),
        };
        let chain_sides = Link {
            prev: ends_of(&self.chains, bucket as usize).prev,
            next: Index::none(),
        };
        put_in(
            &mut self.slots,
            &mut self.order,
            &mut self.chains,
            place,
            &sides,
            &chain_sides,
        );
        Ok(SlotId(place as u64))
    }

    /// Takes a live value out of the order and of its bucket, onto the stack.
    pub fn unlink(&mut self, id: SlotId)
        requires { IsLive self.old id.0 }
        ensures moved { (earlier : List (Cell T)) (cell : Cell T) (later : List (Cell T)) → Stands self.old id.0 earlier cell later → self.new ≡ record { live = earlier ++ later; stack = kept earlier cell later ∷ self.old.stack } }
        ensures ready { CanRelink self.new }
        ensures back { relinked self.new ≡ self.old }
    {
        let place = id.0 as usize;
        take_out(&mut self.slots, &mut self.order, &mut self.chains, place);
        set_live(&mut self.slots, place, false);
        put_first(&mut self.slots, &mut self.stack, place);
    }

    /// Puts the top of the stack back between the neighbours that it had, in the order and in its bucket.
    pub fn relink(&mut self)
        requires { CanRelink self.old }
        ensures { self.new ≡ relinked self.old }
    {
        let Some(place) = self.stack.next.get() else {
            unreachable!()
        };
        detach(&mut self.slots, &mut self.stack, Kind::Pile, place);
        set_live(&mut self.slots, place, true);
        let sides = link_in(&self.slots, Kind::Order, place);
        let chain_sides = link_in(&self.slots, Kind::Chain, place);
        put_in(
            &mut self.slots,
            &mut self.order,
            &mut self.chains,
            place,
            &sides,
            &chain_sides,
        );
    }

    /// Takes the last live value out for good.
    pub fn take_last(&mut self) -> T
        requires { CanTakeLast self.old }
        ensures value { (front : List (Cell T)) (last : Cell T) → self.old.live ≡ front ++ last ∷ [] → result ≡ last.value }
        ensures taken { (front : List (Cell T)) (last : Cell T) → self.old.live ≡ front ++ last ∷ [] → self.new ≡ with_live self.old front }
    {
        let Some(last) = self.order.prev.get() else {
            unreachable!()
        };
        take_out(&mut self.slots, &mut self.order, &mut self.chains, last);
        let value = release(&mut self.slots, last);
        put_first(&mut self.slots, &mut self.free, last);
        match value {
            Some(value) => value,
            None => unreachable!(),
        }
    }

    /// Takes the lowest value of the stack out for good.
    pub fn forget(&mut self) -> T
        requires { 0 < length self.old.stack }
        ensures value { (above : List (Kept T)) (lowest : Kept T) → self.old.stack ≡ above ++ lowest ∷ [] → result ≡ lowest.cell.value }
        ensures taken { (above : List (Kept T)) (lowest : Kept T) → self.old.stack ≡ above ++ lowest ∷ [] → self.new ≡ with_stack self.old above }
    {
        let Some(place) = self.stack.prev.get() else {
            unreachable!()
        };
        detach(&mut self.slots, &mut self.stack, Kind::Pile, place);
        let value = release(&mut self.slots, place);
        put_first(&mut self.slots, &mut self.free, place);
        match value {
            Some(value) => value,
            None => unreachable!(),
        }
    }

    /// The first live value.
    pub fn first(&self) -> Option<SlotId>
        ensures { option_map (λ id. id.0) result ≡ first_of (ids self.now.live) }
    {
        named(self.order.next)
    }

    /// The live value behind this one. None where this one isn't live.
    pub fn next(&self, id: SlotId) -> Option<SlotId>
        ensures live { (earlier : List (Cell T)) (cell : Cell T) (later : List (Cell T)) → Stands self.now id.0 earlier cell later → option_map (λ id. id.0) result ≡ first_of (ids later) }
        ensures none { (IsLive self.now id.0 → ⊥) → result ≡ None }
    {
        match live_slot(&self.slots, id.0) {
            Some(slot) => named(slot.order.next),
            None => None,
        }
    }

    /// The first live value of a bucket. None where there is no such bucket.
    pub fn bucket_first(&self, bucket: u8) -> Option<SlotId>
        ensures { option_map (λ id. id.0) result ≡ first_of (ids (chain_of bucket self.now.live)) }
    {
        first_in_chain(&self.chains, bucket as usize)
    }

    /// The live value behind this one in its bucket. None where this one isn't live.
    pub fn bucket_next(&self, id: SlotId) -> Option<SlotId>
        ensures live { (earlier : List (Cell T)) (cell : Cell T) (later : List (Cell T)) → Stands self.now id.0 earlier cell later → option_map (λ id. id.0) result ≡ first_of (ids (chain_of cell.bucket later)) }
        ensures none { (IsLive self.now id.0 → ⊥) → result ≡ None }
    {
        match live_slot(&self.slots, id.0) {
            Some(slot) => named(slot.chain.next),
            None => None,
        }
    }

    /// A live value.
    pub fn value(&self, id: SlotId) -> &T
        requires { IsLive self.now id.0 }
        ensures { (earlier : List (Cell T)) (cell : Cell T) (later : List (Cell T)) → Stands self.now id.0 earlier cell later → result.now ≡ cell.value }
    {
        value_in(&self.slots, id.0 as usize)
    }
}
