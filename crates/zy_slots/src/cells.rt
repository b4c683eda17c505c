//! What slots hold, and the two orders in which live slots stand.
ghost use Rattle.std.specs.Prelude.{◌≡◌, ℕ, ◌<◌, ◌≤◌, ◌++◌, ◌∷◌, [], ◌≢◌, true, false, length, replicate, option_map, IfSome, IfNone, IsSome, Some, IfOk, OnErr};
ghost use Rattle.zy_slots.specs.declared.slot.Kind.TheVariants.{Order, Chain};
ghost use Rattle.zy_slots.specs.Columns.{linked, slot_at, ends_at, no_link, AreWithin, StaysBeside, StaysInPiles, IsHeldNow, IsDetached, IsAttached, IsTaken};

use crate::index::Index;
use crate::link::Link;
use crate::ring::{attach, detach};
use crate::slot::{Held, Kind, Slot};
use crate::slots::SlotId;
use zy_base::Want;

/// How many buckets there are.
pub const BUCKETS: usize = 64;

// How many slots there may be: a place takes four bytes.
const SLOT_LIMIT: usize = 4_294_967_295;

/// A slot in no ring: the first free one, or one more at the end. The answer is `Err` for want of memory alone.
pub fn take_free<T: Drop>(slots: &mut Vec<Slot<T>>, free: &mut Link) -> Result<usize, Want>
    requires first { IfSome free.old.next (λ place. place < length slots.old.items) }
    requires link { IfSome free.old.next (λ place. AreWithin (length slots.old.items) (slot_at slots.old.items place).pile) }
    ensures ok { IfOk result (IsTaken slots.old.items slots.new.items free.old free.new) }
    ensures slots { OnErr result (slots.new.items ≡ slots.old.items) }
    ensures free { OnErr result (free.new ≡ free.old) }
{
    match free.next.get() {
        Some(place) => {
            detach(slots, free, Kind::Pile, place);
            Ok(place)
        }
        None => {
            let place = slots.len();
            if place >= SLOT_LIMIT {
                return Err(Want);
            }
            slots.push(Slot::empty())?;
            Ok(place)
        }
    }
}

/// Fills a slot.
pub fn hold<T: Drop>(slots: &mut Vec<Slot<T>>, place: usize, held: Held<T>)
    requires { place < length slots.old.items }
    ensures { IsHeldNow slots.old.items slots.new.items place held }
{
    let slot = &mut slots[place];
    slot.held = held;
}

/// Says whether what a slot holds is live.
pub fn set_live<T>(slots: &mut Vec<Slot<T>>, place: usize, live: bool)
    requires { place < length slots.old.items }
    ensures { IsHeldNow slots.old.items slots.new.items place (record (slot_at slots.old.items place).held { live = live }) }
{
    let slot = &mut slots[place];
    slot.held.live = live;
}

/// Empties a slot.
pub fn release<T>(slots: &mut Vec<Slot<T>>, place: usize) -> Option<T>
    requires { place < length slots.old.items }
    ensures value { result ≡ (slot_at slots.old.items place).held.value }
    ensures now { IsHeldNow slots.old.items slots.new.items place (record (slot_at slots.old.items place).held { value = None; live = false }) }
{
    let slot = &mut slots[place];
    slot.held.live = false;
    slot.held.value.take()
}

// The bucket of what a slot holds.
fn bucket_at<T>(slots: &Vec<Slot<T>>, place: usize) -> usize
    requires { place < length slots.now.items }
    ensures { result ≡ (slot_at slots.now.items place).held.bucket }
{
    slots[place].held.bucket as usize
}

// Takes a slot out of a chain.
fn detach_chain<T>(
    slots: &mut Vec<Slot<T>>,
    chains: &mut [Link; BUCKETS],
    bucket: usize,
    place: usize,
)
    requires bucket { bucket < 64 }
    requires place { place < length slots.old.items }
    requires link { AreWithin (length slots.old.items) (slot_at slots.old.items place).chain }
    ensures links { IsDetached (linked Chain slots.old.items (ends_at chains.old bucket)) (linked Chain slots.new.items (ends_at chains.new bucket)) place }
    ensures chains { (other : ℕ) → other ≢ bucket → ends_at chains.new other ≡ ends_at chains.old other }
    ensures rest { StaysBeside Chain slots.old.items slots.new.items }
{
    let mut ends = chains[bucket];
    detach(slots, &mut ends, Kind::Chain, place);
    chains[bucket] = ends;
}

// Puts a slot between two neighbours in a chain.
fn attach_chain<T>(
    slots: &mut Vec<Slot<T>>,
    chains: &mut [Link; BUCKETS],
    bucket: usize,
    place: usize,
    sides: &Link,
)
    requires bucket { bucket < 64 }
    requires place { place < length slots.old.items }
    requires fits { length slots.old.items ≤ 4294967295 }
    requires link { AreWithin (length slots.old.items) sides.now }
    ensures links { IsAttached (linked Chain slots.old.items (ends_at chains.old bucket)) (linked Chain slots.new.items (ends_at chains.new bucket)) place sides.now }
    ensures chains { (other : ℕ) → other ≢ bucket → ends_at chains.new other ≡ ends_at chains.old other }
    ensures rest { StaysBeside Chain slots.old.items slots.new.items }
{
    let mut ends = chains[bucket];
    attach(slots, &mut ends, Kind::Chain, place, sides);
    chains[bucket] = ends;
}

/// Takes a slot out of the order and of its chain. It keeps its links.
pub fn take_out<T>(
    slots: &mut Vec<Slot<T>>,
    order: &mut Link,
    chains: &mut [Link; BUCKETS],
    place: usize,
)
    requires place { place < length slots.old.items }
    requires bucket { (slot_at slots.old.items place).held.bucket < 64 }
    requires order { AreWithin (length slots.old.items) (slot_at slots.old.items place).order }
    requires chain { AreWithin (length slots.old.items) (slot_at slots.old.items place).chain }
    ensures order { IsDetached (linked Order slots.old.items order.old) (linked Order slots.new.items order.new) place }
    ensures chain { let bucket = (slot_at slots.old.items place).held.bucket in IsDetached (linked Chain slots.old.items (ends_at chains.old bucket)) (linked Chain slots.new.items (ends_at chains.new bucket)) place }
    ensures rest { StaysInPiles slots.old.items slots.new.items chains.old chains.new (slot_at slots.old.items place).held.bucket }
{
    let bucket = bucket_at(slots, place);
    detach(slots, order, Kind::Order, place);
    detach_chain(slots, chains, bucket, place);
}

/// Puts a slot between neighbours in the order and in its chain.
pub fn put_in<T>(
    slots: &mut Vec<Slot<T>>,
    order: &mut Link,
    chains: &mut [Link; BUCKETS],
    place: usize,
    sides: &Link,
    chain_sides: &Link,
)
    requires place { place < length slots.old.items }
    requires fits { length slots.old.items ≤ 4294967295 }
    requires bucket { (slot_at slots.old.items place).held.bucket < 64 }
    requires order { AreWithin (length slots.old.items) sides.now }
    requires chain { AreWithin (length slots.old.items) chain_sides.now }
    ensures order { IsAttached (linked Order slots.old.items order.old) (linked Order slots.new.items order.new) place sides.now }
    ensures chain { let bucket = (slot_at slots.old.items place).held.bucket in IsAttached (linked Chain slots.old.items (ends_at chains.old bucket)) (linked Chain slots.new.items (ends_at chains.new bucket)) place chain_sides.now }
    ensures rest { StaysInPiles slots.old.items slots.new.items chains.old chains.new (slot_at slots.old.items place).held.bucket }
{
    let bucket = bucket_at(slots, place);
    attach(slots, order, Kind::Order, place, sides);
    attach_chain(slots, chains, bucket, place, chain_sides);
}

/// No chain has a slot.
pub fn empty_chains() -> [Link; BUCKETS]
    ensures { result ≡ replicate 64 no_link }
{
    let link = Link::none();
    [link; BUCKETS]
}

/// The name of a value at a place.
pub fn named(place: Index) -> Option<SlotId>
    ensures { option_map (λ id. id.0) result ≡ place }
{
    match place.get() {
        Some(place) => Some(SlotId(place as u64)),
        None => None,
    }
}

/// The slot of a live value.
pub fn live_slot<T>(slots: &Vec<Slot<T>>, id: u64) -> Option<&Slot<T>>
    ensures some { IfSome result (λ slot. (slot.now ≡ slot_at slots.now.items id) × (slot.now.held.live ≡ true)) }
    ensures none { IfNone result ((slot_at slots.now.items id).held.live ≡ false) }
{
    match slots.get(id as usize) {
        Some(slot) if slot.held.live => Some(slot),
        _ => None,
    }
}

/// What a slot holds.
pub fn value_in<T>(slots: &Vec<Slot<T>>, place: usize) -> &T
    requires place { place < length slots.now.items }
    requires some { IsSome (slot_at slots.now.items place).held.value }
    ensures { (slot_at slots.now.items place).held.value ≡ Some result.now }
{
    match &slots[place].held.value {
        Some(value) => value,
        None => unreachable!(),
    }
}

/// The ends of a chain.
pub fn ends_of(chains: &[Link; BUCKETS], bucket: usize) -> Link
    requires { bucket < 64 }
    ensures { result ≡ ends_at chains.now bucket }
{
    chains[bucket]
}

/// The name of the first value of a chain. None where there is no such chain.
pub fn first_in_chain(chains: &[Link; BUCKETS], bucket: usize) -> Option<SlotId>
    ensures some { bucket < 64 → option_map (λ id. id.0) result ≡ (ends_at chains.now bucket).next }
    ensures none { 64 ≤ bucket → result ≡ None }
{
    if bucket < BUCKETS {
        named(ends_of(chains, bucket).next)
    } else {
        None
    }
}
