//! Rings over the links of slots. All of these work in a few steps, however long a ring is.
ghost use Rattle.std.specs.Prelude.{◌≡◌, ◌≢◌, ◌<◌, ◌≤◌, ◌^◌, length, IfSome, Some};
ghost use Rattle.zy_slots.specs.declared.slot.Kind.TheVariants.{Pile};
ghost use Rattle.zy_slots.specs.Columns.{linked, link_of, slot_at, AreWithin, StaysBeside, IsPut, IsJoined, IsDetached, IsAttached};

use crate::index::Index;
use crate::link::Link;
use crate::slot::{Kind, Slot};

// The link of a kind at a place, where none is the ring's own.
fn link_at<T>(slots: &Vec<Slot<T>>, ends: Link, kind: Kind, place: Index) -> Link
    requires { IfSome place (λ at. at < length slots.now.items) }
    ensures { result ≡ linked kind slots.now.items ends place }
{
    match place.get() {
        None => ends,
        Some(at) => slots[at].link(kind),
    }
}

// Sets the link of a kind at a place, where none is the ring's own.
fn put_link<T>(slots: &mut Vec<Slot<T>>, ends: &mut Link, kind: Kind, place: Index, link: &Link)
    requires { IfSome place (λ at. at < length slots.old.items) }
    ensures links { IsPut (linked kind slots.old.items ends.old) (linked kind slots.new.items ends.new) place link.now }
    ensures rest { StaysBeside kind slots.old.items slots.new.items }
{
    match place.get() {
        None => *ends = *link,
        Some(at) => {
            let slot = &mut slots[at];
            slot.set_link(kind, *link);
        }
    }
}

// Sets what comes behind one place of a ring, and what comes before another.
fn join<T>(slots: &mut Vec<Slot<T>>, ends: &mut Link, kind: Kind, sides: &Link, between: &Link)
    requires { AreWithin (length slots.old.items) sides.now }
    ensures links { IsJoined (linked kind slots.old.items ends.old) (linked kind slots.new.items ends.new) sides.now.prev sides.now.next between.now.next between.now.prev }
    ensures rest { StaysBeside kind slots.old.items slots.new.items }
{
    let left = Link {
        prev: link_at(slots, *ends, kind, sides.prev).prev,
        next: between.next,
    };
    put_link(slots, ends, kind, sides.prev, &left);
    let right = Link {
        prev: between.prev,
        next: link_at(slots, *ends, kind, sides.next).next,
    };
    put_link(slots, ends, kind, sides.next, &right);
}

/// The link of a kind of a slot.
pub fn link_in<T>(slots: &Vec<Slot<T>>, kind: Kind, place: usize) -> Link
    requires { place < length slots.now.items }
    ensures { result ≡ link_of kind (slot_at slots.now.items place) }
{
    slots[place].link(kind)
}

/// Takes a slot out of its ring. It keeps its own link.
pub fn detach<T>(slots: &mut Vec<Slot<T>>, ends: &mut Link, kind: Kind, place: usize)
    requires place { place < length slots.old.items }
    requires link { AreWithin (length slots.old.items) (link_of kind (slot_at slots.old.items place)) }
    ensures links { IsDetached (linked kind slots.old.items ends.old) (linked kind slots.new.items ends.new) place }
    ensures rest { StaysBeside kind slots.old.items slots.new.items }
{
    let link = link_in(slots, kind, place);
    join(slots, ends, kind, &link, &link);
}

/// Puts a slot between two neighbours in a ring.
pub fn attach<T>(slots: &mut Vec<Slot<T>>, ends: &mut Link, kind: Kind, place: usize, link: &Link)
    requires place { place < length slots.old.items }
    requires fits { length slots.old.items ≤ 4294967295 }
    requires link { AreWithin (length slots.old.items) link.now }
    ensures links { IsAttached (linked kind slots.old.items ends.old) (linked kind slots.new.items ends.new) place link.now }
    ensures rest { StaysBeside kind slots.old.items slots.new.items }
{
    put_link(slots, ends, kind, Index::at(place), link);
    join(slots, ends, kind, link, &Link::both(place));
}

/// Puts a slot at the front of a pile.
pub fn put_first<T>(slots: &mut Vec<Slot<T>>, ends: &mut Link, place: usize)
    requires place { place < length slots.old.items }
    requires fits { length slots.old.items ≤ 4294967295 }
    requires first { IfSome ends.old.next (λ at. at < length slots.old.items) }
    ensures links { IsAttached (linked Pile slots.old.items ends.old) (linked Pile slots.new.items ends.new) place (record { prev = None; next = ends.old.next }) }
    ensures rest { StaysBeside Pile slots.old.items slots.new.items }
{
    let link = Link {
        prev: Index::none(),
        next: ends.next,
    };
    attach(slots, ends, Kind::Pile, place, &link);
}
