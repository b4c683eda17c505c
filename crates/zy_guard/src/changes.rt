//! The changes that lead back to a guarded space's earlier states.

ghost use Rattle.std.specs.Prelude.{◌≡◌, ◌+◌, ◌<◌, ◌^◌, ℕ, [], ◌∷◌, ◌++◌, List, length, drop, OnOk, OnErr};
ghost use Rattle.zy_slots.specs.Cells.{Cell, IsLive, Stands};
ghost use Rattle.zy_guard.specs.declared.values.Owned.{Owned};
ghost use Rattle.zy_guard.specs.GuardedSpace.{IsGuardState};
ghost use Rattle.zy_guard.specs.Changes.{values_of, trail_of, undone, CanUndo, IsSound, IsStep, IsPutLast};

use crate::Owned;
use std::collections::VecDeque;
use zy_base::Want;
use zy_slots::{SlotId, Slots};

/// What an operation did. What was put is the last one, and what was taken is on top of the stack.
#[derive(Clone, Copy, Debug)]
pub enum Change {
    Same,
    Put,
    Took,
}

/// Puts a tuple at the end, into the chain of its owner.
pub fn put_last(slots: &mut Slots<Owned>, owned: Owned) -> Result<(), Want>
    requires { owned.owner.0 < 64 }
    ensures ok { OnOk result (IsPutLast slots.old slots.new owned) }
    ensures err { OnErr result (slots.new ≡ slots.old) }
{
    let chain = owned.owner.0 as u8;
    match slots.insert(chain, owned) {
        Ok(_) => Ok(()),
        Err((_, want)) => Err(want),
    }
}

/// Leaves all as it is, which is a step to go back over as well.
pub fn stay(slots: &Slots<Owned>, changes: &mut VecDeque<Change>) -> Result<(), Want>
    requires { IsSound slots.now changes.old.items }
    ensures ok { OnOk result (IsStep slots.now slots.now changes.old.items changes.new.items (values_of slots.now.live)) }
    ensures err { OnErr result (changes.new.items ≡ changes.old.items) }
{
    changes.push_back(Change::Same)?;
    Ok(())
}

/// Puts a tuple at the end.
pub fn put(
    slots: &mut Slots<Owned>,
    changes: &mut VecDeque<Change>,
    owned: Owned,
) -> Result<(), Want>
    requires sound { IsSound slots.old changes.old.items }
    requires owner { owned.owner.0 < 64 }
    requires state { IsGuardState (values_of slots.old.live ++ owned ∷ []) }
    ensures ok { OnOk result (IsStep slots.old slots.new changes.old.items changes.new.items (values_of slots.old.live ++ owned ∷ [])) }
    ensures many { OnOk result (length slots.new.live ≡ length slots.old.live + 1) }
    ensures slots { OnErr result (slots.new ≡ slots.old) }
    ensures changes { OnErr result (changes.new.items ≡ changes.old.items) }
{
    changes.push_back(Change::Put)?;
    match put_last(slots, owned) {
        Ok(()) => Ok(()),
        Err(want) => {
            changes.pop_back();
            Err(want)
        }
    }
}

/// Takes a live tuple out, which may come back.
pub fn take_out(
    slots: &mut Slots<Owned>,
    changes: &mut VecDeque<Change>,
    id: SlotId,
) -> Result<(), Want>
    requires sound { IsSound slots.old changes.old.items }
    requires live { IsLive slots.old id.0 }
    ensures ok { OnOk result ((earlier : List (Cell Owned)) (cell : Cell Owned) (later : List (Cell Owned)) → Stands slots.old id.0 earlier cell later → IsStep slots.old slots.new changes.old.items changes.new.items (values_of (earlier ++ later))) }
    ensures slots { OnErr result (slots.new ≡ slots.old) }
    ensures changes { OnErr result (changes.new.items ≡ changes.old.items) }
{
    changes.push_back(Change::Took)?;
    slots.unlink(id);
    Ok(())
}

// Undoes one change. The count is of the live tuples, before and after.
fn undo_change(slots: &mut Slots<Owned>, live: u64, change: Change) -> u64
    requires can { CanUndo change slots.old }
    requires live { live ≡ length slots.old.live }
    requires fits { live < 2 ^ 63 }
    ensures slots { slots.new ≡ undone change slots.old }
    ensures live { result ≡ length (undone change slots.old).live }
{
    match change {
        Change::Same => live,
        Change::Put => {
            slots.take_last();
            live - 1
        }
        Change::Took => {
            slots.relink();
            live + 1
        }
    }
}

/// Goes back over the last change. The count is of the live tuples, before and after.
pub fn go_back(slots: &mut Slots<Owned>, changes: &mut VecDeque<Change>, live: u64) -> u64
    requires sound { IsSound slots.old changes.old.items }
    requires some { 0 < length (trail_of slots.old changes.old.items) }
    requires live { live ≡ length slots.old.live }
    ensures sound { IsSound slots.new changes.new.items }
    ensures live { result ≡ length slots.new.live }
    ensures back { trail_of slots.old changes.old.items ≡ trail_of slots.new changes.new.items ++ values_of slots.new.live ∷ [] }
{
    match changes.pop_back() {
        Some(change) => undo_change(slots, live, change),
        None => live,
    }
}

/// Drops the oldest change, and with it what it took.
pub fn forget_oldest(slots: &mut Slots<Owned>, changes: &mut VecDeque<Change>)
    requires sound { IsSound slots.old changes.old.items }
    requires some { 0 < length (trail_of slots.old changes.old.items) }
    ensures sound { IsSound slots.new changes.new.items }
    ensures live { slots.new.live ≡ slots.old.live }
    ensures trail { trail_of slots.new changes.new.items ≡ drop 1 (trail_of slots.old changes.old.items) }
{
    match changes.pop_front() {
        Some(Change::Took) => {
            slots.forget();
        }
        Some(Change::Same) => {}
        Some(Change::Put) => {}
        None => {}
    }
}
