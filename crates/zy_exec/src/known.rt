//! What is known of the last entry of each client, and what leads back over an entry.

ghost use Rattle.std.specs.Prelude.{◌≡◌, ◌+◌, ◌-◌, ◌<◌, [], ◌∷◌, ◌++◌, length, IfOk, IfSome, replicate, slice_index_or, slice_set, slice_get, option_map, option_copied};
ghost use Rattle.std.specs.VecDeque.{deque_len, deque_capacity};
ghost use Rattle.std.specs.List.{AllByRecursion};
ghost use Rattle.zy_exec.specs.Trail.{known_above, known_at as kept_of, IsPopped, IsSettled, IsDoneInRange, IsBaseInRange};
ghost use Rattle.zy_exec.specs.Known.{IsKnownInRange};
ghost use Rattle.zy_chain.specs.Answers.{FitsAnswers};

use std::alloc::Global;
use std::collections::VecDeque;
use zy_base::{Bytes, ClientId, Digest, Place, Stamp, Want};

/// How many clients there may be. They are numbered from 0.
pub const CLIENTS: usize = 64;

/// What is known of an entry that was run: its stamp, its place, the head there, and the reply.
#[derive(Debug, Drop)]
pub struct Known {
    pub stamp: Stamp,
    pub place: Place,
    pub head: Digest,
    pub reply: Bytes,
}

/// What is kept of an entry above the base.
#[derive(Debug, Drop)]
pub struct Done {
    pub client: ClientId,
    pub known: Known,
    /// Where the earlier entry of its client stands. A place up to the base, or none, means what was known at the base.
    pub earlier: Option<Place>,
}

/// Nothing for any client.
pub fn nothing<T: Drop>(alloc: Global) -> Result<Vec<Option<T>>, Want>
    ensures { IfOk result (λ v. v.items ≡ replicate 64 None) }
{
    let mut all = Vec::with_capacity(alloc, CLIENTS)?;
    for _ in 0..CLIENTS {
        all.push(None)?;
    }
    Ok(all)
}

/// Where a place above the base stands among what is kept of the entries above it.
pub fn index_above(base: Place, place: Place) -> usize
    ensures { result ≡ place.0 - base.0 - 1 }
{
    place.0.saturating_sub(base.0).saturating_sub(1) as usize
}

fn known_done(done: &VecDeque<Done>, index: usize) -> Option<&Known>
    requires { AllByRecursion IsDoneInRange done.now.items }
    ensures known { option_copied result ≡ known_above done.now.items index }
    ensures in_range { IfSome result (λ k. IsKnownInRange k.now) }
{
    match done.get(index) {
        Some(done) => Some(&done.known),
        None => None,
    }
}

/// The reply that is kept of an entry above the base.
pub fn reply_done(done: &VecDeque<Done>, index: usize) -> Option<&Bytes>
    requires { AllByRecursion IsDoneInRange done.now.items }
    ensures short { IfSome result (λ reply. FitsAnswers reply.now) }
    ensures reply { option_copied result ≡ option_map (λ d. d.known.reply) (slice_get done.now.items index) }
{
    match done.get(index) {
        Some(done) => Some(&done.known.reply),
        None => None,
    }
}

fn last_of(last: &[Option<Place>], client: usize) -> Option<Place>
    ensures { result ≡ slice_index_or last.now client None }
{
    match last.get(client) {
        Some(place) => *place,
        None => None,
    }
}

fn base_of(base_known: &[Option<Known>], client: usize) -> Option<&Known>
    requires { AllByRecursion IsBaseInRange base_known.now }
    ensures known { option_copied result ≡ slice_index_or base_known.now client None }
    ensures in_range { IfSome result (λ k. IsKnownInRange k.now) }
{
    match base_known.get(client) {
        Some(known) => known.as_ref(),
        None => None,
    }
}

/// What is known of a client's last entry. A place up to the base means the base.
pub fn known_at<'a>(
    base: Place,
    base_known: &'a [Option<Known>],
    done: &'a VecDeque<Done>,
    last: &[Option<Place>],
    client: usize,
) -> Option<&'a Known>
    requires base { AllByRecursion IsBaseInRange base_known.now }
    requires done { AllByRecursion IsDoneInRange done.now.items }
    ensures known { option_copied result ≡ kept_of base.0 base_known.now done.now.items client (slice_index_or last.now client None) }
    ensures in_range { IfSome result (λ k. IsKnownInRange k.now) }
{
    match last_of(last, client) {
        Some(place) if place.0 > base.0 => known_done(done, index_above(base, place)),
        _ => base_of(base_known, client),
    }
}

/// Keeps what an entry did, for which there is room.
pub fn push_done(
    done: &mut VecDeque<Done>,
    last: &mut Vec<Option<Place>>,
    client: ClientId,
    known: Known,
)
    requires room { deque_len done.old < deque_capacity done.old }
    requires client { client.0 < length last.old.items }
    ensures done { done.new.items ≡ done.old.items ++ record { client = client; known = known; earlier = slice_index_or last.old.items client.0 None } ∷ [] }
    ensures last { last.new.items ≡ slice_set last.old.items client.0 (Some known.place) }
{
    let at = client.0 as usize;
    let earlier = last[at];
    last[at] = Some(known.place);
    done.push_back_reserved(Done {
        client,
        known,
        earlier,
    });
}

/// Drops what is kept of the last entry.
pub fn pop_done(done: &mut VecDeque<Done>, last: &mut Vec<Option<Place>>)
    requires some { 0 < length done.old.items }
    requires clients { AllByRecursion IsDoneInRange done.old.items }
    requires all { length last.old.items ≡ 64 }
    ensures { IsPopped done.old.items done.new.items last.old.items last.new.items }
{
    if let Some(popped) = done.pop_back() {
        last[popped.client.0 as usize] = popped.earlier;
    }
}

/// The first entry goes below the base: what is kept of it is now what was known there.
pub fn settle_done(done: &mut VecDeque<Done>, base_known: &mut Vec<Option<Known>>)
    requires some { 0 < length done.old.items }
    requires clients { AllByRecursion IsDoneInRange done.old.items }
    requires all { length base_known.old.items ≡ 64 }
    ensures { IsSettled done.old.items done.new.items base_known.old.items base_known.new.items }
{
    if let Some(Done { client, known, .. }) = done.pop_front() {
        base_known[client.0 as usize] = Some(known);
    }
}
