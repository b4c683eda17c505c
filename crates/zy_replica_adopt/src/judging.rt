ghost use Rattle.std.specs.Prelude.{◌≡◌, ◌≤◌, length, take};
ghost use Rattle.zy_chain.specs.Heads.{head_from};
ghost use Rattle.zy_chain.specs.Stretch.{head_in};
ghost use Rattle.zy_parts.specs.Reports.{IsToldInRange};
ghost use Rattle.zy_exec.specs.Kept.{stretch_of as own_stretch};
ghost use Rattle.zy_evidence.specs.Reading.{stretch_of};
ghost use Rattle.zy_table.specs.Gathering.{state_in};
ghost use Rattle.zy_table.specs.Adopting.{verdict_of, verdict_beside, verdict_above, verdict_on_state};

use zy_base::{Cause, Digest, Machine, Place};
use zy_chain::{entry_digest, next_head};
use zy_exec::Exec;
use zy_parts::{Check, Told};
use zy_table::Verdict;

/// Whether the history that a report gives up to a place, which has this head there, can be taken up: it has the own
/// stable checkpoint in it, and where the report's own one is further on, the own history has that one in it. `Wait`
/// where the own history doesn't come there. Takes no memory.
#[tactic(auto, unfolding(zy_table::specs::Adopting::verdict_of))]
pub fn judge<M: Machine>(
    exec: &Exec<M>,
    stable: &Check,
    told: &Told,
    place: Place,
    head: &Digest,
) -> Verdict
    requires { IsToldInRange told.now }
    ensures { result ≡ verdict_of M.rules exec.now stable.now told.now place head.now }
{
    if place < stable.place {
        return Verdict::Refuse(Cause::BelowStable(stable.head, *head));
    }
    if told.stable_place <= stable.place {
        judge_beside(&stable.head, head_told(told, stable.place))
    } else {
        judge_above(exec, told)
    }
}

// Where the report is stable at the own stable place or below.
fn judge_beside(own: &Digest, told: Option<Digest>) -> Verdict
    ensures { result ≡ verdict_beside own.now told }
{
    match told {
        Some(other) if other != *own => Verdict::Refuse(Cause::BelowStable(*own, other)),
        _ => Verdict::Take,
    }
}

// Where it is stable further on.
fn judge_above<M: Machine>(exec: &Exec<M>, told: &Told) -> Verdict
    ensures { result ≡ verdict_above M.rules exec.now told.now (head_in (own_stretch exec.now) told.now.stable_place.0) }
{
    match exec.head_at(told.stable_place) {
        Some(own) if own == told.stable_head => {
            judge_state(&told.state, exec.snapshot_digest_at(told.stable_place))
        }
        _ => Verdict::Wait,
    }
}

// Where the own history has its stable checkpoint.
fn judge_state(told: &Digest, own: Option<Digest>) -> Verdict
    ensures { result ≡ verdict_on_state told.now own }
{
    match own {
        None => Verdict::Wait,
        Some(own) if own == *told => Verdict::Take,
        Some(own) => Verdict::Refuse(Cause::WrongState(own, *told)),
    }
}

// The report's head at a place.
pub(crate) fn head_told(told: &Told, place: Place) -> Option<Digest>
    requires { IsToldInRange told.now }
    ensures { result ≡ head_in (stretch_of told.now) place.0 }
{
    if place < told.stable_place {
        return None;
    }
    let above = place.0 - told.stable_place.0;
    if above > told.entries.len() as u64 {
        return None;
    }
    Some(head_after(told, above as usize))
}

// The head after so many of the report's entries.
fn head_after(told: &Told, count: usize) -> Digest
    requires range { IsToldInRange told.now }
    requires count { count ≤ length told.now.entries }
    ensures { result ≡ head_from told.now.stable_head (take count told.now.entries) }
{
    let mut head = told.stable_head;
    for entry in &told.entries.as_slice()[..count] {
        head = next_head(&head, &entry_digest(entry));
    }
    head
}
