ghost use Rattle.std.specs.Prelude.{◌≡◌};
ghost use Rattle.zy_evidence.specs.Rules.{is_certified_at, is_of_view, is_began_proven, is_first_begin, is_spec_proven, is_stable_proven, is_first_stable, are_of_state};

use zy_base::{Cause, Counts, Digest, Place, View};
use zy_cert::check_cert;
use zy_chain::EMPTY_HEAD;
use zy_parts::{Check, Signed, Spec, Told};

// The last view began as the report says.
pub(crate) fn is_began_proven(counts: &Counts, told: &Told) -> bool
    ensures { result ≡ is_began_proven counts.now told.now }
{
    if told.last_view.0 == 0 {
        is_first_begin(told)
    } else {
        is_certified_at(
            check_cert(counts.cert, told.began.as_slice()),
            (told.last_view, told.began_place, told.began_head),
        )
    }
}

// The first view begins with the empty history, and nobody confirms it.
fn is_first_begin(told: &Told) -> bool
    ensures { result ≡ is_first_begin told.now }
{
    told.began_place.0 == 0 && told.began_head == EMPTY_HEAD && told.began.as_slice().is_empty()
}

// Where there are responses, they are a certificate of the last view.
pub(crate) fn is_spec_proven(counts: &Counts, told: &Told) -> bool
    ensures { result ≡ is_spec_proven counts.now told.now.last_view told.now.specs }
{
    match &told.specs {
        None => true,
        Some(specs) => is_of_view(check_cert(counts.cert, specs.as_slice()), told.last_view),
    }
}

// The stable checkpoint is as the report says.
pub(crate) fn is_stable_proven(counts: &Counts, told: &Told) -> bool
    ensures { result ≡ is_stable_proven counts.now told.now }
{
    if told.stable_place.0 == 0 {
        is_first_stable(told)
    } else {
        is_certified_at(
            check_cert(counts.local, told.checks.as_slice()),
            (told.stable_view, told.stable_place, told.stable_head),
        ) && are_of_state(told.checks.as_slice(), &told.state)
    }
}

// The empty history is stable from the first view on, and nobody proves it.
fn is_first_stable(told: &Told) -> bool
    ensures { result ≡ is_first_stable told.now }
{
    told.stable_view.0 == 0 && told.stable_head == EMPTY_HEAD && told.checks.as_slice().is_empty()
}

fn are_of_state(checks: &[Signed<Check>], state: &Digest) -> bool
    ensures { result ≡ are_of_state state.now checks.now }
{
    checks.iter().all(|check| check.stmt.state == *state)
}

// A certificate for a point.
fn is_certified_at(
    found: Result<(View, Place, Digest), Cause>,
    point: (View, Place, Digest),
) -> bool
    ensures { result ≡ is_certified_at point found }
{
    match found {
        Ok(found) => found.0 == point.0 && found.1 == point.1 && found.2 == point.2,
        Err(_) => false,
    }
}

// A certificate for some point of a view.
fn is_of_view(found: Result<(View, Place, Digest), Cause>, view: View) -> bool
    ensures { result ≡ is_of_view view found }
{
    match found {
        Ok(found) => found.0 == view,
        Err(_) => false,
    }
}
