ghost use Rattle.std.specs.Prelude.{◌≡◌, [], position, OnOk, OnErr};
ghost use Rattle.zy_cert.specs.Signers.{same_party, has_signer};
ghost use Rattle.zy_check.specs.Votes.{comes_before, place_for, put_vote, equal_to, only};

use zy_base::{Party, Want};
use zy_cert::Matching;
use zy_parts::Signed;

fn is_same_party(a: Party, b: Party) -> bool
    ensures { result ≡ same_party a b }
{
    a == b
}

fn comes_before(a: Party, b: Party) -> bool
    ensures { result ≡ comes_before a b }
{
    match (a, b) {
        (Party::Replica(a), Party::Replica(b)) => a.0 < b.0,
        (Party::Replica(_), Party::Client(_)) => true,
        (Party::Client(_), Party::Replica(_)) => false,
        (Party::Client(a), Party::Client(b)) => a.0 < b.0,
    }
}

// One of the statements is this party's.
pub(crate) fn has_signer<S>(list: &[Signed<S>], by: Party) -> bool
    ensures { result ≡ has_signer by list.now }
{
    list.iter().any(|signed| is_same_party(signed.by, by))
}

// How many of the statements are equal to one.
pub(crate) fn equal_to<S: Matching>(list: &[Signed<S>], stmt: &S) -> u64
    ensures { result ≡ equal_to S.eq stmt.now list.now }
{
    list.iter().filter(|signed| signed.stmt == *stmt).count() as u64
}

// The first statement of a party behind this one.
fn first_behind<S>(list: &[Signed<S>], by: Party) -> Option<usize>
    ensures { result ≡ position (λ s. comes_before by s.by) list.now }
{
    list.iter().position(|signed| comes_before(by, signed.by))
}

// Where a party's statement belongs.
fn place_for<S>(list: &[Signed<S>], by: Party) -> usize
    ensures { result ≡ place_for by list.now }
{
    first_behind(list, by).unwrap_or(list.len())
}

// Keeps a statement at its place. After `Want` all is as before.
pub(crate) fn put_vote<S: Drop>(list: &mut Vec<Signed<S>>, vote: Signed<S>) -> Result<(), Want>
    ensures ok { OnOk result (list.new.items ≡ put_vote vote list.old.items) }
    ensures err { OnErr result (list.new.items ≡ list.old.items) }
{
    let at = place_for(list, vote.by);
    match list.insert(at, vote) {
        Ok(()) => Ok(()),
        Err(_) => Err(Want),
    }
}

// Drops the statements that differ from one.
pub(crate) fn keep_equal<S: Matching + Drop>(list: &mut Vec<Signed<S>>, stmt: &S)
    ensures { list.new.items ≡ only S.eq stmt.now list.old.items }
{
    list.retain(|signed| signed.stmt == *stmt);
}

// Whether a statement is the own one, as the number of equal ones where it is alone.
pub(crate) fn first_with<S: Matching>(vote: &Signed<S>, own: &S) -> u64
    ensures { result ≡ equal_to S.eq own.now (put_vote vote.now []) }
{
    if vote.stmt == *own { 1 } else { 0 }
}
