ghost use Rattle.std.specs.Prelude.{◌≡◌, ◌≤◌, ◌++◌, ◌∷◌, [], ◌↔◌, IsTrue, IfSome, length};
ghost use Rattle.zy_edge.specs.Faults.{IsCounted};
ghost use Rattle.zy_journal.specs.Disk.{Only, IsOnly, LeavesOnly, Rests, StandsAt, StaysTold, OnDid, did_failed};
ghost use Rattle.zy_journal.specs.Journal.{Keeps, opened, mark_of};
ghost use Rattle.zy_journal.specs.Starting.{IsStart, IsShutAtFirst, IsShort, start_failed};

use crate::look::{byte_at, fill, size_of};
use crate::put::{put, put_behind};
use crate::{Did, Disk, Filled};
use zy_base::Digest;

/// What bytes 1 to 8 of a journal are.
const MARK: [u8; 8] = [90, 89, 74, 76, 0, 0, 0, 1];

/// No file with fewer bytes holds a journal.
const LEAST: u64 = 42;

/// How a file begins.
#[derive(Clone, Copy, Debug)]
pub(crate) enum Start {
    Failed,
    /// With the journal that is asked for.
    Mine,
    /// With another one, or with other bytes behind a 1.
    Other,
    /// With a byte that isn't 1.
    Shut,
    /// It has no byte, or begins with 1 and is too short.
    Short,
}

/// How the file begins.
pub(crate) fn start_of<D: Disk>(disk: &mut D, identity: &Digest) -> Start
    ensures start { IfSome (D.contents disk.old) (λ file. IsStart identity.now file result) }
    ensures rests { Rests D.contents D.may_leave D.moment D.left_since disk.old disk.new }
    ensures count { IsCounted (start_failed result) (D.faults disk.old) (D.faults disk.new) }
{
    match size_of(disk) {
        None => Start::Failed,
        Some(0) => Start::Short,
        Some(size) => start_in(disk, identity, size),
    }
}

/// How a file of this size begins, which has a byte.
fn start_in<D: Disk>(disk: &mut D, identity: &Digest, size: u64) -> Start
    requires { IfSome (D.contents disk.old) (λ file. (size ≡ length file) × (1 ≤ size)) }
    ensures start { IfSome (D.contents disk.old) (λ file. IsStart identity.now file result) }
    ensures rests { Rests D.contents D.may_leave D.moment D.left_since disk.old disk.new }
    ensures count { IsCounted (start_failed result) (D.faults disk.old) (D.faults disk.new) }
{
    let Some(byte) = byte_at(disk, 0) else {
        return Start::Failed;
    };
    if byte != 1 {
        return Start::Shut;
    }
    if size < LEAST {
        return Start::Short;
    }
    whose(disk, identity)
}

/// Whether a file is the journal that is asked for.
fn whose<D: Disk>(disk: &mut D, identity: &Digest) -> Start
    requires { IfSome (D.contents disk.old) (λ file. (42 ≤ length file) × StandsAt (1 ∷ []) 0 file) }
    ensures start { IfSome (D.contents disk.old) (λ file. IsStart identity.now file result) }
    ensures rests { Rests D.contents D.may_leave D.moment D.left_since disk.old disk.new }
    ensures count { IsCounted (start_failed result) (D.faults disk.old) (D.faults disk.new) }
{
    let mut found = [0; 40];
    match fill(disk, 1, &mut found) {
        Filled::Failed => Start::Failed,
        Filled::Filled => {
            if is_same(&found, &mark_of(identity)) {
                Start::Mine
            } else {
                Start::Other
            }
        }
    }
}

/// Makes an empty journal of a file that is too short.
pub(crate) fn shut_and_begin<D: Disk>(disk: &mut D, identity: &Digest) -> Did
    requires { IfSome (D.contents disk.old) (λ file. Only file (D.may_leave disk.old) × IsShort file) }
    ensures done { OnDid result (IfSome (D.contents disk.old) (λ file. IsOnly (opened identity.now file) (D.contents disk.new) (D.may_leave disk.new))) }
    ensures told { StaysTold (D.contents disk.old) (D.contents disk.new) }
    ensures any_moment { IfSome (D.contents disk.old) (λ file. LeavesOnly D.moment D.left_since disk.old disk.new (Keeps identity.now file)) }
    ensures size { OnDid result (length identity.now.0 ≡ 32) }
    ensures count { IsCounted (did_failed result) (D.faults disk.old) (D.faults disk.new) }
{
    match put(disk, 0, &[0]) {
        Did::Did => begin(disk, identity),
        Did::Failed => Did::Failed,
    }
}

/// Makes an empty journal of a file whose first byte isn't 1. That byte is written last.
pub(crate) fn begin<D: Disk>(disk: &mut D, identity: &Digest) -> Did
    requires { IfSome (D.contents disk.old) (λ file. Only file (D.may_leave disk.old) × IsShutAtFirst file) }
    ensures done { OnDid result (IfSome (D.contents disk.old) (λ file. IsOnly (opened identity.now file) (D.contents disk.new) (D.may_leave disk.new))) }
    ensures told { StaysTold (D.contents disk.old) (D.contents disk.new) }
    ensures any_moment { IfSome (D.contents disk.old) (λ file. LeavesOnly D.moment D.left_since disk.old disk.new (Keeps identity.now file)) }
    ensures size { length identity.now.0 ≡ 32 }
    ensures count { IsCounted (did_failed result) (D.faults disk.old) (D.faults disk.new) }
{
    put_behind(disk, 0, &head_of(identity))
}

/// Bytes 1 to 40 of a journal.
fn mark_of(identity: &Digest) -> [u8; 40]
    ensures bytes { result ≡ mark_of identity.now }
    ensures size { length identity.now.0 ≡ 32 }
{
    let mut mark = [0; 40];
    mark[..8].copy_from_slice(&MARK);
    mark[8..].copy_from_slice(&identity.0);
    mark
}

/// Bytes 1 to 41 of a journal that has no record.
fn head_of(identity: &Digest) -> [u8; 41]
    ensures bytes { result ≡ mark_of identity.now ++ 0 ∷ [] }
    ensures size { length identity.now.0 ≡ 32 }
{
    let mut head = [0; 41];
    head[..40].copy_from_slice(&mark_of(identity));
    head
}

fn is_same(found: &[u8], mark: &[u8]) -> bool
    ensures { IsTrue result ↔ (found.now ≡ mark.now) }
{
    found == mark
}
