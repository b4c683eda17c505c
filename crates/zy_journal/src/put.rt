ghost use Rattle.std.specs.Prelude.{◌⊎◌, ◌+◌, ◌≤◌, ◌<◌, ◌^◌, ◌∷◌, [], ℕ, IfSome, List, length};
ghost use Rattle.zy_edge.specs.Faults.{IsCounted};
ghost use Rattle.zy_journal.specs.Disk.{Torn, Only, IsOnly, LeavesOnly, StaysTold, OnDid, did_failed, with_bytes};

use crate::{Did, Disk};

/// Writes the bytes and syncs. A crash at any moment of it leaves what was there, but for the bytes in the range.
pub(crate) fn put<D: Disk>(disk: &mut D, at: u64, bytes: &[u8]) -> Did
    requires { IfSome (D.contents disk.old) (λ file. at ≤ length file) }
    ensures done { OnDid result (IfSome (D.contents disk.old) (λ file. IsOnly (with_bytes at bytes.now file) (D.contents disk.new) (D.may_leave disk.new))) }
    ensures told { StaysTold (D.contents disk.old) (D.contents disk.new) }
    ensures any_moment { (file : List ℕ) → Only file (D.may_leave disk.old) → LeavesOnly D.moment D.left_since disk.old disk.new (Torn at (length bytes.now) file) }
    ensures count { IsCounted (did_failed result) (D.faults disk.old) (D.faults disk.new) }
{
    match disk.write_at(at, bytes) {
        Did::Did => disk.sync(),
        Did::Failed => Did::Failed,
    }
}

/// Writes the bytes behind a gate, and opens the gate only once they are on the disk.
pub(crate) fn put_behind<D: Disk>(disk: &mut D, gate: u64, bytes: &[u8]) -> Did
    requires low { gate ≤ 2 ^ 30 }
    requires inside { IfSome (D.contents disk.old) (λ file. Only file (D.may_leave disk.old) × (gate < length file)) }
    ensures done { OnDid result (IfSome (D.contents disk.old) (λ file. IsOnly (with_bytes gate (1 ∷ []) (with_bytes (gate + 1) bytes.now file)) (D.contents disk.new) (D.may_leave disk.new))) }
    ensures told { StaysTold (D.contents disk.old) (D.contents disk.new) }
    ensures any_moment { IfSome (D.contents disk.old) (λ file. LeavesOnly D.moment D.left_since disk.old disk.new
        (λ image. Torn (gate + 1) (length bytes.now) file image ⊎ Torn gate 1 (with_bytes (gate + 1) bytes.now file) image)) }
    ensures count { IsCounted (did_failed result) (D.faults disk.old) (D.faults disk.new) }
{
    match put(disk, gate + 1, bytes) {
        Did::Did => put(disk, gate, &[1]),
        Did::Failed => Did::Failed,
    }
}
