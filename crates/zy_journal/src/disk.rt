ghost use Rattle.std.specs.Prelude.{◌≡◌, ◌+◌, ◌≤◌, ℕ, Option, IfSome, List, length};
ghost use Rattle.zy_edge.specs.Faults.{IsCounted};
ghost use Rattle.zy_journal.specs.Disk.{Torn, Follows, Narrows, Only, Elapses, StaysTold, IsWritten, IsSize, IsFilled, OnDid, did_failed, size_failed, fill_failed};

pub(crate) mod memory;
pub(crate) mod real;

/// What a call did.
#[derive(Clone, Copy, Debug, PartialEq, Eq)]
pub enum Did {
    Did,
    Failed,
}

/// What a `len` gave.
#[derive(Clone, Copy, Debug, PartialEq, Eq)]
pub enum Size {
    /// The file has so many bytes.
    Is(u64),
    Failed,
}

/// What a `read_at` did.
#[derive(Clone, Copy, Debug, PartialEq, Eq)]
pub enum Filled {
    /// The buffer has the file's bytes from this place on.
    Filled,
    Failed,
}

/// One file that is read and written at any place. What is written stays through a crash from the next `sync` on. A disk
/// that tells its contents has one file, whatever name is opened.
pub trait Disk {
    /// How often a call has failed: a number that never falls, and stays at 2^64 - 1.
    ghost faults: { Self → ℕ };

    /// What a read gives, where it is told.
    ghost contents: { Self → Option (List ℕ) };

    /// What a crash at this moment may leave.
    ghost may_leave: { Self → List ℕ → Type 0 };

    /// The moment, as a number that never falls.
    ghost moment: { Self → ℕ };

    /// What a crash at some moment from that one on might have left, during a call or between two.
    ghost left_since: { Self → ℕ → List ℕ → Type 0 };

    /// Opens the named file, and makes it empty where there is none.
    fn open(&mut self, name: &str) -> Did
        ensures contents { contents self.new ≡ contents self.old }
        ensures crash { Narrows (may_leave self.old) (may_leave self.new) }
        ensures time { Elapses (moment self.old) (moment self.new) (left_since self.old) (left_since self.new) (may_leave self.new) }
        ensures image { IfSome (contents self.new) (may_leave self.new) }
        ensures count { IsCounted (did_failed result) (faults self.old) (faults self.new) };

    /// How many bytes the file has.
    fn len(&mut self) -> Size
        ensures size { IsSize result (contents self.old) }
        ensures contents { contents self.new ≡ contents self.old }
        ensures crash { Narrows (may_leave self.old) (may_leave self.new) }
        ensures time { Elapses (moment self.old) (moment self.new) (left_since self.old) (left_since self.new) (may_leave self.new) }
        ensures image { IfSome (contents self.new) (may_leave self.new) }
        ensures count { IsCounted (size_failed result) (faults self.old) (faults self.new) };

    /// Fills the buffer with the bytes from this place on. It fails where the file has fewer.
    fn read_at(&mut self, at: u64, buf: &mut [u8]) -> Filled
        requires { IfSome (contents self.old) (λ file. at + length buf.old ≤ length file) }
        ensures bytes { IsFilled result at buf.new (contents self.old) }
        ensures contents { contents self.new ≡ contents self.old }
        ensures crash { Narrows (may_leave self.old) (may_leave self.new) }
        ensures time { Elapses (moment self.old) (moment self.new) (left_since self.old) (left_since self.new) (may_leave self.new) }
        ensures image { IfSome (contents self.new) (may_leave self.new) }
        ensures count { IsCounted (fill_failed result) (faults self.old) (faults self.new) };

    /// Writes over what stands there, and past the end. Until a sync a crash may leave any bytes in the range.
    fn write_at(&mut self, at: u64, bytes: &[u8]) -> Did
        requires { IfSome (contents self.old) (λ file. at ≤ length file) }
        ensures written { OnDid result (IsWritten at bytes.now (contents self.old) (contents self.new)) }
        ensures told { StaysTold (contents self.old) (contents self.new) }
        ensures crash { Follows (Torn at (length bytes.now)) (may_leave self.old) (may_leave self.new) }
        ensures time { Elapses (moment self.old) (moment self.new) (left_since self.old) (left_since self.new) (may_leave self.new) }
        ensures image { IfSome (contents self.new) (may_leave self.new) }
        ensures count { IsCounted (did_failed result) (faults self.old) (faults self.new) };

    /// After it a crash leaves what a read gives.
    fn sync(&mut self) -> Did
        ensures durable { OnDid result (IfSome (contents self.old) (λ file. Only file (may_leave self.new))) }
        ensures contents { contents self.new ≡ contents self.old }
        ensures crash { Narrows (may_leave self.old) (may_leave self.new) }
        ensures time { Elapses (moment self.old) (moment self.new) (left_since self.old) (left_since self.new) (may_leave self.new) }
        ensures image { IfSome (contents self.new) (may_leave self.new) }
        ensures count { IsCounted (did_failed result) (faults self.old) (faults self.new) };

    /// This moment is one of those since an earlier one.
    ghost counts_now: { (disk : Self) (t : ℕ) (image : List ℕ) → t ≤ moment disk → may_leave disk image → left_since disk t image };

    /// Since this moment there is no other.
    ghost only_now: { (disk : Self) (image : List ℕ) → left_since disk (moment disk) image → may_leave disk image };
}
