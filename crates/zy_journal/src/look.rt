ghost use Rattle.std.specs.Prelude.{◌≡◌, ◌+◌, ◌≤◌, ◌<◌, ◌^◌, ◌∷◌, [], ℕ, IfSome, is_none, length};
ghost use Rattle.std.specs.Int.{w32, to_be_bytes};
ghost use Rattle.zy_edge.specs.Faults.{IsCounted};
ghost use Rattle.zy_journal.specs.Disk.{Rests, StandsAt, IsFilled, fill_failed};

use crate::{Disk, Filled, Size};

/// How many bytes the file has. `None` where the disk failed.
pub(crate) fn size_of<D: Disk>(disk: &mut D) -> Option<u64>
    ensures size { IfSome result (λ size. IfSome (D.contents disk.old) (λ file. size ≡ length file)) }
    ensures rests { Rests D.contents D.may_leave D.moment D.left_since disk.old disk.new }
    ensures count { IsCounted (is_none result) (D.faults disk.old) (D.faults disk.new) }
{
    match disk.len() {
        Size::Is(size) => Some(size),
        Size::Failed => None,
    }
}

/// Fills the buffer with the bytes from this place on.
pub(crate) fn fill<D: Disk>(disk: &mut D, at: u64, buf: &mut [u8]) -> Filled
    requires { IfSome (D.contents disk.old) (λ file. at + length buf.old ≤ length file) }
    ensures bytes { IsFilled result at buf.new (D.contents disk.old) }
    ensures rests { Rests D.contents D.may_leave D.moment D.left_since disk.old disk.new }
    ensures count { IsCounted (fill_failed result) (D.faults disk.old) (D.faults disk.new) }
{
    disk.read_at(at, buf)
}

/// The byte at this place. `None` where the disk failed.
pub(crate) fn byte_at<D: Disk>(disk: &mut D, at: u64) -> Option<u8>
    requires { IfSome (D.contents disk.old) (λ file. at < length file) }
    ensures byte { IfSome result (λ byte. IfSome (D.contents disk.old) (λ file. StandsAt (byte ∷ []) at file)) }
    ensures rests { Rests D.contents D.may_leave D.moment D.left_since disk.old disk.new }
    ensures count { IsCounted (is_none result) (D.faults disk.old) (D.faults disk.new) }
{
    let mut buf = [0; 1];
    match fill(disk, at, &mut buf) {
        Filled::Filled => Some(buf[0]),
        Filled::Failed => None,
    }
}

/// The number of four bytes at this place. `None` where the disk failed.
pub(crate) fn number_at<D: Disk>(disk: &mut D, at: u64) -> Option<u32>
    requires { IfSome (D.contents disk.old) (λ file. at + 4 ≤ length file) }
    ensures number { IfSome result (λ number. IfSome (D.contents disk.old) (λ file. StandsAt (to_be_bytes w32 number) at file)) }
    ensures rests { Rests D.contents D.may_leave D.moment D.left_since disk.old disk.new }
    ensures count { IsCounted (is_none result) (D.faults disk.old) (D.faults disk.new) }
{
    let mut buf = [0; 4];
    match fill(disk, at, &mut buf) {
        Filled::Filled => Some(number_of(&buf)),
        Filled::Failed => None,
    }
}

/// The number that four bytes spell, the high one first.
fn number_of(bytes: &[u8]) -> u32
    requires { length bytes.now ≡ 4 }
    ensures { to_be_bytes w32 result ≡ bytes.now }
{
    u32::from_be_bytes([bytes[0], bytes[1], bytes[2], bytes[3]])
}
