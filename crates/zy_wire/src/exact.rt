ghost use Rattle.std.specs.Prelude.{ℕ, ◌+◌, ◌^◌, ◌<◌};
ghost use Rattle.std.specs.Int.{w8, w16, w32, w64};
ghost use Rattle.zy_wire.specs.Spelling.{IsExact, word, number, exactly};
ghost use Rattle.zy_wire.specs.Fields.{u62, digest, party, bytes16, bytes32};

use crate::Spelled;

/// Each field's spelling is exact: what is read was written so, byte for byte, and what was written is read back,
/// whatever stands behind it. So no spelling of a field begins another.
pub fn fields()
    ensures raw { (len : ℕ) → IsExact (exactly len) }
    ensures u8 { IsExact (word w8) }
    ensures u16 { IsExact (word w16) }
    ensures u32 { IsExact (word w32) }
    ensures u64 { IsExact (word w64) }
    ensures u62 { (least : ℕ) → IsExact (u62 least) }
    ensures count { (min max : ℕ) → max < 2 ^ 16 → IsExact (number w16 min (max + 1)) }
    ensures flag { IsExact (number w8 0 2) }
    ensures digest { IsExact digest }
    ensures party { IsExact party }
    ensures bytes16 { (max : ℕ) → max < 2 ^ 16 → IsExact (bytes16 max) }
    ensures bytes32 { (max : ℕ) → max < 2 ^ 32 → IsExact (bytes32 max) }
{}

/// A value's spelling is exact: what is read was written so, byte for byte, and is in range, and what was written is
/// read back, whatever stands behind it.
pub fn spellings<T: Spelled>()
    ensures exact { IsExact T.spelling }
    ensures in_range { (x : T) → T.spelling.Fits x → T.in_range x }
{}
