// Strings read as numbers and as elements of w bits, and the checksum over a digest's elements
// (RFC 8554, sections 3.1.1, 3.1.3 and 4.4).

ghost use Rattle.std.specs.Prelude.{◌≡◌, ◌*◌, ◌/◌, ◌<◌, ◌≤◌, ◌+◌, ◌++◌, length};
ghost use Rattle.std.specs.Int.{w16, to_be_bytes};
ghost use Rattle.zy_ots.specs.OtsType.{width_of};
ghost use Rattle.zy_ots.specs.Coef.{number_at, coef_of, checksum_of};

use crate::ots_type::OtsType;
use zy_base::Digest;

/// The number that the four bytes from `at` on spell, high byte first.
pub fn u32_at(bytes: &[u8], at: usize) -> u32
    requires { at + 4 ≤ length bytes.now }
    ensures { result ≡ number_at bytes.now at }
{
    u32::from_be_bytes([bytes[at], bytes[at + 1], bytes[at + 2], bytes[at + 3]])
}

/// The element at place `i` of `s`, read as elements of the type's width, high bits first.
pub fn coef(s: &[u8], i: usize, ots: OtsType) -> u8
    requires { i * width_of ots / 8 < length s.now }
    ensures { result ≡ coef_of s.now i (width_of ots) }
{
    match ots {
        OtsType::W4 => 0x0f & (s[i / 2] >> (4 - 4 * (i % 2))),
        OtsType::W8 => s[i],
    }
}

/// The checksum of a digest: what its elements lack to the greatest, shifted to the left so that
/// its elements come first in the two bytes.
pub fn checksum(ots: OtsType, q: &Digest) -> u16
    ensures { result ≡ checksum_of ots q.now.0 }
{
    let mut sum = 0u16;
    'elements: for i in 0..ots.digest_coef_count() {
        sum += u16::from(ots.last_place() - coef(&q.0, i, ots));
    }
    sum << ots.checksum_shift()
}

// The digest with its checksum behind it, whose elements are the places that a signature tells.
pub(crate) fn with_checksum(ots: OtsType, q: &Digest) -> [u8; 34]
    ensures { result ≡ q.now.0 ++ to_be_bytes w16 (checksum_of ots q.now.0) }
{
    let mut string = [0u8; 34];
    string[..32].copy_from_slice(&q.0);
    string[32..].copy_from_slice(&checksum(ots, q).to_be_bytes());
    string
}
