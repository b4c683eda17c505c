//! What else is known of keys: how many signatures one gives, how long each of them is, and which number it tells.

ghost use Rattle.std.specs.Prelude.{◌≡◌, ◌≤◌, ◌^◌};
ghost use Rattle.zy_lms.specs.Height.{levels_of};
ghost use Rattle.zy_lms.specs.Lms.{signature_len_of};
ghost use Rattle.zy_seal.specs.Sealing.{signatures_by, signature_size, number_by, number_of_leaves, number_there, number_told};

use zy_lms::Height;
use zy_ots::{OtsType, u32_at};

/// How many signatures a key of this height gives.
pub fn signature_count(height: Height) -> u32
    ensures { result ≡ signatures_by height }
{
    height.signature_count()
}

/// The length in bytes of each signature by a key of these types (RFC 8554, section 6.2), at most 5,076.
#[tactic(auto, using(crate::proofs::SignatureLemmas::few_bytes))]
pub fn signature_len(height: Height, ots: OtsType) -> usize
    ensures len { result ≡ signature_size height ots }
    ensures few { result ≤ 5076 }
{
    60 + 2 * level_len(height, ots)
}

// The length in bytes of a signature by one level (section 5.4).
fn level_len(height: Height, ots: OtsType) -> usize
    ensures len { result ≡ signature_len_of height ots }
    ensures few { result ≤ 2508 }
{
    8 + ots.signature_len() + 32 * height.levels()
}

/// The number that a signature tells, of those that its key gives (RFC 8554, sections 5.4 and 6.2). None where it tells no types that
/// are spoken here, is too short to tell a number, or tells a leaf that its trees don't have.
pub fn signature_number(signature: &[u8]) -> Option<u32>
    ensures { result ≡ number_told signature.now }
{
    let ots = OtsType::from_number(number_there(signature, 8)?)?;
    let height = Height::from_number(number_there(signature, 8 + ots.signature_len())?)?;
    number_by(height, ots, signature)
}

// The same, where the top signature tells these types.
fn number_by(height: Height, ots: OtsType, signature: &[u8]) -> Option<u32>
    ensures { result ≡ number_by height ots signature.now }
{
    let lower = number_there(signature, 60 + level_len(height, ots))?;
    number_of_leaves(height, u32_at(signature, 4), lower)
}

#[tactic(auto, using(crate::proofs::SignatureLemmas::leaves_fit))]
fn number_of_leaves(height: Height, top: u32, lower: u32) -> Option<u32>
    ensures { result ≡ number_of_leaves (2 ^ levels_of height) top lower }
{
    let leaves = height.leaf_count();
    if top < leaves && lower < leaves {
        Some(top * leaves + lower)
    } else {
        None
    }
}

// The number in the four bytes at this place, if they are there.
fn number_there(bytes: &[u8], place: usize) -> Option<u32>
    requires { place ≤ 4096 }
    ensures { result ≡ number_there bytes.now place }
{
    if place + 4 <= bytes.len() {
        Some(u32_at(bytes, place))
    } else {
        None
    }
}
