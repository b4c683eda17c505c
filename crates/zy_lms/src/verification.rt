// Verification of LMS signatures (RFC 8554, section 5.4.2).

ghost use Rattle.std.specs.Prelude.{◌≡◌, ◌↔◌, ◌<◌, ◌^◌, IsTrue, IsSome, IfSome, length};
ghost use Rattle.zy_ots.specs.Coef.{number_at};
ghost use Rattle.zy_ots.specs.OtsType.{number_of};
ghost use Rattle.zy_ots.specs.OneTime.{HasForm};
ghost use Rattle.zy_lms.specs.Height.{type_number_of, levels_of};
ghost use Rattle.zy_lms.specs.Lms.{Verifies, VerifiesAs, verified, signature_len_of, leaf_of, ots_part, candidate_root};

use crate::height::Height;
use crate::tree::{climb, leaf_node};
use zy_base::Digest;
use zy_ots::{OtsType, ots_recover, u32_at};

/// Whether `sig` is a signature of `message` under the public key. Takes no memory.
pub fn verify(public: &[u8; 56], message: &[u8], sig: &[u8]) -> bool
    ensures value { result ≡ verified public.now message.now sig.now }
    ensures meaning { IsTrue result ↔ Verifies public.now message.now sig.now }
{
    let height = Height::from_number(u32_at(public, 0));
    let ots = OtsType::from_number(u32_at(public, 4));
    match (height, ots) {
        (Some(height), Some(ots)) => verify_as(height, ots, public, message, sig),
        _ => false,
    }
}

// The same for a key whose types are known.
fn verify_as(height: Height, ots: OtsType, public: &[u8; 56], message: &[u8], sig: &[u8]) -> bool
    requires key_type { number_at public.now 0 ≡ type_number_of height }
    requires key_ots { number_at public.now 4 ≡ number_of ots }
    ensures { IsTrue result ↔ VerifiesAs height ots public.now message.now sig.now }
{
    let type_at = 4 + ots.signature_len();
    if sig.len() != type_at + 4 + 32 * height.levels() {
        return false;
    }
    if u32_at(sig, 0) >= height.leaf_count() || u32_at(sig, type_at) != height.number() {
        return false;
    }
    let mut id = [0u8; 16];
    id.copy_from_slice(&public[8..24]);
    match candidate_root(height, ots, &id, message, sig) {
        None => false,
        Some(root) => root.0[..] == public[24..],
    }
}

// The root that a message and a signature of the right length lead to, where the one-time signature
// has its form.
fn candidate_root(
    height: Height,
    ots: OtsType,
    id: &[u8; 16],
    message: &[u8],
    sig: &[u8],
) -> Option<Digest>
    requires len { length sig.now ≡ signature_len_of height ots }
    requires leaf { leaf_of sig.now < 2 ^ levels_of height }
    ensures form { IsSome result ↔ HasForm ots (ots_part ots sig.now) }
    ensures root { IfSome result (λ root. root.0 ≡ candidate_root height ots id.now message.now sig.now) }
{
    let type_at = 4 + ots.signature_len();
    let q = u32_at(sig, 0);
    let public = ots_recover(ots, id, q, message, &sig[4..type_at])?;
    let leaf = height.leaf_count() + q;
    let value = leaf_node(id, leaf, &public);
    Some(climb(id, height, leaf, value, &sig[type_at + 4..]))
}
