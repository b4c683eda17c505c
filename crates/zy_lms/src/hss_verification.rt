// Verification of signatures of two levels (RFC 8554, section 6.3).

ghost use Rattle.std.specs.Prelude.{◌≡◌, ◌↔◌, ◌+◌, ◌≤◌, IsTrue, IfSome, drop, length};
ghost use Rattle.zy_lms.specs.Hss.{HssVerifies, hss_verified, len_under, verified_below, verified_in_parts};

use crate::height::Height;
use crate::hss::LEVELS;
use crate::lower::{PUBLIC_LEN, SIGNED_KEYS};
use crate::verification::verify;
use zy_ots::{OtsType, u32_at};

/// Whether `sig` is a signature of `message` under the public key of two levels. Takes no memory.
pub fn hss_verify(public: &[u8; 60], message: &[u8], sig: &[u8]) -> bool
    ensures value { result ≡ hss_verified public.now message.now sig.now }
    ensures meaning { IsTrue result ↔ HssVerifies public.now message.now sig.now }
{
    if u32_at(public, 0) != LEVELS {
        return false;
    }
    let mut top = [0u8; 56];
    top.copy_from_slice(&public[4..]);
    match signature_len(&top) {
        Some(len) => verify_below(len, &top, message, sig),
        None => false,
    }
}

// The length of signatures under an LMS public key, where it tells types that are spoken here.
fn signature_len(public: &[u8; 56]) -> Option<usize>
    ensures value { result ≡ len_under public.now }
    ensures short { IfSome result (λ len. len ≤ 2508) }
{
    let height = Height::from_number(u32_at(public, 0));
    let ots = OtsType::from_number(u32_at(public, 4));
    match (height, ots) {
        (Some(height), Some(ots)) => Some(height.signature_len(ots)),
        _ => None,
    }
}

// Whether the signature is good under a top key whose signatures have this length.
fn verify_below(len: usize, top: &[u8; 56], message: &[u8], sig: &[u8]) -> bool
    requires { len ≤ 2508 }
    ensures { result ≡ verified_below (Some len) top.now message.now sig.now }
{
    if sig.len() < 4 + len + PUBLIC_LEN || u32_at(sig, 0) != SIGNED_KEYS {
        return false;
    }
    let (_, parts) = sig.split_at(4);
    verify_parts(len, top, message, parts)
}

// Whether the top key signed a lower key, and that the message.
fn verify_parts(len: usize, top: &[u8; 56], message: &[u8], parts: &[u8]) -> bool
    requires long { len + 56 ≤ length parts.now }
    ensures { result ≡ verified_in_parts len top.now message.now parts.now }
{
    let (signature, behind) = parts.split_at(len);
    let (public, lower_signature) = behind.split_at(PUBLIC_LEN);
    let mut lower = [0u8; 56];
    lower.copy_from_slice(public);
    verify(top, &lower, signature) && verify(&lower, message, lower_signature)
}
