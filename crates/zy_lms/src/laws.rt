ghost use Rattle.std.specs.Prelude.{◌≡◌, ◌↔◌, ◌<◌, ◌^◌, ℕ, List, IsTrue};
ghost use Rattle.zy_lms.specs.Height.{levels_of, signatures_of};
ghost use Rattle.zy_lms.specs.Hss.{IsHssKey, HssVerifies, hss_public_of, hss_signature_of, hss_verified, lower_leaf, lower_leaf_in, signed_key_in, top_leaf, top_leaf_in};
ghost use Rattle.zy_lms.specs.KeyState.{KeyState, IsKey, at_leaf};
ghost use Rattle.zy_lms.specs.Lms.{public_of, signature_of, leaf_of, Verifies, verified};

/// What signatures are, as definitions see them. The test says what the standard's conditions say; and what a key with a
/// leaf left signs verifies under its public key, and tells that leaf.
pub fn signatures()
    ensures test { (public message signature : List ℕ) → IsTrue (verified public message signature) ↔ Verifies public message signature }
    ensures signed { (key : KeyState) (message : List ℕ) → IsKey key → key.next < 2 ^ levels_of key.height → IsTrue (verified (public_of key) message (signature_of key message)) }
    ensures leaf { (key : KeyState) (message : List ℕ) → IsKey key → key.next < 2 ^ levels_of key.height → leaf_of (signature_of key message) ≡ key.next }
{}

/// What signatures of two levels are, as definitions see them. The test says what the standard's conditions say; what a key with
/// a signature left signs verifies under its public key, and tells both leaves. Signatures with different numbers are never by one
/// leaf of one lower key, and under one top leaf they carry one lower key with one signature of it.
pub fn hss_signatures()
    ensures test { (public message signature : List ℕ) → IsTrue (hss_verified public message signature) ↔ HssVerifies public message signature }
    ensures signed { (key : KeyState) (message : List ℕ) → IsHssKey key → key.next < signatures_of key.height → IsTrue (hss_verified (hss_public_of key) message (hss_signature_of key message)) }
    ensures at_top_leaf { (key : KeyState) (message : List ℕ) → IsHssKey key → key.next < signatures_of key.height → top_leaf_in (hss_signature_of key message) ≡ top_leaf key }
    ensures at_lower_leaf { (key : KeyState) (message : List ℕ) → IsHssKey key → key.next < signatures_of key.height → lower_leaf_in key.height key.ots (hss_signature_of key message) ≡ lower_leaf key }
    ensures once { (key : KeyState) (a b : ℕ) → top_leaf (at_leaf key a) ≡ top_leaf (at_leaf key b) → lower_leaf (at_leaf key a) ≡ lower_leaf (at_leaf key b) → a ≡ b }
    ensures one_lower_key { (key : KeyState) (a b : ℕ) (first second : List ℕ) → IsHssKey key → a < signatures_of key.height → b < signatures_of key.height → top_leaf (at_leaf key a) ≡ top_leaf (at_leaf key b)
        → signed_key_in key.height key.ots (hss_signature_of (at_leaf key a) first) ≡ signed_key_in key.height key.ots (hss_signature_of (at_leaf key b) second) }
{}
