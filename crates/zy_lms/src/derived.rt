// What a lower key is made from. Its choice is the signer's (RFC 8554, section 6.1).

ghost use Rattle.std.specs.Prelude.{◌≡◌, ◌∷◌, ◌++◌};
ghost use Rattle.std.specs.Int.{w32, to_be_bytes};
ghost use Rattle.sha2.specs.Sha256.{sha256};
ghost use Rattle.zy_lms.specs.Hss.{id_under, seed_under};

use sha2::{Digest, Sha256};

/// The secret seed of the lower key under a leaf, from the top key's seed.
pub(crate) fn seed_under(seed: &[u8; 32], leaf: u32) -> [u8; 32]
    ensures { result ≡ seed_under seed.now leaf }
{
    derived(3, seed, leaf)
}

/// The identifier of the lower key under a leaf, from the top key's seed.
pub(crate) fn id_under(seed: &[u8; 32], leaf: u32) -> [u8; 16]
    ensures { result ≡ id_under seed.now leaf }
{
    let mut id = [0; 16];
    id.copy_from_slice(&derived(4, seed, leaf)[..16]);
    id
}

// SHA-256 of a byte, a seed and a leaf's number.
fn derived(purpose: u8, seed: &[u8; 32], leaf: u32) -> [u8; 32]
    ensures { result ≡ sha256 (purpose ∷ seed.now ++ to_be_bytes w32 leaf) }
{
    let mut hasher = Sha256::new();
    hasher.update(&[purpose]);
    hasher.update(seed);
    hasher.update(&leaf.to_be_bytes());
    hasher.finalize()
}
