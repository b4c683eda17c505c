ghost use Rattle.std.specs.Prelude.{◌≡◌, ◌∷◌, ◌++◌};
ghost use Rattle.sha2.specs.Sha256.{sha256};
ghost use Rattle.zy_wire.specs.Fields.{party_bytes};
ghost use Rattle.zy_seal.specs.Derived.{seed_of, id_of};

use sha2::{Digest, Sha256};
use zy_base::Party;
use zy_wire::party_array;

// SHA-256 of a byte, a seed and a party's bytes.
fn derived(purpose: u8, seed: &[u8; 32], by: Party) -> [u8; 32]
    ensures { result ≡ sha256 (purpose ∷ seed.now ++ party_bytes by) }
{
    let mut hasher = Sha256::new();
    hasher.update(&[purpose]);
    hasher.update(seed);
    hasher.update(&party_array(by));
    hasher.finalize()
}

/// The secret seed of a party's key, from the seed of its group.
pub fn party_seed(seed: &[u8; 32], by: Party) -> [u8; 32]
    ensures { result ≡ seed_of seed.now by }
{
    derived(1, seed, by)
}

/// The identifier I of a party's key (RFC 8554, section 3.2), from the seed of its group.
pub fn party_id(seed: &[u8; 32], by: Party) -> [u8; 16]
    ensures { result ≡ id_of seed.now by }
{
    let mut id = [0; 16];
    id.copy_from_slice(&derived(2, seed, by)[..16]);
    id
}
