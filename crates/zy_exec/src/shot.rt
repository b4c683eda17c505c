ghost use Rattle.std.specs.Prelude.{◌≡◌};
ghost use Rattle.zy_exec.specs.Shots.{digest_of_snapshot};

use sha2::{Digest as Hasher, Sha256};
use zy_base::{Bytes, Digest};

/// A snapshot that is kept, with its digest beside it.
#[derive(Debug, Drop)]
pub struct Shot {
    pub bytes: Bytes,
    pub digest: Digest,
}

impl Shot {
    /// The bytes with their SHA-256 (FIPS 180-4). Takes no memory.
    pub fn new(bytes: Bytes) -> Shot
        ensures { result ≡ record { bytes = bytes; digest = digest_of_snapshot bytes } }
    {
        let mut hasher = Sha256::new();
        hasher.update(bytes.as_slice());
        let digest = Digest(hasher.finalize());
        Shot { bytes, digest }
    }
}
