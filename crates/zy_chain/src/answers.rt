ghost use Rattle.std.specs.Prelude.{◌≡◌};
ghost use Rattle.zy_chain.specs.Answers.{digest_of_answers};

use sha2::{Digest as Hasher, Sha256};
use zy_base::{Bytes, Digest};

/// SHA-256 (FIPS 180-4) of what an entry is answered with. Takes no memory.
pub fn answers_digest(answers: &Bytes) -> Digest
    ensures { result ≡ digest_of_answers answers.now }
{
    let mut hasher = Sha256::new();
    hasher.update(answers.as_slice());
    Digest(hasher.finalize())
}
