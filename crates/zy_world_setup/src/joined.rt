//! Texts in two pieces, which are hashed as they lie.

ghost use Rattle.std.specs.Prelude.{◌≡◌, ◌++◌};
ghost use Rattle.std.specs.Int.{w16, w32, w64, to_be_bytes};
ghost use Rattle.zy_world_law.specs.Texts.{digest_of};

use sha2::{Digest as Hasher, Sha256};
use zy_base::{ClientId, Digest, Stamp};

// What stands before an entry's operation of this length: the client, the stamp and the length, each high byte first.
pub(crate) fn front_of(client: ClientId, stamp: Stamp, length: u16) -> [u8; 14]
    ensures { result ≡ to_be_bytes w32 client.0 ++ to_be_bytes w64 stamp.0 ++ to_be_bytes w16 length }
{
    let mut front = [0; 14];
    front[..4].copy_from_slice(&client.0.to_be_bytes());
    front[4..12].copy_from_slice(&stamp.0.to_be_bytes());
    front[12..].copy_from_slice(&length.to_be_bytes());
    front
}

// SHA-256 (FIPS 180-4) of both pieces in a row.
pub(crate) fn digest_joined(front: &[u8], rest: &[u8]) -> Digest
    ensures { result ≡ digest_of (front.now ++ rest.now) }
{
    let mut hasher = Sha256::new();
    hasher.update(front);
    hasher.update(rest);
    Digest(hasher.finalize())
}
