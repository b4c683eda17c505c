// Whose journal a file holds.
ghost use Rattle.std.specs.Prelude.{◌≡◌, length};
ghost use Rattle.zy_top_hosting.specs.Identity as identity;

use sha2::{Digest as Hasher, Sha256};
use zy_base::{Digest, Party, ReplicaId};
use zy_wire::party_array;

/// SHA-256 of the SHA-256 of a group's file, that of a secret's, and the replica's five bytes. Takes no memory.
pub(crate) fn identity_of(id: ReplicaId, group: &[u8], secret: &[u8]) -> Digest
    ensures digest { result ≡ identity.identity_of id group.now secret.now }
    ensures size { length result.0 ≡ 32 }
{
    let mut hasher = Sha256::new();
    hasher.update(&Sha256::digest(group));
    hasher.update(&Sha256::digest(secret));
    hasher.update(&party_array(Party::Replica(id)));
    Digest(hasher.finalize())
}
