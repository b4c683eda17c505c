ghost use Rattle.std.specs.Prelude.{◌≡◌};
ghost use Rattle.zy_wire.specs.Fields.{party_bytes, IsParty};

use zy_base::{ClientId, Party, ReplicaId};

/// A party's five bytes: 0 and a replica's number, or 1 and a client's, in four bytes.
#[tactic(auto, unfolding(crate::specs::Spelling::bytes_of, crate::specs::Fields::party_bytes))]
pub fn party_array(x: Party) -> [u8; 5]
    ensures bytes { result ≡ party_bytes x }
    ensures fits { IsParty x }
{
    let (kind, number) = match x {
        Party::Replica(ReplicaId(id)) => (0, u32::from(id)),
        Party::Client(ClientId(id)) => (1, id),
    };
    let [a, b, c, d] = number.to_be_bytes();
    [kind, a, b, c, d]
}
