//! The text of a party.

ghost use Rattle.std.specs.Prelude.{◌≡◌, ◌++◌, OnOk};
ghost use Rattle.zy_tuple.specs.Parties as parties;

use crate::numeral;
use std::alloc::Global;
use zy_base::{ClientId, Party, ReplicaId, Want};

/// The party that a word spells: `r` and a number below 2^8, or `c` and a number below 2^32.
pub fn party_text_read(word: &[u8]) -> Option<Party>
    ensures { result ≡ parties.party_of word.now }
{
    match word {
        [b'r', digits @ ..] => {
            let id = u8::try_from(numeral(digits)?).ok()?;
            Some(Party::Replica(ReplicaId(id)))
        }
        [b'c', digits @ ..] => {
            let id = u32::try_from(numeral(digits)?).ok()?;
            Some(Party::Client(ClientId(id)))
        }
        _ => None,
    }
}

/// Puts the one text of a party at the end. After `Want` nothing of it stands there.
pub fn party_text_put(alloc: Global, out: &mut Vec<u8>, party: Party) -> Result<(), Want>
    ensures { OnOk result (out.new.items ≡ out.old.items ++ parties.party_text party) }
{
    let text = match party {
        Party::Replica(ReplicaId(id)) => format!(in alloc; "r{id}")?,
        Party::Client(ClientId(id)) => format!(in alloc; "c{id}")?,
    };
    out.extend_from_slice(text.as_bytes())?;
    Ok(())
}
