// The secret file of a party's key.
ghost use Rattle.std.specs.Prelude.{◌≡◌, IfOk};
ghost use Rattle.zy_top.specs.Keys as file;

use std::alloc::Global;
use zy_base::{Bytes, Party, Want};
use zy_lms::{Height, HssKey};
use zy_ots::OtsType;
use zy_report::key_lines;
use zy_seal::{party_id, party_seed};

/// The secret file of the party's key, made from the seed of its group, of which no signature is spent.
#[tactic(auto, unfolding(crate::specs::Keys::key_file))]
pub(crate) fn key_file(
    alloc: Global,
    seed: &[u8; 32],
    by: Party,
    height: Height,
) -> Result<Bytes, Want>
    ensures { IfOk result (λ text. text ≡ file.key_file seed.now by height) }
{
    let own = party_seed(seed, by);
    let id = party_id(seed, by);
    let key = HssKey::make(alloc, &own, &id, height, OtsType::W4, 0)?;
    let levels = height.levels() as u8;
    key_lines(alloc, by, &own, &id, levels, 3, &key.public())
}
