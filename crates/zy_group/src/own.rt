ghost use Rattle.std.specs.Prelude.{◌≡◌, ◌≢◌, ◌≤◌, ◌+◌, ◌*◌, ◌^◌, IfOk, None};
ghost use Rattle.zy_group.specs.Fields.{count_by};
ghost use Rattle.zy_group.specs.Own.{is_own, key_state, own_key};
ghost use Rattle.zy_group.specs.Reading.{IsRead};
ghost use Rattle.zy_lms.specs.Height.{levels_of};
ghost use Rattle.zy_seal.specs.Keys.{key_of};
ghost use Rattle.zy_seal.specs.Sealing.{signatures_by};

use crate::{GroupFault, Secret, Version};
use std::alloc::Global;
use zy_base::{Party, Want};
use zy_lms::{HssKey, LmsKey};
use zy_seal::Directory;

/// The key of a party of the group, by its secret; one of a single level is migrated. This judges field 18: the group has the party,
/// and its key there is the public key of the secret.
#[tactic(auto, using(crate::proofs::CountLemmas::number_left))]
pub fn own_key(
    alloc: Global,
    party: Party,
    keys: &Directory,
    secret: &Secret,
) -> Result<HssKey, GroupFault>
    requires { secret.now.next ≤ count_by secret.now.version secret.now.height }
    ensures read { IsRead (own_key party keys.now secret.now) result }
    ensures member { IfOk result (λ _. key_of keys.now party ≢ None) }
    ensures left { IfOk result (λ key. secret.now.next + 1 ≤ count_by secret.now.version secret.now.height → key.next + 1 ≤ signatures_by key.height) }
{
    let Some(public) = keys.key(party) else {
        return Err(GroupFault::Field(18));
    };
    let key = key_of(alloc, secret)?;
    if is_own(public, &key) {
        Ok(key)
    } else {
        Err(GroupFault::Field(18))
    }
}

fn key_of(alloc: Global, secret: &Secret) -> Result<HssKey, Want>
    requires { secret.now.next ≤ count_by secret.now.version secret.now.height }
    ensures { IfOk result (λ key. key ≡ key_state secret.now) }
{
    match secret.version {
        Version::OneLevel => migrated(alloc, secret),
        Version::TwoLevels => HssKey::make(
            alloc,
            &secret.seed,
            &secret.id,
            secret.height,
            secret.ots,
            secret.next,
        ),
    }
}

// The key of two levels whose top key is the secret's, which may have signed with the leaves before the next.
fn migrated(alloc: Global, secret: &Secret) -> Result<HssKey, Want>
    requires { secret.now.next ≤ 2 ^ levels_of secret.now.height }
    ensures { IfOk result (λ key. key ≡ record (key_state secret.now) { next = secret.now.next * 2 ^ levels_of secret.now.height }) }
{
    let top = LmsKey::make(
        alloc,
        &secret.seed,
        &secret.id,
        secret.height,
        secret.ots,
        secret.next,
    )?;
    match HssKey::migrate(top) {
        Ok(key) => Ok(key),
        Err((_, want)) => Err(want),
    }
}

fn is_own(public: &[u8; 60], key: &HssKey) -> bool
    ensures { result ≡ is_own public.now key.now }
{
    public.as_slice() == key.public().as_slice()
}
