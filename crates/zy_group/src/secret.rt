ghost use Rattle.std.specs.Prelude.{◌≡◌, ◌≤◌, ◌+◌, ◌^◌, IsUtf8, IfOk};
ghost use Rattle.toml.specs.Parse.{parse_document};
ghost use Rattle.toml.specs.View.{table_view};
ghost use Rattle.zy_group.specs.Secret.{secret, text_secret};
ghost use Rattle.zy_group.specs.Reading.{IsRead, IsNoText};
ghost use Rattle.zy_group.specs.Fields.{count_by};

use crate::GroupFault;
use crate::fields::{height_at, id_at, next_at, seed_at, stamp_at, told_ots_at, version_at};
use crate::text::table_of;
use std::alloc::Global;
use toml::Table;
use zy_lms::Height;
use zy_ots::OtsType;

/// What the number `next` of a secret file counts.
#[derive(Clone, Copy, Debug, PartialEq, Eq)]
pub enum Version {
    /// The leaves of one LMS key, version 1.
    OneLevel,
    /// The signatures of two levels of such keys, version 2.
    TwoLevels,
}

/// What a party is told of its own key, and a client of the requests that it made.
#[derive(Clone, Copy)]
pub struct Secret {
    pub version: Version,
    /// SEED and I of the top key (RFC 8554, appendix A and section 5.3).
    pub seed: [u8; 32],
    pub id: [u8; 16],
    pub height: Height,
    pub ots: OtsType,
    /// The number of the next leaf or signature, at most how many there are.
    pub next: u32,
    /// The last stamp that the client used, at most 2^61.
    pub stamp: u64,
}

/// Reads a secret file, of whose key so many signatures must be left, none or one. Its fields are judged in this order: 11 the
/// text, which must be TOML, 19 `version`, 12 `seed`, 13 `id`, 14 `height`, 15 `ots`, 16 `next`, 17 `stamp`. Other keys are left aside.
pub fn read_secret(alloc: Global, text: &[u8], left: u32) -> Result<Secret, GroupFault>
    requires { left ≤ 1 }
    ensures read { IsUtf8 text.now → IsRead (text_secret left (parse_document text.now)) result }
    ensures no_text { ¬ IsUtf8 text.now → IsNoText 11 result }
    ensures next { IfOk result (λ secret. secret.next + left ≤ count_by secret.version secret.height) }
    ensures stamp { IfOk result (λ secret. secret.stamp ≤ 2 ^ 61) }
{
    match table_of(alloc, text, 11) {
        Ok(table) => judged(&table, left),
        Err(fault) => Err(fault),
    }
}

/// The fields behind the text.
#[tactic(auto, unfolding(crate::specs::Secret::secret))]
fn judged(table: &Table, left: u32) -> Result<Secret, GroupFault>
    requires { left ≤ 1 }
    ensures read { IsRead (secret left (table_view table.now)) result }
    ensures next { IfOk result (λ secret. secret.next + left ≤ count_by secret.version secret.height) }
    ensures stamp { IfOk result (λ secret. secret.stamp ≤ 2 ^ 61) }
{
    let Some(version) = version_at(table) else {
        return Err(GroupFault::Field(19));
    };
    let Some(seed) = seed_at(table, "seed") else {
        return Err(GroupFault::Field(12));
    };
    let Some(id) = id_at(table, "id") else {
        return Err(GroupFault::Field(13));
    };
    let Some(height) = height_at(table) else {
        return Err(GroupFault::Field(14));
    };
    let Some(ots) = told_ots_at(table) else {
        return Err(GroupFault::Field(15));
    };
    let Some(next) = next_at(table, version, height, left) else {
        return Err(GroupFault::Field(16));
    };
    let Some(stamp) = stamp_at(table) else {
        return Err(GroupFault::Field(17));
    };
    Ok(Secret {
        version,
        seed,
        id,
        height,
        ots,
        next,
        stamp,
    })
}
