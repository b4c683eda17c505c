ghost use Rattle.std.specs.Prelude.{◌≡◌, ◌++◌, OnOk, IfOk};
ghost use Rattle.zy_wire.specs.Fields.{optional, FitsOptional};
ghost use Rattle.zy_wire.specs.Getting.{Gets};

use crate::{Cut, GetFault, Put, Spelled};
use std::alloc::Global;
use zy_base::Want;

/// Writes a flag of 0 or 1, and behind 1 the value. After `Want` some of the bytes may stand at the end.
#[tactic(auto, unfolding(crate::specs::Fields::optional_bytes))]
pub fn put_optional<T: Spelled>(value: &Option<T>, out: &mut Put) -> Result<(), Want>
    requires { FitsOptional T.in_range value.now }
    ensures { OnOk result ((optional T.spelling).Fits value.now × (out.new ≡ out.old ++ (optional T.spelling).spell value.now)) }
{
    match value {
        None => out.u8(0),
        Some(value) => {
            out.u8(1)?;
            value.put(out)
        }
    }
}

/// Reads a flag, and a value where it is 1. A refusal leaves all the bytes.
#[tactic(auto, unfolding(crate::specs::Fields::optional_at))]
pub fn get_optional<T: Spelled>(alloc: Global, cut: &mut Cut<'_>) -> Result<Option<T>, GetFault>
    ensures read { Gets (optional T.spelling) cut.old result cut.new }
    ensures in_range { IfOk result (FitsOptional T.in_range) }
{
    let mut ahead = cut.ahead();
    let value = if ahead.flag()? {
        Some(T::get(alloc, &mut ahead)?)
    } else {
        None
    };
    *cut = ahead;
    Ok(value)
}
