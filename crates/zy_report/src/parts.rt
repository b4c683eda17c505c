// What lines are made of.
ghost use Rattle.std.specs.Prelude.{◌≡◌, ◌++◌, OnOk};
ghost use Rattle.std.specs.Fmt.{decimal};
ghost use Rattle.hex.specs.Hex.{encode_lower};

use std::alloc::Global;
use zy_base::Want;

/// Puts a word and a number at the end.
pub(crate) fn put_number(
    alloc: Global,
    out: &mut Vec<u8>,
    word: &[u8],
    number: u64,
) -> Result<(), Want>
    ensures { OnOk result (out.new.items ≡ out.old.items ++ (word.now ++ decimal number)) }
{
    let digits = number.to_string(alloc)?;
    out.extend_from_slice(word)?;
    out.extend_from_slice(digits.as_bytes())?;
    Ok(())
}

/// Puts a word and bytes in hexadecimal at the end.
pub(crate) fn put_hex(
    alloc: Global,
    out: &mut Vec<u8>,
    word: &[u8],
    bytes: &[u8],
) -> Result<(), Want>
    ensures { OnOk result (out.new.items ≡ out.old.items ++ (word.now ++ encode_lower bytes.now)) }
{
    let digits = hex::encode(alloc, bytes)?;
    out.extend_from_slice(word)?;
    out.extend_from_slice(digits.as_bytes())?;
    Ok(())
}
