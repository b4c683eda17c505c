// What lines are made of.
ghost use Rattle.std.specs.Prelude.{◌≡◌, ◌++◌, OnOk};
ghost use Rattle.std.specs.Fmt.{decimal};
ghost use Rattle.hex.specs.Hex.{encode_lower};
ghost use Rattle.zy_trace.specs.Lines as spelled;

use std::alloc::Global;
use zy_base::{Party, Want};
use zy_tuple::party_text_put;

/// Puts a word and a number at the end.
pub(crate) fn put_number(
    alloc: Global,
    out: &mut Vec<u8>,
    word: &[u8],
    number: u64,
) -> Result<(), Want>
    ensures { OnOk result (out.new.items ≡ out.old.items ++ (word.now ++ decimal number)) }
{
    let digits = number.to_string(alloc)?;
    out.extend_from_slice(word)?;
    out.extend_from_slice(digits.as_bytes())?;
    Ok(())
}

/// Puts a word and a number, or a dash where there is none.
pub(crate) fn put_maybe(
    alloc: Global,
    out: &mut Vec<u8>,
    word: &[u8],
    number: Option<u64>,
) -> Result<(), Want>
    ensures { OnOk result (out.new.items ≡ out.old.items ++ (word.now ++ spelled.number_text number)) }
{
    match number {
        Some(number) => put_number(alloc, out, word, number),
        None => {
            out.extend_from_slice(word)?;
            out.extend_from_slice(b"-")?;
            Ok(())
        }
    }
}

/// Puts a word and bytes in hexadecimal at the end.
pub(crate) fn put_hex(
    alloc: Global,
    out: &mut Vec<u8>,
    word: &[u8],
    bytes: &[u8],
) -> Result<(), Want>
    ensures { OnOk result (out.new.items ≡ out.old.items ++ (word.now ++ encode_lower bytes.now)) }
{
    let digits = hex::encode(alloc, bytes)?;
    out.extend_from_slice(word)?;
    out.extend_from_slice(digits.as_bytes())?;
    Ok(())
}

/// Puts a party's name, or a dash for nobody.
pub(crate) fn put_name(alloc: Global, out: &mut Vec<u8>, party: Option<Party>) -> Result<(), Want>
    ensures { OnOk result (out.new.items ≡ out.old.items ++ spelled.name_text party) }
{
    match party {
        Some(party) => party_text_put(alloc, out, party)?,
        None => out.extend_from_slice(b"-")?,
    }
    Ok(())
}

/// Puts the number of an event, an act, and whose it is.
pub(crate) fn put_act(
    alloc: Global,
    out: &mut Vec<u8>,
    number: u64,
    act: &[u8],
    party: Option<Party>,
) -> Result<(), Want>
    ensures { OnOk result (out.new.items ≡ out.old.items ++ spelled.act_front number act.now party) }
{
    put_number(alloc, out, b"", number)?;
    out.extend_from_slice(act)?;
    put_name(alloc, out, party)
}
