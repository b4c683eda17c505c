//! The lines of a party's key.

ghost use Rattle.std.specs.Prelude.{◌≡◌, ◌++◌, codes, IfOk, OnOk};
ghost use Rattle.hex.specs.Hex.{encode_lower};
ghost use Rattle.zy_report.specs.KeyFile as file;
ghost use Rattle.zy_tuple.specs.Parties.{party_text};
ghost use Rattle.zy_report.specs.Lines as lines;

use crate::parts::put_number;
use std::alloc::Global;
use zy_base::{Bytes, Party, Stamp, Want};
use zy_tuple::party_text_put;

/// Where a client's key and stamps go on: `key next N stamp T` with a line feed. N is the number of the key's next signature.
pub fn key_line(alloc: Global, next: u32, stamp: Stamp) -> Result<Bytes, Want>
    ensures { IfOk result (λ line. line ≡ lines.key_line next stamp) }
{
    let mut line = Vec::new(alloc);
    put_number(alloc, &mut line, b"key next ", u64::from(next))?;
    put_number(alloc, &mut line, b" stamp ", stamp.0)?;
    line.push(b'\n')?;
    Ok(Bytes::from(line))
}

/// The secret file of a party's key of two levels of which no signature is spent: the file's version, its own seed and identifier, the
/// levels of each tree (5 or 10), the LM-OTS type of its one-time keys, and its public key (RFC 8554 section 6.1).
#[tactic(auto, unfolding(crate::specs::KeyFile::key_lines))]
pub fn key_lines(
    alloc: Global,
    party: Party,
    seed: &[u8; 32],
    id: &[u8; 16],
    height: u8,
    ots: u8,
    public: &[u8],
) -> Result<Bytes, Want>
    ensures { IfOk result (λ text. text ≡ file.key_lines party seed.now id.now height ots public.now) }
{
    let mut text = Vec::new(alloc);
    put_setting(alloc, &mut text, b"version", 2)?;
    put_party(alloc, &mut text, party)?;
    put_text(alloc, &mut text, b"seed", seed)?;
    put_text(alloc, &mut text, b"id", id)?;
    put_setting(alloc, &mut text, b"height", height)?;
    put_setting(alloc, &mut text, b"ots", ots)?;
    put_setting(alloc, &mut text, b"next", 0)?;
    put_setting(alloc, &mut text, b"stamp", 0)?;
    put_text(alloc, &mut text, b"public", public)?;
    Ok(Bytes::from(text))
}

fn put_party(alloc: Global, out: &mut Vec<u8>, party: Party) -> Result<(), Want>
    ensures { OnOk result (out.new.items ≡ out.old.items ++ file.text_line (codes "party") (party_text party)) }
{
    out.extend_from_slice(b"party = \"")?;
    party_text_put(alloc, out, party)?;
    out.extend_from_slice(b"\"\n")?;
    Ok(())
}

// A line with bytes in hexadecimal.
fn put_text(alloc: Global, out: &mut Vec<u8>, name: &[u8], bytes: &[u8]) -> Result<(), Want>
    ensures { OnOk result (out.new.items ≡ out.old.items ++ file.text_line name.now (encode_lower bytes.now)) }
{
    let digits = hex::encode(alloc, bytes)?;
    out.extend_from_slice(name)?;
    out.extend_from_slice(b" = \"")?;
    out.extend_from_slice(digits.as_bytes())?;
    out.extend_from_slice(b"\"\n")?;
    Ok(())
}

// A line with a number.
fn put_setting(alloc: Global, out: &mut Vec<u8>, name: &[u8], value: u8) -> Result<(), Want>
    ensures { OnOk result (out.new.items ≡ out.old.items ++ file.number_line name.now value) }
{
    let digits = value.to_string(alloc)?;
    out.extend_from_slice(name)?;
    out.extend_from_slice(b" = ")?;
    out.extend_from_slice(digits.as_bytes())?;
    out.push(b'\n')?;
    Ok(())
}
