//! The lines at the end of a run.

ghost use Rattle.std.specs.Prelude.{◌≡◌, ◌++◌, IfOk, OnOk, option_copied};
ghost use Rattle.zy_report.specs.Lines as lines;

use crate::parts::{put_hex, put_number};
use std::alloc::Global;
use zy_base::{Bytes, Digest, Mode, Place, ReplicaId, Stood, Want};

/// The list of what clients count as complete: `agreed N HEX` with a line feed, its length and its head.
pub fn agreed_line(alloc: Global, place: Place, head: &Digest) -> Result<Bytes, Want>
    ensures { IfOk result (λ line. line ≡ lines.agreed_line place head.now) }
{
    let mut line = Vec::new(alloc);
    put_number(alloc, &mut line, b"agreed ", place.0)?;
    put_hex(alloc, &mut line, b" ", &head.0)?;
    line.push(b'\n')?;
    Ok(Bytes::from(line))
}

/// Where a replica stands at the end, with a line feed: `rI active V length N head HEX state HEX`, or `leaving` for
/// `active`. Without a place where it stands it is `rI liar`, and its state isn't told.
pub fn replica_line(
    alloc: Global,
    id: ReplicaId,
    stood: Option<&Stood>,
    state: &Digest,
) -> Result<Bytes, Want>
    ensures { IfOk result (λ line. line ≡ lines.replica_line id (option_copied stood.entry) state.now) }
{
    let mut line = Vec::new(alloc);
    put_number(alloc, &mut line, b"r", u64::from(id.0))?;
    match stood {
        None => line.extend_from_slice(b" liar\n")?,
        Some(stood) => put_stood(alloc, &mut line, stood, state)?,
    }
    Ok(Bytes::from(line))
}

fn put_stood(alloc: Global, out: &mut Vec<u8>, stood: &Stood, state: &Digest) -> Result<(), Want>
    ensures { OnOk result (out.new.items ≡ out.old.items ++ lines.stood_text stood.now state.now) }
{
    put_number(alloc, out, mode_text(stood.mode), stood.mode.view().0)?;
    put_number(alloc, out, b" length ", stood.length.0)?;
    put_hex(alloc, out, b" head ", &stood.head.0)?;
    put_hex(alloc, out, b" state ", &state.0)?;
    out.push(b'\n')?;
    Ok(())
}

fn mode_text(mode: Mode) -> &'static [u8]
    ensures { result.now ≡ lines.mode_text mode }
{
    match mode {
        Mode::Active(_) => b" active ",
        Mode::Leaving(_) => b" leaving ",
    }
}
