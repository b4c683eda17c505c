// Bytes that are written piece by piece.
ghost use Rattle.std.specs.Prelude.{◌≢◌};
ghost use Rattle.zy_edge.specs.Faults.{IsCounted};
ghost use Rattle.zy_top_words.specs.Calls.{IsSent, stops_writing};

use crate::Exit;
use zy_edge::{Sink, Wrote};

/// Writes all of them, unless the sink fails.
pub fn write_all<S: Sink>(out: &mut S, bytes: &[u8]) -> Result<(), Exit>
    ensures written { IsSent (S.taken out.old) (S.taken out.new) bytes.now result }
    ensures count { IsCounted (stops_writing result) (S.faults out.old) (S.faults out.new) }
    ensures no_memory { result ≢ Err Exit.Want }
{
    let mut rest = bytes;
    'pieces: while !rest.is_empty() {
        match out.write(rest) {
            Wrote::Took(len) => rest = &rest[len..],
            Wrote::Failed => return Err(Exit::WriteFault),
        }
    }
    Ok(())
}
