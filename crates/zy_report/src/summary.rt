//! The line that sums up a run.

ghost use Rattle.std.specs.Prelude.{◌≡◌, IfOk};
ghost use Rattle.zy_report.specs.Lines as lines;

use crate::parts::put_number;
use std::alloc::Global;
use zy_base::{Bytes, Want};

/// What a run came to: `asks A events E done D fast X slow Y refused R` with a line feed. So many asks were made, so many
/// events happened, so many asks were completed, X of them on a fast and Y on a slow path, and R events were refused.
pub fn summary_line(
    alloc: Global,
    asks: u64,
    events: u64,
    done: u64,
    fast: u64,
    slow: u64,
    refused: u64,
) -> Result<Bytes, Want>
    ensures { IfOk result (λ line. line ≡ lines.summary_line asks events done fast slow refused) }
{
    let mut line = Vec::new(alloc);
    put_number(alloc, &mut line, b"asks ", asks)?;
    put_number(alloc, &mut line, b" events ", events)?;
    put_number(alloc, &mut line, b" done ", done)?;
    put_number(alloc, &mut line, b" fast ", fast)?;
    put_number(alloc, &mut line, b" slow ", slow)?;
    put_number(alloc, &mut line, b" refused ", refused)?;
    line.push(b'\n')?;
    Ok(Bytes::from(line))
}
