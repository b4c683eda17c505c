//! The lines of a run's events.

ghost use Rattle.std.specs.Prelude.{◌≡◌, ◌++◌, IfOk, OnOk};
ghost use Rattle.std.specs.Fmt.{decimal};
ghost use Rattle.zy_report.specs.Lines as lines;

use crate::parts::put_number;
use std::alloc::Global;
use zy_base::{Bytes, Cause, ClientId, Party, Place, Stamp, View, Want};
use zy_tuple::party_text_put;

/// A client's ask is complete: `K done cC stamp T view V place N fast REPLY`, or `slow`, with a line feed. K is the
/// number of the event, and without one the line begins with `done`. The reply is given by its text.
pub fn done_line(
    alloc: Global,
    event: Option<u64>,
    client: ClientId,
    stamp: Stamp,
    view: View,
    place: Place,
    fast: bool,
    reply: &[u8],
) -> Result<Bytes, Want>
    ensures { IfOk result (λ line. line ≡ lines.done_line event client stamp view place fast reply.now) }
{
    let mut line = Vec::new(alloc);
    put_event(alloc, &mut line, event)?;
    put_number(alloc, &mut line, b"done c", u64::from(client.0))?;
    put_number(alloc, &mut line, b" stamp ", stamp.0)?;
    put_number(alloc, &mut line, b" view ", view.0)?;
    put_number(alloc, &mut line, b" place ", place.0)?;
    line.extend_from_slice(path_text(fast))?;
    line.extend_from_slice(reply)?;
    line.push(b'\n')?;
    Ok(Bytes::from(line))
}

fn put_event(alloc: Global, out: &mut Vec<u8>, event: Option<u64>) -> Result<(), Want>
    ensures { OnOk result (out.new.items ≡ out.old.items ++ lines.event_front event) }
{
    if let Some(event) = event {
        put_number(alloc, out, b"", event)?;
        out.push(b' ')?;
    }
    Ok(())
}

fn path_text(fast: bool) -> &'static [u8]
    ensures { result.now ≡ lines.path_text fast }
{
    if fast { b" fast " } else { b" slow " }
}

/// What an event asked for was refused: `K refused PARTY NUMBER NAME` with a line feed, where PARTY is `world` for
/// an event that no party heard.
pub fn refused_line(
    alloc: Global,
    event: u64,
    party: Option<Party>,
    cause: &Cause,
) -> Result<Bytes, Want>
    ensures { IfOk result (λ line. line ≡ lines.refused_line event party cause.now) }
{
    let mut line = Vec::new(alloc);
    put_number(alloc, &mut line, b"", event)?;
    line.extend_from_slice(b" refused ")?;
    put_place(alloc, &mut line, party)?;
    put_number(alloc, &mut line, b" ", u64::from(cause.number()))?;
    line.push(b' ')?;
    line.extend_from_slice(cause.name().as_bytes())?;
    line.push(b'\n')?;
    Ok(Bytes::from(line))
}

// Who refused it.
fn put_place(alloc: Global, out: &mut Vec<u8>, party: Option<Party>) -> Result<(), Want>
    ensures { OnOk result (out.new.items ≡ out.old.items ++ lines.place_name party) }
{
    match party {
        Some(party) => party_text_put(alloc, out, party)?,
        None => out.extend_from_slice(b"world")?,
    }
    Ok(())
}
