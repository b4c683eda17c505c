//! Events as the records of a journal.

ghost use Rattle.std.specs.Prelude.{◌≡◌, [], ◌∷◌, None, IfOk, IfSome};
ghost use Rattle.zy_base.specs.declared.step.Event.{Event};
ghost use Rattle.zy_node.specs.Events.{event_bytes, timer_bytes};

use std::alloc::Global;
use zy_base::{Bytes, Event, TimerKind, Want};

/// What a record of a frame that was heard begins with.
const HEARD: u8 = 1;

const REQUEST: u8 = 2;

const CHANGE: u8 = 3;

/// The record of an event. The timer for answers has none.
pub(crate) fn record_of(alloc: Global, event: &Event) -> Result<Bytes, Want>
    ensures { IfOk result (λ piece. piece ≡ event_bytes event.now) }
{
    match event {
        Event::Heard(frame) => heard(alloc, frame.as_slice()),
        Event::Timer(kind) => Ok(Bytes::from(timer(alloc, *kind)?)),
    }
}

fn heard(alloc: Global, frame: &[u8]) -> Result<Bytes, Want>
    ensures { IfOk result (λ piece. piece ≡ 1 ∷ frame.now) }
{
    let mut piece = Vec::with_capacity(alloc, frame.len().checked_add(1).ok_or(Want)?)?;
    piece.push(HEARD)?;
    piece.extend_from_slice(frame)?;
    Ok(Bytes::from(piece))
}

fn timer(alloc: Global, kind: TimerKind) -> Result<Vec<u8>, Want>
    ensures { IfOk result (λ piece. piece.items ≡ timer_bytes kind) }
{
    let mut piece = Vec::new(alloc);
    match kind {
        TimerKind::Request => piece.push(REQUEST)?,
        TimerKind::Change => piece.push(CHANGE)?,
        TimerKind::Answer => {}
    }
    Ok(piece)
}

/// The event that a record spells, if it spells one. No bytes spell none.
pub(crate) fn event_of(alloc: Global, piece: &[u8]) -> Result<Option<Event>, Want>
    ensures event { IfOk result (λ event. IfSome event (λ e. event_bytes e ≡ piece.now)) }
    ensures none { IfOk result (λ event. event ≡ None → (e : Event) → event_bytes e ≡ piece.now → piece.now ≡ []) }
{
    match piece {
        [HEARD, frame @ ..] => Ok(Some(Event::Heard(Bytes::from_slice(alloc, frame)?))),
        [REQUEST] => Ok(Some(Event::Timer(TimerKind::Request))),
        [CHANGE] => Ok(Some(Event::Timer(TimerKind::Change))),
        _ => Ok(None),
    }
}
