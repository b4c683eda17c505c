ghost use Rattle.std.specs.Prelude.{◌≡◌};
ghost use Rattle.zy_chain.specs.Entries.{digest_of_entry, newer};
ghost use Rattle.zy_parts.specs.Signing.{IsSignedInRange};
ghost use Rattle.zy_parts.specs.Statements.{IsAskInRange};
ghost use Rattle.zy_admit.specs.Judging.{asking, entry_of, judge_fresh, judge_at_end};

use zy_base::{Cause, ClientId, Digest, Party, Place, Stamp};
use zy_chain::{next_head, request_digest};
use zy_parts::{Ask, Order, Signed};

/// Where a replica stands when an order comes.
#[derive(Clone, Copy, Debug, PartialEq, Eq)]
pub struct Position {
    /// The place of its last entry.
    pub end: Place,
    /// The head there.
    pub head: Digest,
    /// The last place that may be ordered.
    pub window: Place,
    /// The stamp of the last entry of the request's client.
    pub last: Option<Stamp>,
}

/// What is due to an order.
#[derive(Clone, Copy, Debug, PartialEq, Eq)]
pub enum Admit {
    /// It is executed now.
    Next,
    /// It is kept until the orders before it have come.
    Held,
    Refused(Cause),
    /// The primary has ordered something else for this place before.
    Evidence,
}

// An order for a place where none is kept.
pub(crate) fn judge_new(order: &Order, ask: &Signed<Ask>, now: &Position) -> Admit
    requires ask { IsSignedInRange IsAskInRange ask.now }
    ensures { result ≡ judge_fresh order.now (entry_of ask.now) now.now }
{
    if order.place <= now.end {
        return Admit::Refused(Cause::OldPlace);
    }
    if order.place > now.window {
        return Admit::Refused(Cause::WindowFull(now.window));
    }
    let request = request_digest_of(ask);
    if order.request != request {
        return Admit::Refused(Cause::Unmatched);
    }
    if order.place.0 > now.end.0 + 1 {
        return Admit::Held;
    }
    judge_next(order, ask, now, &request)
}

// An order for the next place, of a request with this digest.
fn judge_next(order: &Order, ask: &Signed<Ask>, now: &Position, request: &Digest) -> Admit
    requires { request.now ≡ digest_of_entry (entry_of ask.now) }
    ensures { result ≡ judge_at_end order.now (entry_of ask.now) now.now }
{
    if order.head != next_head(&now.head, request) {
        return Admit::Refused(Cause::WrongHead);
    }
    if is_newer(ask.stmt.stamp, now.last) {
        Admit::Next
    } else {
        Admit::Refused(Cause::OldStamp)
    }
}

/// Whether a stamp is above the last one that was executed.
pub fn is_newer(stamp: Stamp, last: Option<Stamp>) -> bool
    ensures { result ≡ newer stamp last }
{
    match last {
        Some(last) => last < stamp,
        None => true,
    }
}

/// The digest of the entry that a request asks for.
pub fn request_digest_of(ask: &Signed<Ask>) -> Digest
    requires { IsSignedInRange IsAskInRange ask.now }
    ensures { result ≡ digest_of_entry (entry_of ask.now) }
{
    request_digest(client_of(ask.by), ask.stmt.stamp, ask.stmt.op.as_slice())
}

/// The number of the client that signed a request.
pub fn client_of(by: Party) -> ClientId
    ensures { result ≡ asking by }
{
    match by {
        Party::Client(client) => client,
        Party::Replica(id) => ClientId(id.0 as u32),
    }
}
