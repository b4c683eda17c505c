//! What an entry is answered with, and what is said of its place.

ghost use Rattle.std.specs.Prelude.{◌≡◌, option_copied};
ghost use Rattle.zy_table.specs.Running.{spec_of as spec_for};
ghost use Rattle.zy_table.specs.Gathering.{own_with as own_by, spec_at as spec_by, own_from as own_by_parts};
ghost use Rattle.zy_admit.specs.Judging.{entry_of};

use zy_admit::client_of;
use zy_base::{Bytes, Digest, Place, View};
use zy_chain::{Entry, answers_digest};
use zy_exec::Known;
use zy_parts::{Ask, Check, Signed, Spec};
use zy_table::OwnCheckpoint;

/// What an executed entry is answered with.
pub fn spec_of(view: View, ask: &Signed<Ask>, known: &Known) -> Spec
    ensures { result ≡ spec_for view.0 (entry_of ask.now) known.now }
{
    Spec {
        view,
        place: known.place,
        head: known.head,
        reply: answers_digest(&known.reply),
        client: client_of(ask.by),
        stamp: known.stamp,
    }
}

/// A response, and the checkpoint that goes with it where the snapshot has this digest.
pub fn own_with(spec: Spec, state: Digest) -> OwnCheckpoint
    ensures { result ≡ own_by spec state }
{
    OwnCheckpoint {
        spec,
        check: Check {
            view: spec.view,
            place: spec.place,
            head: spec.head,
            state,
        },
    }
}

fn spec_at(view: View, place: Place, entry: &Entry, head: Digest, reply: &Bytes) -> Spec
    ensures { result ≡ spec_by view.0 place.0 entry.now head reply.now }
{
    Spec {
        view,
        place,
        head,
        reply: answers_digest(reply),
        client: entry.client,
        stamp: entry.stamp,
    }
}

// What the history says of a place, by what it has there.
pub(crate) fn own_from(
    view: View,
    place: Place,
    entry: Option<&Entry>,
    head: Option<Digest>,
    reply: Option<&Bytes>,
    state: Option<Digest>,
) -> Option<OwnCheckpoint>
    ensures { result ≡ own_by_parts view.0 place.0 (option_copied entry.entry) head (option_copied reply.entry) state }
{
    let entry = entry?;
    let head = head?;
    let reply = reply?;
    let state = state?;
    Some(own_with(spec_at(view, place, entry, head, reply), state))
}
