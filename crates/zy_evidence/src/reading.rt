ghost use Rattle.std.specs.Prelude.{◌≡◌, ◌<◌, ◌^◌, IfOk, OnOk, option_map};
ghost use Rattle.zy_chain.specs.Entries.{IsEntryInRange};
ghost use Rattle.zy_chain.specs.Stretch.{end_of, with_entry};
ghost use Rattle.zy_choose.specs.Marks.{mark_of};
ghost use Rattle.zy_parts.specs.Reports.{IsToldInRange};
ghost use Rattle.zy_evidence.specs.Reading.{stretch_of, spec_of, read_by};

use std::alloc::Global;
use zy_base::{Digest, Items, Place, ReplicaId, Want};
use zy_chain::{Entry, Spine};
use zy_choose::Report;
use zy_parts::{Signed, Spec, Told};

/// The report of a replica as the choice reads it. Its entries are copied.
pub fn read(alloc: Global, by: ReplicaId, told: &Told) -> Result<Report, Want>
    requires { IsToldInRange told.now }
    ensures { IfOk result (λ r. r ≡ read_by by.0 told.now) }
{
    Ok(Report {
        by,
        last_view: told.last_view,
        began: (told.began_place, told.began_head),
        cc: spec_mark(&told.specs),
        stable: (
            told.stable_view,
            told.stable_place,
            told.stable_head,
            told.state,
        ),
        spine: spine_of(alloc, told)?,
    })
}

// Where the first of the responses stands.
fn spec_mark(specs: &Option<Items<Signed<Spec>>>) -> Option<(Place, Digest)>
    ensures { option_map mark_of result ≡ spec_of specs.now }
{
    let first = specs.as_ref()?.as_slice().first()?;
    Some((first.stmt.place, first.stmt.head))
}

// The entries above the stable place.
fn spine_of(alloc: Global, told: &Told) -> Result<Spine, Want>
    requires { IsToldInRange told.now }
    ensures { IfOk result (λ s. s ≡ stretch_of told.now) }
{
    let mut spine = Spine::new(alloc, told.stable_place, told.stable_head);
    for entry in told.entries.as_slice() {
        push_copy(&mut spine, entry)?;
    }
    Ok(spine)
}

fn push_copy(spine: &mut Spine, entry: &Entry) -> Result<(), Want>
    requires room { end_of spine.old < 2 ^ 63 }
    requires entry { IsEntryInRange entry.now }
    ensures { OnOk result (spine.new ≡ with_entry spine.old entry.now) }
{
    match spine.push(entry.clone()?) {
        Ok(()) => Ok(()),
        Err((_, want)) => Err(want),
    }
}
