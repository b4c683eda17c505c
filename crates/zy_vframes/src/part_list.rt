ghost use Rattle.std.specs.Prelude.{◌≡◌, ◌++◌, IfOk, OnOk};
ghost use Rattle.zy_parts.specs.Signing.{IsSignedInRange};
ghost use Rattle.zy_parts.specs.Reports.{IsToldInRange, IsChangeInRange, IsNewInRange};
ghost use Rattle.zy_vframes.specs.ViewFrames.{IsFrameInRange};
ghost use Rattle.zy_vframes.specs.Parts.{parts_of, parts_of_told, parts_of_change, parts_of_new};

use crate::{ViewCert, ViewFrame};
use std::alloc::Global;
use zy_base::Want;
use zy_parts::{Change, New, Part, Signed, Told, push_parts};

/// Each signed part of a frame with the text that was signed: an outer part before those inside it, from the left.
pub fn parts(alloc: Global, frame: &ViewFrame) -> Result<Vec<Part>, Want>
    requires { IsFrameInRange frame.now }
    ensures { IfOk result (λ v. v.items ≡ parts_of frame.now) }
{
    let mut parts = Vec::new(alloc);
    match frame {
        ViewFrame::ViewChange(change) => push_change(alloc, change, &mut parts)?,
        ViewFrame::NewView(new) => push_new(alloc, new, &mut parts)?,
        ViewFrame::ViewConfirm(began) => parts.push(began.part(alloc)?)?,
        ViewFrame::ViewCert(ViewCert { new, begans }) => {
            push_new(alloc, new, &mut parts)?;
            push_parts(alloc, begans.as_slice(), &mut parts)?;
        }
        ViewFrame::Fetch(fetch) => parts.push(fetch.part(alloc)?)?,
        ViewFrame::State { .. } => {}
    }
    Ok(parts)
}

// The parts of a new view. After `Want` some of them may stand at the end.
fn push_new(alloc: Global, new: &Signed<New>, parts: &mut Vec<Part>) -> Result<(), Want>
    requires { IsSignedInRange IsNewInRange new.now }
    ensures { OnOk result (parts.new.items ≡ parts.old.items ++ parts_of_new new.now) }
{
    parts.push(new.part(alloc)?)?;
    for change in new.stmt.changes.as_slice() {
        push_change(alloc, change, parts)?;
    }
    Ok(())
}

// The parts of a change.
fn push_change(alloc: Global, change: &Signed<Change>, parts: &mut Vec<Part>) -> Result<(), Want>
    requires { IsSignedInRange IsChangeInRange change.now }
    ensures { OnOk result (parts.new.items ≡ parts.old.items ++ parts_of_change change.now) }
{
    parts.push(change.part(alloc)?)?;
    push_told(alloc, &change.stmt.told, parts)
}

// The parts of a report.
fn push_told(alloc: Global, told: &Told, parts: &mut Vec<Part>) -> Result<(), Want>
    requires { IsToldInRange told.now }
    ensures { OnOk result (parts.new.items ≡ parts.old.items ++ parts_of_told told.now) }
{
    push_parts(alloc, told.began.as_slice(), parts)?;
    if let Some(specs) = &told.specs {
        push_parts(alloc, specs.as_slice(), parts)?;
    }
    push_parts(alloc, told.checks.as_slice(), parts)
}
