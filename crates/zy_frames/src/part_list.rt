ghost use Rattle.std.specs.Prelude.{◌≡◌, IfOk};
ghost use Rattle.zy_frames.specs.Frames.{IsFrameInRange, parts_of};

use crate::{Frame, OrderFrame};
use std::alloc::Global;
use zy_base::Want;
use zy_parts::{Part, push_parts};

/// Each signed part of a frame, from the left, with the text that was signed.
pub fn parts(alloc: Global, frame: &Frame) -> Result<Vec<Part>, Want>
    requires { IsFrameInRange frame.now }
    ensures { IfOk result (λ v. v.items ≡ parts_of frame.now) }
{
    let mut parts = Vec::new(alloc);
    match frame {
        Frame::Request(ask) => parts.push(ask.part(alloc)?)?,
        Frame::Order(OrderFrame { order, ask }) => {
            parts.push(order.part(alloc)?)?;
            parts.push(ask.part(alloc)?)?;
        }
        Frame::SpecResponse { spec, order, .. } => {
            parts.push(spec.part(alloc)?)?;
            if let Some(order) = order {
                parts.push(order.part(alloc)?)?;
            }
        }
        Frame::Commit(specs) => push_parts(alloc, specs.as_slice(), &mut parts)?,
        Frame::LocalCommit(local) => parts.push(local.part(alloc)?)?,
        Frame::ConfirmReq { confirm, ask } => {
            parts.push(confirm.part(alloc)?)?;
            parts.push(ask.part(alloc)?)?;
        }
        Frame::FillHole(hole) => parts.push(hole.part(alloc)?)?,
        Frame::Hate(hate) => parts.push(hate.part(alloc)?)?,
        Frame::Pom(first, second) => {
            parts.push(first.part(alloc)?)?;
            parts.push(second.part(alloc)?)?;
        }
        Frame::Checkpoint(check) => parts.push(check.part(alloc)?)?,
    }
    Ok(parts)
}
