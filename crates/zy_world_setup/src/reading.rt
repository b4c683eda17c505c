//! Frames that are heard, of normal operation or of a change of view.

ghost use Rattle.std.specs.Prelude.{◌≡◌, Err, IfOk};
ghost use Rattle.std.specs.Option.{ForSome};
ghost use Rattle.zy_world_law.specs.Reading.{any_frame_in, either_read, parts_of, view_read};
ghost use Rattle.zy_world_setup.specs.Reading.{IsInRange};
ghost use Rattle.zy_vframes.specs.ViewFrames as views;

use std::alloc::Global;
use zy_base::{FrameFault, Want};
use zy_frames::DecodeFault;
use zy_parts::Part;
use zy_table::AnyFrame;

/// The frame that all of the bytes spell, if they spell one.
pub fn read_frame(alloc: Global, bytes: &[u8]) -> Result<Option<AnyFrame>, Want>
    ensures value { IfOk result (λ frame. frame ≡ any_frame_in bytes.now) }
    ensures in_range { IfOk result (λ frame. ForSome frame IsInRange) }
{
    match zy_frames::decode(alloc, bytes) {
        Ok(frame) => Ok(Some(AnyFrame::Plain(frame))),
        Err(DecodeFault::Frame(fault)) => read_not_plain(alloc, bytes, fault),
        Err(DecodeFault::Want) => Err(Want),
    }
}

// What is no frame of normal operation by its kind may be one of a change of view.
fn read_not_plain(alloc: Global, bytes: &[u8], fault: FrameFault) -> Result<Option<AnyFrame>, Want>
    ensures value { IfOk result (λ frame. frame ≡ either_read bytes.now (Err fault)) }
    ensures in_range { IfOk result (λ frame. ForSome frame IsInRange) }
{
    match fault {
        FrameFault::Kind => read_view_frame(alloc, bytes),
        FrameFault::Short
        | FrameFault::Version
        | FrameFault::TooLong
        | FrameFault::Trailing
        | FrameFault::Range => Ok(None),
    }
}

fn read_view_frame(alloc: Global, bytes: &[u8]) -> Result<Option<AnyFrame>, Want>
    ensures value { IfOk result (λ frame. frame ≡ view_read (views.frame_in bytes.now)) }
    ensures in_range { IfOk result (λ frame. ForSome frame IsInRange) }
{
    match zy_vframes::decode(alloc, bytes) {
        Ok(frame) => Ok(Some(AnyFrame::View(frame))),
        Err(DecodeFault::Frame(_)) => Ok(None),
        Err(DecodeFault::Want) => Err(Want),
    }
}

/// What is signed in a frame, an outer part before those inside it.
pub(crate) fn parts_of(alloc: Global, frame: &AnyFrame) -> Result<Vec<Part>, Want>
    requires { IsInRange frame.now }
    ensures { IfOk result (λ parts. parts.items ≡ parts_of frame.now) }
{
    match frame {
        AnyFrame::Plain(frame) => zy_frames::parts(alloc, frame),
        AnyFrame::View(frame) => zy_vframes::parts(alloc, frame),
    }
}
