ghost use Rattle.std.specs.Prelude.{◌≡◌, IfOk, Some, None, if◌then◌else◌};
ghost use Rattle.std.specs.Option.{ForSome};
ghost use Rattle.zy_frames.specs.Frames.{frame_in, IsFrameInRange};
ghost use Rattle.zy_parts.specs.Signing.{IsSignedInRange};
ghost use Rattle.zy_parts.specs.Statements.{IsAskInRange};
ghost use Rattle.zy_world_setup.specs.Telling.{IsEncoded};
ghost use Rattle.zy_table.specs.Roles.{is_client};
ghost use Rattle.zy_table.specs.declared.deeds.AnyFrame.TheVariants as any;
ghost use Rattle.zy_vframes.specs.ViewFrames as views;
ghost use Rattle.zy_world_law.specs.Liars.{request_read};

use std::alloc::Global;
use zy_base::{Bytes, Party, Want};
use zy_frames::{DecodeFault, EncodeFault, Frame, decode, encode};
use zy_parts::{Ask, Signed};
use zy_vframes::ViewFrame;

/// The request that all of the bytes spell as a frame. `None` where they spell none, or one that no client signed.
pub fn request_in(alloc: Global, bytes: &[u8]) -> Result<Option<Signed<Ask>>, Want>
    ensures value { IfOk result (λ ask. ask ≡ request_read (frame_in bytes.now)) }
    ensures in_range { IfOk result (λ ask. ForSome ask (IsSignedInRange IsAskInRange)) }
{
    match decode(alloc, bytes) {
        Ok(Frame::Request(ask)) => Ok(by_client(ask)),
        Ok(_) => Ok(None),
        Err(DecodeFault::Frame(_)) => Ok(None),
        Err(DecodeFault::Want) => Err(Want),
    }
}

// The request, if a client signed it.
fn by_client(ask: Signed<Ask>) -> Option<Signed<Ask>>
    ensures { result ≡ (if is_client ask.by then Some ask else None) }
{
    match ask.by {
        Party::Client(_) => Some(ask),
        Party::Replica(_) => None,
    }
}

/// The frame's bytes.
pub(crate) fn encoded(alloc: Global, frame: Frame) -> Result<Bytes, Want>
    requires { IsFrameInRange frame }
    ensures { IfOk result (λ bytes. IsEncoded (any.Plain frame) (Some bytes)) }
{
    match encode(alloc, &frame) {
        Ok(bytes) => Ok(bytes),
        Err(EncodeFault::TooLong) => unreachable!(),
        Err(EncodeFault::Want) => Err(Want),
    }
}

/// Likewise of a frame of a change of view. `None` where they are more than a frame may have.
pub(crate) fn encoded_view(alloc: Global, frame: ViewFrame) -> Result<Option<Bytes>, Want>
    requires { views.IsFrameInRange frame }
    ensures { IfOk result (IsEncoded (any.View frame)) }
{
    match zy_vframes::encode(alloc, &frame) {
        Ok(bytes) => Ok(Some(bytes)),
        Err(EncodeFault::TooLong) => Ok(None),
        Err(EncodeFault::Want) => Err(Want),
    }
}
