ghost use Rattle.std.specs.Prelude.{◌≡◌, ◌≢◌, ◌≤◌, length, Ok, Err, OnOk, IfOk};
ghost use Rattle.zy_wire.specs.Kind.{frame_limit};
ghost use Rattle.zy_wire.specs.Getting.{Decodes};
ghost use Rattle.zy_frames.specs.Frames.{FitsFrame, IsFrameInRange, spelling, frame_in};

use crate::{DecodeFault, EncodeFault, Frame};
use std::alloc::Global;
use zy_base::Bytes;

/// The frame that all of the bytes spell, each byte string copied once. A kind from 11 to 16 is refused as `Kind`.
/// The fault is the first one from the left.
pub fn decode(alloc: Global, bytes: &[u8]) -> Result<Frame, DecodeFault>
    // What is decoded was spelled so.
    ensures found { IfOk result (λ f. FitsFrame f × (bytes.now ≡ spelling f) × (length bytes.now ≤ frame_limit)) }
    ensures in_range { IfOk result IsFrameInRange }
    // What is spelled so is decoded, unless memory runs out.
    ensures only { (f : Frame) → FitsFrame f → bytes.now ≡ spelling f → length bytes.now ≤ frame_limit → Decodes result (Ok f) }
    // Which fault it is.
    ensures exact { Decodes result (frame_in bytes.now) }
{
    zy_wire::decode(alloc, bytes)
}

/// The one spelling of a frame: the version, the kind and the fields. No frame is too long for it.
pub fn encode(alloc: Global, frame: &Frame) -> Result<Bytes, EncodeFault>
    requires { IsFrameInRange frame.now }
    ensures ok { IfOk result (λ b. (b ≡ spelling frame.now) × (length b ≤ frame_limit)) }
    ensures fits { OnOk result (FitsFrame frame.now) }
    ensures never { result ≢ Err EncodeFault.TooLong }
{
    zy_wire::encode(alloc, frame)
}
