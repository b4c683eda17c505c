ghost use Rattle.std.specs.Prelude.{◌≡◌, ◌≢◌, ◌<◌, ◌≤◌, length, Ok, Err, OnOk, IfOk, IsErrOf};
ghost use Rattle.zy_wire.specs.Kind.{frame_limit};
ghost use Rattle.zy_wire.specs.Getting.{Decodes};
ghost use Rattle.zy_vframes.specs.ViewFrames.{FitsFrame, IsFrameInRange, IsWithinLimits, spelling, frame_in};

use crate::{DecodeFault, EncodeFault, ViewFrame};
use std::alloc::Global;
use zy_base::Bytes;

/// The frame that all of the bytes spell, each byte string copied once. A kind from 1 to 10 is refused as `Kind`.
/// The fault is the first one from the left.
pub fn decode(alloc: Global, bytes: &[u8]) -> Result<ViewFrame, DecodeFault>
    // What is decoded was spelled so.
    ensures found { IfOk result (λ f. FitsFrame f × (bytes.now ≡ spelling f) × (length bytes.now ≤ frame_limit)) }
    ensures in_range { IfOk result IsFrameInRange }
    // What is spelled so is decoded, unless memory runs out.
    ensures only { (f : ViewFrame) → FitsFrame f → bytes.now ≡ spelling f → length bytes.now ≤ frame_limit → Decodes result (Ok f) }
    // Which fault it is.
    ensures exact { Decodes result (frame_in bytes.now) }
{
    zy_wire::decode(alloc, bytes)
}

/// The one spelling of a frame: the version, the kind and the fields. `TooLong` exactly where it has more than
/// 8,388,608 bytes, which none has whose certificates and reports are of at most nine replicas and whose snapshot is one
/// of a replica.
pub fn encode(alloc: Global, frame: &ViewFrame) -> Result<Bytes, EncodeFault>
    requires { IsFrameInRange frame.now }
    ensures ok { IfOk result (λ b. (b ≡ spelling frame.now) × (length b ≤ frame_limit)) }
    ensures fits { OnOk result (FitsFrame frame.now) }
    ensures too_long { IsErrOf result EncodeFault.TooLong → frame_limit < length (spelling frame.now) }
    ensures never { IsWithinLimits frame.now → result ≢ Err EncodeFault.TooLong }
{
    zy_wire::encode(alloc, frame)
}
