ghost use Rattle.std.specs.Prelude.{◌≡◌, ◌≤◌, ◌++◌, List, ℕ, length};
ghost use Rattle.zy_wire.specs.Kind.{frame_limit};
ghost use Rattle.zy_vframes.specs.declared.frame.ViewFrame.{ViewFrame};
ghost use Rattle.zy_vframes.specs.ViewFrames.{FitsFrame, IsFrameInRange, IsWithinLimits, spelling};

/// A frame that has a spelling is in range. Where its certificates and reports are of at most nine replicas, and its
/// snapshot is no longer than a replica's, it isn't too long. No frame's spelling begins another's.
pub fn view_frames()
    ensures in_range { (f : ViewFrame) → FitsFrame f → IsFrameInRange f }
    ensures short { (f : ViewFrame) → FitsFrame f → IsWithinLimits f → length (spelling f) ≤ frame_limit }
    ensures one { (f g : ViewFrame) (behind after : List ℕ) → FitsFrame f → FitsFrame g → spelling f ++ behind ≡ spelling g ++ after → (f ≡ g) × (behind ≡ after) }
{}
