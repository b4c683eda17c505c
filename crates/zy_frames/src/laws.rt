ghost use Rattle.std.specs.Prelude.{◌≡◌, ◌≤◌, ◌++◌, List, [], ℕ, length};
ghost use Rattle.zy_wire.specs.Kind.{frame_limit};
ghost use Rattle.zy_frames.specs.declared.frame.Frame.{Frame};
ghost use Rattle.zy_frames.specs.Frames.{FitsFrame, IsFrameInRange, spelling, greatest_frame};

/// A frame that has a spelling is in range and far from too long: no spelling of these kinds has more than 147,819
/// bytes. No frame's spelling begins another's.
pub fn frames()
    ensures in_range { (f : Frame) → FitsFrame f → IsFrameInRange f }
    ensures len { (f : Frame) → FitsFrame f → length (spelling f) ≤ greatest_frame }
    ensures one { (f g : Frame) (behind after : List ℕ) → FitsFrame f → FitsFrame g → spelling f ++ behind ≡ spelling g ++ after → (f ≡ g) × (behind ≡ after) }
{}
