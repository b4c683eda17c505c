ghost use Rattle.std.specs.Prelude.{◌≡◌, true};
ghost use Rattle.zy_base.specs.declared.cause.Cause.{Cause};
ghost use Rattle.zy_frames.specs.declared.frame.Frame.{Frame};
ghost use Rattle.zy_frames.specs.declared.frame.Frame.TheVariants as frames;
ghost use Rattle.zy_frames.specs.declared.frame.OrderFrame.{OrderFrame};
ghost use Rattle.zy_law_normal.specs.Tied.{IsNormal};
ghost use Rattle.zy_table.specs.Deeds.{refused};
ghost use Rattle.zy_table.specs.State.{State, is_leaving};
ghost use Rattle.zy_table.specs.Whole.{plain_row};

use zy_base::Machine;

/// While it leaves a view, a replica refuses each frame of normal operation that brings no hate and no proof that a primary misbehaved.
pub fn leaving_refuses<M: Machine>()
    ensures normal { (s : State M.State) (frame : Frame) → is_leaving s ≡ true → IsNormal frame → (cause : Cause) × (plain_row M.rules s frame ≡ refused cause s) }
    ensures orders { (s : State M.State) (both : OrderFrame) → is_leaving s ≡ true → (cause : Cause) × (plain_row M.rules s (frames.Order both) ≡ refused cause s) }
{}
