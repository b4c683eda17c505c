ghost use Rattle.std.specs.Prelude.{◌≡◌, None, true};
ghost use Rattle.zy_base.specs.declared.step.Event.TheVariants.{Heard};
ghost use Rattle.zy_frames.specs.Frames.{FitsFrame, parts_of, spelling};
ghost use Rattle.zy_frames.specs.declared.frame.Frame.{Frame};
ghost use Rattle.zy_seal.specs.Screening.{screen};
ghost use Rattle.zy_table.specs.ClientRows.{client_step, hear};
ghost use Rattle.zy_table.specs.ClientState.{ClientState};
ghost use Rattle.zy_table.specs.Roles.{in_role};
ghost use Rattle.zy_table.specs.State.{State};
ghost use Rattle.zy_table.specs.Whole.{plain_row, whole_step};

use zy_base::Machine;

/// A frame of normal operation that has a spelling, whose signatures verify and whose signers may say it, is answered by its row.
pub fn frames_heard<M: Machine>()
    ensures replica { (s : State M.State) (f : Frame) → FitsFrame f → screen s.keys (parts_of f) ≡ None → in_role s f ≡ true → whole_step M.rules s (Heard (spelling f)) ≡ plain_row M.rules s f }
    ensures client { (c : ClientState) (f : Frame) → FitsFrame f → screen c.keys (parts_of f) ≡ None → client_step c (Heard (spelling f)) ≡ hear c f }
{}
