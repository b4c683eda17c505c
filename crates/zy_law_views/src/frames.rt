ghost use Rattle.std.specs.Prelude.{ℕ, List, Result};
ghost use Rattle.zy_base.specs.declared.frame_fault.FrameFault.{FrameFault};
ghost use Rattle.zy_chain.specs.declared.entry.Entry.{Entry};
ghost use Rattle.zy_law.specs.World.{World};
ghost use Rattle.zy_table.specs.State.{State};
ghost use Rattle.zy_table.specs.Whole.{view_decoded, view_row};
ghost use Rattle.zy_vframes.specs.declared.frame.ViewFrame.{ViewFrame};
ghost use Rattle.zy_law_views.specs.Texts.{Texts};
ghost use Rattle.zy_law_views.specs.Rows.{IsReady};
ghost use Rattle.zy_law_views.specs.Frames.{IsHonestFrame, IsHonestlyRead, history_heard, history_read};
ghost use Rattle.zy_law_views.specs.Steps.{IsLawfulStep, IsWorldOf};

use zy_base::Machine;
use zy_exec::{installing, showing};

/// Each frame of a change of view is answered lawfully by a correct replica, where each text that is signed in it was said by its
/// signer, or that lies, and what it brings is kept. So are bytes, whatever they are read as, where that holds of a frame whose
/// signatures are verified and whose signers have their roles.
pub fn honest_frames<M: Machine>()
    ensures rows { (interval r : ℕ) (texts : Texts) (w : World) (s : State M.State) (history : List Entry) (frame : ViewFrame) → IsReady M.rules interval w r s history → IsWorldOf M.rules interval w texts → IsHonestFrame w texts frame → IsLawfulStep M.rules interval texts w r s (history_heard texts s history frame (view_row M.rules s frame)) (view_row M.rules s frame) }
    ensures heard { (interval r : ℕ) (texts : Texts) (w : World) (s : State M.State) (history : List Entry) (read : Result ViewFrame FrameFault) → IsReady M.rules interval w r s history → IsWorldOf M.rules interval w texts → IsHonestlyRead w texts s read → IsLawfulStep M.rules interval texts w r s (history_read texts s history read (view_decoded M.rules s read)) (view_decoded M.rules s read) }
{
    showing::<M>();
    installing::<M>();
}
