ghost use Rattle.std.specs.Prelude.{ℕ, List};
ghost use Rattle.zy_base.specs.declared.step.Event.{Event};
ghost use Rattle.zy_law_views.specs.Steps.{IsWorldOf};
ghost use Rattle.zy_chain.specs.declared.entry.Entry.{Entry};
ghost use Rattle.zy_law.specs.World.{World};
ghost use Rattle.zy_law_steps.specs.Gains.{AreGainsKept};
ghost use Rattle.zy_law_steps.specs.Whole.{IsEventHonest};
ghost use Rattle.zy_table.specs.State.{State};
ghost use Rattle.zy_table.specs.Whole.{whole_step};
ghost use Rattle.zy_law_views.specs.Texts.{Texts};
ghost use Rattle.zy_law_views.specs.Rows.{IsReady};
ghost use Rattle.zy_law_views.specs.Work.{IsAtWork};
ghost use Rattle.zy_law_steps.specs.Spelled.{FitAll, IsSpelled};

use zy_base::Machine;
use zy_exec::{installing, showing};

/// Whatever a correct replica says by a step can be spelled, in every view and from one to the next, where all that it keeps can be;
/// and so can all that it keeps after the step.
pub fn spelled_steps<M: Machine>()
    ensures says { (interval r : ℕ) (texts : Texts) (w : World) (s : State M.State) (history : List Entry) (event : Event) → IsReady M.rules interval w r s history → IsWorldOf M.rules interval w texts → IsAtWork interval w r s → IsEventHonest w texts s event → AreGainsKept w texts (whole_step M.rules s event).deeds.acts → IsSpelled s → FitAll (whole_step M.rules s event).deeds.acts }
    ensures keeps { (interval r : ℕ) (texts : Texts) (w : World) (s : State M.State) (history : List Entry) (event : Event) → IsReady M.rules interval w r s history → IsWorldOf M.rules interval w texts → IsAtWork interval w r s → IsEventHonest w texts s event → AreGainsKept w texts (whole_step M.rules s event).deeds.acts → IsSpelled s → IsSpelled (whole_step M.rules s event).state }
{
    showing::<M>();
    installing::<M>();
}
