ghost use Rattle.std.specs.Prelude.{ℕ, List};
ghost use Rattle.zy_base.specs.declared.step.Event.{Event};
ghost use Rattle.zy_chain.specs.declared.entry.Entry.{Entry};
ghost use Rattle.zy_law.specs.World.{World};
ghost use Rattle.zy_law_normal.specs.Acts.{history_after, world_after};
ghost use Rattle.std.specs.List.{AllByRecursion};
ghost use Rattle.zy_law_normal.specs.Tied.{IsGained};
ghost use Rattle.zy_table.specs.Deeds.{Outcome, gains_in};
ghost use Rattle.zy_table.specs.State.{State};
ghost use Rattle.zy_table.specs.Whole.{whole_step};
ghost use Rattle.zy_law_views.specs.Texts.{Texts};
ghost use Rattle.zy_law_views.specs.Rows.{IsReady};
ghost use Rattle.zy_law_views.specs.Work.{IsAtWork};
ghost use Rattle.zy_law_views.specs.Steps.{IsLawfulStep, IsWorldOf};
ghost use Rattle.zy_law_steps.specs.Gains.{AreGainsKept};
ghost use Rattle.zy_law_steps.specs.Whole.{IsEventHonest, history_of};

use zy_base::Machine;
use zy_exec::{installing, showing};

/// Each event is answered lawfully by a correct replica, in every view and from one to the next: what it says and where it stands
/// by its step is allowed, one after another, it is tied then, and can work on. After a lawful step it is ready for the next.
pub fn whole_steps<M: Machine>()
    ensures lawful { (interval r : ℕ) (texts : Texts) (w : World) (s : State M.State) (history : List Entry) (event : Event) → IsReady M.rules interval w r s history → IsWorldOf M.rules interval w texts → IsAtWork interval w r s → IsEventHonest w texts s event → AreGainsKept w texts (whole_step M.rules s event).deeds.acts → IsLawfulStep M.rules interval texts w r s (history_of texts s history event (whole_step M.rules s event)) (whole_step M.rules s event) }
    ensures ready { (interval r : ℕ) (texts : Texts) (w : World) (s : State M.State) (before history : List Entry) (outcome : Outcome M.State) → IsReady M.rules interval w r s before → IsLawfulStep M.rules interval texts w r s history outcome → IsReady M.rules interval (world_after w r s history outcome) r outcome.state (history_after history outcome.deeds.acts) }
{
    showing::<M>();
    installing::<M>();
}

/// Each entry that a step gains may run, and leads from the head before it to the head after it, whatever is kept of it. So a world can
/// keep what it leads to before the step's acts.
pub fn gained_entries<M: Machine>()
    ensures { (interval r : ℕ) (texts : Texts) (w : World) (s : State M.State) (history : List Entry) (event : Event) → IsReady M.rules interval w r s history → IsWorldOf M.rules interval w texts → IsAtWork interval w r s → IsEventHonest w texts s event → AllByRecursion (IsGained w) (gains_in (whole_step M.rules s event).deeds.acts) }
{
    showing::<M>();
    installing::<M>();
}
