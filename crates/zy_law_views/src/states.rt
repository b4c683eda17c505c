ghost use Rattle.std.specs.Prelude.{◌≡◌, ℕ, true, List, Err};
ghost use Rattle.zy_base.specs.declared.cause.Cause.{Cause};
ghost use Rattle.zy_base.specs.declared.ids.Place.{Place};
ghost use Rattle.zy_chain.specs.declared.entry.Entry.{Entry};
ghost use Rattle.zy_law.specs.World.{World};
ghost use Rattle.zy_table.specs.Beginning.{begun, finished};
ghost use Rattle.zy_table.specs.Fetching.{state_transfer};
ghost use Rattle.zy_table.specs.State.{State};
ghost use Rattle.zy_law_views.specs.Texts.{IsKept, Texts};
ghost use Rattle.zy_law_views.specs.Rows.{IsReady, blames};
ghost use Rattle.zy_law_views.specs.Steps.{IsLawfulStep, IsWorldOf, history_from};
ghost use Rattle.zy_law_views.specs.Wanted.{IsUnwanted};

use zy_base::Machine;
use zy_exec::{installing, showing};

/// A snapshot that a correct replica waits for, and that is kept, is installed lawfully: the view begins with one act, from the
/// list for which the snapshot stands, as it is read out of the kept texts. Where the snapshot is refused nothing changes,
/// and of what blames others there is only that the bytes that came aren't those for which its certificate waits.
pub fn transfer_rows<M: Machine>()
    ensures lawful { (interval r : ℕ) (texts : Texts) (w : World) (s : State M.State) (history : List Entry) (place : Place) (bytes : List ℕ) → IsReady M.rules interval w r s history → IsWorldOf M.rules interval w texts → IsKept texts bytes → IsLawfulStep M.rules interval texts w r s (history_from texts s history (finished M.rules s (state_transfer M.rules s place bytes))) (finished M.rules s (state_transfer M.rules s place bytes)) }
    ensures blame { (interval r : ℕ) (texts : Texts) (w : World) (s : State M.State) (history : List Entry) (place : Place) (bytes : List ℕ) (cause : Cause) → IsReady M.rules interval w r s history → IsWorldOf M.rules interval w texts → IsKept texts bytes → begun M.rules (state_transfer M.rules s place bytes) ≡ Err cause → blames cause ≡ true → IsUnwanted s place bytes cause }
{
    showing::<M>();
    installing::<M>();
}
