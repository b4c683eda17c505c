ghost use Rattle.std.specs.Prelude.{◌≡◌, ℕ, false, List};
ghost use Rattle.zy_chain.specs.declared.entry.Entry.{Entry};
ghost use Rattle.zy_law.specs.World.{World};
ghost use Rattle.zy_parts.specs.declared.signed.Signed.{Signed};
ghost use Rattle.zy_parts.specs.declared.statements.Ask.{Ask};
ghost use Rattle.zy_parts.specs.declared.statements.Hole.{Hole};
ghost use Rattle.zy_table.specs.Holes.{fill_hole};
ghost use Rattle.zy_table.specs.Requests.{request};
ghost use Rattle.zy_table.specs.State.{State, is_primary};
ghost use Rattle.zy_law_views.specs.Texts.{Texts};
ghost use Rattle.zy_law_views.specs.Rows.{IsReady};
ghost use Rattle.zy_law_views.specs.Steps.{IsLawfulStep, IsWorldOf};

use zy_base::Machine;

/// In any view a backup answers a request lawfully: one that it executed last with its response, in its own view; a new one waits,
/// and the primary is told. So any replica answers another's wish for orders. Nothing is executed by that.
pub fn resting_rows<M: Machine>()
    ensures request { (interval r : ℕ) (texts : Texts) (w : World) (s : State M.State) (history : List Entry) (ask : Signed Ask) → IsReady M.rules interval w r s history → IsWorldOf M.rules interval w texts → is_primary s ≡ false → IsLawfulStep M.rules interval texts w r s history (request M.rules s ask) }
    ensures hole { (interval r : ℕ) (texts : Texts) (w : World) (s : State M.State) (history : List Entry) (hole : Signed Hole) → IsReady M.rules interval w r s history → IsWorldOf M.rules interval w texts → IsLawfulStep M.rules interval texts w r s history (fill_hole s hole) }
{}
