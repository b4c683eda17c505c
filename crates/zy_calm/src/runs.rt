ghost use Rattle.std.specs.Prelude.{ℕ, List};
ghost use Rattle.zy_calm.specs.Asks.{CalmAsk};
ghost use Rattle.zy_calm.specs.Calm.{IsCalm};
ghost use Rattle.zy_calm.specs.Law.{RunsCalmly};
ghost use Rattle.zy_table.specs.declared.client.Path.{Path};
ghost use Rattle.zy_world_law.specs.Setup.{Setup};

use zy_base::Machine;
use zy_world_law::no_run_is_forged;

/// Every request of a calm schedule is served, on the fast path and on the slow one: it completes in order, at its place of the history,
/// with the machine's reply there, and nothing else is told but what its client gets too late. Or two texts share a digest, and the run ends
/// there; no signature in it is forged.
pub fn calm_runs<M: Machine>()
    ensures { (s : Setup) (path : Path) (muted : List ℕ) (asks : List CalmAsk) → IsCalm s path muted asks → RunsCalmly M.rules s path muted asks }
{
    no_run_is_forged::<M>();
}
