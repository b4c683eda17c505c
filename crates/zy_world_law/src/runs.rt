ghost use Rattle.std.specs.Prelude.{List};
ghost use Rattle.std.specs.List.{AllByRecursion};
ghost use Rattle.zy_schedule.specs.declared.line.Line.{Line};
ghost use Rattle.zy_world_law.specs.Good.{IsGood};
ghost use Rattle.zy_world_law.specs.Runs.{run, worlds_of};
ghost use Rattle.zy_world_law.specs.Safe.{AllGrow, IsSafe};
ghost use Rattle.zy_world_law.specs.Setup.{IsSetup, Setup};
ghost use Rattle.zy_world_law.specs.World.{start};

use zy_base::Machine;
use zy_client::held_responses;
use zy_law_steps::{
    gained_entries, said_back, same_keys, spelled_start, spelled_steps, whole_steps,
};
use zy_law_views::transfer_rows;

/// Every run is safe: for each setup in which at most f replicas lie, and each schedule, each world of the run is safe, and
/// the agreed list before each event is a front of the one after it. In each of them the correct replicas keep the rules of conduct
/// to the letter, and are tied to what they said.
pub fn runs_are_safe<M: Machine>()
    ensures safe { (setup : Setup) (schedule : List Line) → IsSetup setup → AllByRecursion (IsSafe M.rules) (worlds_of M.rules setup schedule) }
    ensures good { (setup : Setup) (schedule : List Line) → IsSetup setup → AllByRecursion (IsGood M.rules) (worlds_of M.rules setup schedule) }
    ensures grows { (setup : Setup) (schedule : List Line) → IsSetup setup → AllGrow M.rules (start M.rules setup) (run M.rules schedule (start M.rules setup)).worlds }
{
    held_responses();
    gained_entries::<M>();
    whole_steps::<M>();
    transfer_rows::<M>();
    spelled_start::<M>();
    spelled_steps::<M>();
    said_back();
    same_keys::<M>();
}
