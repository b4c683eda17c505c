ghost use Rattle.std.specs.List.{AllByRecursion};
ghost use Rattle.std.specs.Prelude.{List};
ghost use Rattle.zy_schedule.specs.declared.line.Line.{Line};
ghost use Rattle.zy_world_law.specs.Blame.{IsBlameless};
ghost use Rattle.zy_world_law.specs.Good.{IsGood};
ghost use Rattle.zy_world_law.specs.Runs.{worlds_of};
ghost use Rattle.zy_world_law.specs.Setup.{IsSetup, Setup};
ghost use Rattle.zy_world_law.specs.World.{World};

use zy_base::Machine;
use zy_client::held_responses;
use zy_law_steps::{
    gained_entries, said_back, same_keys, spelled_start, spelled_steps, whole_steps,
};
use zy_law_views::transfer_rows;

/// No correct replica is blamed. In each world of a run, no two verified orders of one view and place that differ are signed by a
/// correct replica, unless one is forged. And whatever event is next, no correct replica refuses it because two heads stand at one
/// proven place, or because its stable checkpoint or its snapshot isn't on the history with which a view begins.
pub fn no_correct_replica_is_blamed<M: Machine>()
    ensures good { (w : World M.State) → IsGood M.rules w → IsBlameless M.rules w }
    ensures runs { (setup : Setup) (schedule : List Line) → IsSetup setup → AllByRecursion (IsBlameless M.rules) (worlds_of M.rules setup schedule) }
{
    held_responses();
    gained_entries::<M>();
    whole_steps::<M>();
    transfer_rows::<M>();
    spelled_start::<M>();
    spelled_steps::<M>();
    said_back();
    same_keys::<M>();
}
