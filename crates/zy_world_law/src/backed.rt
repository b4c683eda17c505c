ghost use Rattle.std.specs.List.{AllByRecursion};
ghost use Rattle.std.specs.Prelude.{List};
ghost use Rattle.zy_schedule.specs.declared.line.Line.{Line};
ghost use Rattle.zy_world_law.specs.Backed.{IsKeptBacked};
ghost use Rattle.zy_world_law.specs.Runs.{worlds_of};
ghost use Rattle.zy_world_law.specs.Setup.{IsSetup, Setup};

use zy_base::Machine;
use zy_client::held_responses;
use zy_law_steps::{
    clients_keep_what_was_said, gained_entries, replicas_keep_what_was_said, said_back, same_keys,
    spelled_start, spelled_steps, whole_steps,
};
use zy_law_views::transfer_rows;

/// What is kept is backed. In each world of a run, whoever lies in it, each signed statement that a correct replica or client keeps is
/// one that its signer said, or its signer lies; and so is each hate that a correct replica counts.
pub fn what_is_kept_is_backed<M: Machine>()
    ensures { (setup : Setup) (schedule : List Line) → IsSetup setup → AllByRecursion (IsKeptBacked M.IsState) (worlds_of M.rules setup schedule) }
{
    held_responses();
    gained_entries::<M>();
    whole_steps::<M>();
    transfer_rows::<M>();
    spelled_start::<M>();
    spelled_steps::<M>();
    said_back();
    same_keys::<M>();
    replicas_keep_what_was_said::<M>();
    clients_keep_what_was_said();
}
