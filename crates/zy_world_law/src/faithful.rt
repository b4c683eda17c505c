ghost use Rattle.std.specs.List.{AllByRecursion};
ghost use Rattle.std.specs.Prelude.{List};
ghost use Rattle.zy_schedule.specs.declared.line.Line.{Line};
ghost use Rattle.zy_world_law.specs.Faithful.{IsFaithful, IsQuiet, IsUnforged};
ghost use Rattle.zy_world_law.specs.Runs.{run, worlds_of};
ghost use Rattle.zy_world_law.specs.Setup.{IsSetup, Setup};
ghost use Rattle.zy_world_law.specs.World.{start};

use zy_base::Machine;
use zy_client::held_responses;
use zy_law_steps::{
    clients_pass_on, gained_entries, replicas_pass_on, said_back, same_keys, spelled_start,
    spelled_steps, statements_are_parts, whole_steps,
};
use zy_law_views::transfer_rows;

/// No run is forged where nobody lies. For each setup in which at most f replicas lie, and each schedule by which none of them sends
/// anything and no key is made anew, no event of the run shows a forged signature: in each of its worlds, all that correct parties keep
/// and sent is made of statements that their signers said.
pub fn no_run_is_forged<M: Machine>()
    ensures unforged { (setup : Setup) (schedule : List Line) → IsSetup setup → AllByRecursion IsQuiet schedule → IsUnforged (run M.rules schedule (start M.rules setup)).end }
    ensures faithful { (setup : Setup) (schedule : List Line) → IsSetup setup → AllByRecursion IsQuiet schedule → AllByRecursion (IsFaithful M.IsState) (worlds_of M.rules setup schedule) }
{
    held_responses();
    gained_entries::<M>();
    whole_steps::<M>();
    transfer_rows::<M>();
    spelled_start::<M>();
    spelled_steps::<M>();
    said_back();
    same_keys::<M>();
    replicas_pass_on::<M>();
    clients_pass_on();
    statements_are_parts();
}
