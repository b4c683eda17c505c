ghost use Rattle.std.specs.Prelude.{◌≡◌};
ghost use Rattle.zy_world_law.specs.Events.{happens};
ghost use Rattle.zy_world_law.specs.Events.Happened.{Goes};
ghost use Rattle.zy_world_law.specs.Good.{IsGood};
ghost use Rattle.zy_world_law.specs.Safe.{Grows, IsSafe};
ghost use Rattle.zy_world_law.specs.Setup.{IsSetup, Setup};
ghost use Rattle.zy_world_law.specs.World.{World, start};
ghost use Rattle.zy_world_law.specs.declared.event.WorldEvent.{WorldEvent};
ghost use Rattle.zy_world_law.specs.declared.note.Note.{Note};

use zy_base::Machine;
use zy_client::held_responses;
use zy_law_steps::{
    gained_entries, said_back, same_keys, spelled_start, spelled_steps, whole_steps,
};
use zy_law_views::transfer_rows;

/// The start is good where at most f replicas lie, an honest event keeps a good world good, a good world is safe, and the
/// agreed list only grows.
pub fn honest_keeps<M: Machine>()
    ensures start { (setup : Setup) → IsSetup setup → IsGood M.rules (start M.rules setup) }
    ensures keeps { (w v : World M.State) (event : WorldEvent) (note : Note) → IsGood M.rules w → happens M.rules w event ≡ Goes v note → IsGood M.rules v }
    ensures safe { (w : World M.State) → IsGood M.rules w → IsSafe M.rules w }
    ensures grows { (w v : World M.State) (event : WorldEvent) (note : Note) → IsGood M.rules w → happens M.rules w event ≡ Goes v note → Grows M.rules w v }
{
    held_responses();
    gained_entries::<M>();
    whole_steps::<M>();
    transfer_rows::<M>();
    spelled_start::<M>();
    spelled_steps::<M>();
    said_back();
    same_keys::<M>();
}
