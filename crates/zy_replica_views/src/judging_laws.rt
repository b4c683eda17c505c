ghost use Rattle.std.specs.Prelude.{◌≡◌, ℕ, List, Some, Err};
ghost use Rattle.zy_base.specs.declared.cause.Cause.{Cause};
ghost use Rattle.zy_base.specs.declared.ids.Place.{Place};
ghost use Rattle.zy_vframes.specs.declared.frame.ViewFrame.TheVariants as frames;
ghost use Rattle.zy_change.specs.declared.owed.Owed.{Owed};
ghost use Rattle.zy_table.specs.State.{State};
ghost use Rattle.zy_table.specs.Deeds.{Going, refused};
ghost use Rattle.zy_table.specs.Leaving.{Attempt};
ghost use Rattle.zy_table.specs.Beginning.{finished};
ghost use Rattle.zy_table.specs.Fetching.{state_transfer};
ghost use Rattle.zy_replica_views.specs.Entering.{IsStep, ending_of};
ghost use Rattle.zy_replica_views.specs.Fetching.{against};

use zy_base::Machine;

/// A step that is judged to be refused is the row that is refused for that cause.
pub fn refusals<M: Machine>()
    ensures steps { (s : State M.State) (more : ℕ) (attempt : Attempt M.State) (owed : Owed) (g : Going M.State) (cause : Cause) → IsStep M.rules s more attempt owed g → ending_of M.rules s more owed ≡ Err cause → finished M.rules s attempt ≡ refused cause s }
    ensures states { (s : State M.State) (place : Place) (bytes : List ℕ) (cause : Cause) → against (frames.State place bytes) s.views.waiting ≡ Some cause → finished M.rules s (state_transfer M.rules s place bytes) ≡ refused cause s }
{}
