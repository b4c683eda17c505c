//! What is owed is carried out, and with that the step ends: nothing begins, or a view does, or its certificate waits.

ghost use Rattle.std.specs.Prelude.{◌≡◌, ◌≤◌, ℕ, Ok, IfOk};
ghost use Rattle.zy_change.specs.Ahead.{IsOwedInRange};
ghost use Rattle.zy_table.specs.State.{State};
ghost use Rattle.zy_table.specs.Leaving.{Attempt};
ghost use Rattle.zy_table.specs.Beginning.{finished};
ghost use Rattle.zy_replica_views.specs.Entering.{CanEnd, EndsAs, IsJudged, IsStep, ending_of};

use crate::adopting::certify;
use crate::judging::Ending;
use crate::leaving::carry_out;
use zy_base::{Answer, Machine, Want};
use zy_change::Owed;
use zy_replica_state::{Moved, Progress};

/// A step ends with an answer; or with that of the view that begins, whose new view was confirmed.
pub fn end<M: Machine>(
    progress: Progress<M>,
    answer: Answer,
    ending: Ending,
) -> Result<Moved<M>, Want>
    requires { CanEnd M.rules ending progress }
    ensures { IfOk result (EndsAs M.rules answer ending progress) }
{
    match ending {
        Ending::Rests => Ok(progress.ends(answer)),
        Ending::TakesUp => certify(progress, false),
        Ending::Waits => certify(progress, true),
    }
}

/// What a step owes that can make a replica leave is carried out, and it ends as it was judged.
pub fn carry<M: Machine>(
    progress: Progress<M>,
    owed: Owed,
    ending: Ending,
) -> Result<Moved<M>, Want>
    requires judged { IsJudged M.rules owed ending progress }
    requires in_range { IsOwedInRange owed }
    ensures { (s : State M.State) (more : ℕ) (attempt : Attempt M.State) → IsStep M.rules s more attempt owed progress → ending_of M.rules s more owed ≡ Ok ending → IfOk result (λ m. m ≡ finished M.rules s attempt) }
{
    let answer = owed.answer;
    let carried = carry_out(progress, &owed);
    drop(owed);
    end(carried?, answer, ending)
}
