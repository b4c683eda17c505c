//! A step ends in which no view begins.

ghost use Rattle.std.specs.Prelude.{◌≡◌, false};
ghost use Rattle.std.specs.List.{list_any};
ghost use Rattle.zy_base.specs.declared.step.Answer.TheVariants as Answer;
ghost use Rattle.zy_table.specs.State.{State};
ghost use Rattle.zy_table.specs.Leaving.{goes};
ghost use Rattle.zy_table.specs.Beginning.{confirms, finished};

use zy_base::{Answer, Machine};
use zy_replica_state::{Moved, Progress};

// A step ends that signed no more than it could, and confirmed no new view.
pub(crate) fn taken<M: Machine>(progress: Progress<M>) -> Moved<M>
    requires { list_any confirms progress.deeds.acts ≡ false }
    ensures { (s : State M.State) → result ≡ finished M.rules s (goes Answer.Taken progress) }
{
    let can_sign = progress.core.can_sign(0);
    prove!(can_sign);
    progress.ends(Answer::Taken)
}
