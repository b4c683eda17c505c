//! Missing orders are asked for again, of all, while a replica is in its view.

ghost use Rattle.std.specs.Prelude.{◌≡◌, IfOk};
ghost use Rattle.std.specs.Option.{ForSome};
ghost use Rattle.zy_parts.specs.Signing.{IsSignedInRange};
ghost use Rattle.zy_parts.specs.Statements.{IsHoleInRange};
ghost use Rattle.zy_table.specs.Hates.{ask_for_hole as asked_for};
ghost use Rattle.zy_replica.specs.Judging.{asked, asked_if};

use zy_base::{Answer, Machine, Mode, Want};
use zy_frames::Frame;
use zy_parts::{Hole, Signed};
use zy_replica_state::{Core, Moved, Progress, signed_copy};
use zy_replica_views::Ending;
use zy_table::To;

// A copy of what it asked the primary for last.
fn hole_of<M: Machine>(core: &Core<M>) -> Result<Option<Signed<Hole>>, Want>
    ensures hole { IfOk result (λ hole. hole ≡ core.now.hole) }
    ensures range { IfOk result (λ hole. ForSome hole (IsSignedInRange IsHoleInRange)) }
{
    match core.hole() {
        Some(hole) => Ok(Some(signed_copy(hole)?)),
        None => Ok(None),
    }
}

fn send_hole<M: Machine>(
    progress: Progress<M>,
    mode: Mode,
    hole: Option<Signed<Hole>>,
) -> Result<Progress<M>, Want>
    requires { ForSome hole (IsSignedInRange IsHoleInRange) }
    ensures { IfOk result (λ g. g ≡ asked_for mode hole progress) }
{
    match (mode, hole) {
        (Mode::Active(_), Some(hole)) => progress.send(To::All, Frame::FillHole(hole)),
        (_, hole) => {
            drop(hole);
            Ok(progress)
        }
    }
}

pub(crate) fn ask_for_hole<M: Machine>(progress: Progress<M>) -> Result<Progress<M>, Want>
    ensures { IfOk result (λ g. g ≡ asked_for progress.state.views.mode progress.state.hole progress) }
{
    let mode = progress.core.mode();
    let hole = hole_of(&progress.core)?;
    send_hole(progress, mode, hole)
}

// Unless the step is refused.
pub(crate) fn ask_after<M: Machine>(moved: Moved<M>) -> Result<Moved<M>, Want>
    ensures { IfOk result (λ m. m ≡ asked moved) }
{
    let Moved { answer, progress } = moved;
    match answer {
        Answer::Refused(_) => Ok(Moved { answer, progress }),
        Answer::Taken | Answer::Held => Ok(ask_for_hole(progress)?.ends(answer)),
    }
}

// What leads to a new view has left the own one: nothing is asked for then.
pub(crate) fn ask_unless<M: Machine>(moved: Moved<M>, ending: Ending) -> Result<Moved<M>, Want>
    ensures { IfOk result (λ m. m ≡ asked_if ending moved) }
{
    match ending {
        Ending::Rests => ask_after(moved),
        Ending::TakesUp | Ending::Waits => Ok(moved),
    }
}
