//! How a step ends is judged before anything is done.

ghost use Rattle.std.specs.Prelude.{◌≡◌, ◌+◌, ◌<◌, nat_le, length, true, IfOk};
ghost use Rattle.std.specs.Option.{ForSome};
ghost use Rattle.zy_parts.specs.Reports.{IsToldInRange};
ghost use Rattle.zy_table.specs.State.{signs_left};
ghost use Rattle.zy_table.specs.Adopting.{checkpoints_between};
ghost use Rattle.zy_replica_state.specs.Ready.{IsReady};
ghost use Rattle.zy_replica_views.specs.Follows.{IsSigner};
ghost use Rattle.zy_replica_views.specs.Ending.{verdict_on as verdict};
ghost use Rattle.zy_replica_views.specs.Signing.{signs_taken as signs_to_take};
ghost use Rattle.zy_replica_views.specs.Entering.{CanEnter, ending_by, ending_of, ending_with, signs_after, unless_spent as counted, view_after as view_then};

use crate::waiting::wanted_of;
use zy_base::{Answer, Cause, Machine, Place, View, Want};
use zy_change::{Adoption, Owed};
use zy_parts::Told;
use zy_replica_adopt::judge;
use zy_replica_state::Core;
use zy_table::Verdict;

/// How a step ends, once what it owes is carried out.
#[derive(Clone, Copy, Debug, PartialEq, Eq)]
pub enum Ending {
    /// No view begins.
    Rests,
    /// One begins with its choice.
    TakesUp,
    /// Its certificate waits for the snapshot on which its history stands.
    Waits,
}

/// How a step that owes this ends, where so many statements are signed besides; or why it is refused: its own cause, the
/// cause against what is to be adopted, or `KeySpent` where there are fewer signatures left than it makes in all.
pub fn judge_owed<M: Machine>(
    core: &Core<M>,
    owed: &Owed,
    more: u64,
) -> Result<Result<Ending, Cause>, Want>
    requires { ForSome owed.now.adopt (CanEnter core.now owed.now.leave) }
    ensures ending { IfOk result (λ ending. ending ≡ ending_of M.rules core.now more owed.now) }
    ensures signer { IsSigner core.now }
    ensures ready { IsReady core.now }
{
    let signs = is_signer(core);
    prove!(signs);
    match owed.answer {
        Answer::Refused(cause) => Ok(Err(cause)),
        Answer::Taken | Answer::Held => judge_end(core, owed, more),
    }
}

// Every replica signs as itself. Beside it what else holds of every replica.
pub(crate) fn is_signer<M: Machine>(core: &Core<M>) -> bool
    ensures is { result ≡ true }
    ensures signer { IsSigner core.now }
    ensures ready { IsReady core.now }
{
    core.can_sign(0)
}

fn judge_end<M: Machine>(
    core: &Core<M>,
    owed: &Owed,
    more: u64,
) -> Result<Result<Ending, Cause>, Want>
    requires { ForSome owed.now.adopt (CanEnter core.now owed.now.leave) }
    ensures { IfOk result (λ ending. ending ≡ ending_with M.rules core.now (more + owed.now.signs) owed.now.leave owed.now.adopt) }
{
    match &owed.adopt {
        None => Ok(unless_spent(core, more, owed.signs, 0, Ending::Rests)),
        Some(adoption) => judge_adoption(core, owed, adoption, more),
    }
}

fn judge_adoption<M: Machine>(
    core: &Core<M>,
    owed: &Owed,
    adoption: &Adoption,
    more: u64,
) -> Result<Result<Ending, Cause>, Want>
    requires { IsToldInRange adoption.now.told }
    ensures { IfOk result (λ ending. ending ≡ ending_by core.now (more + owed.now.signs) owed.now.leave adoption.now (verdict M.rules core.now adoption.now)) }
{
    match verdict_on(core, adoption) {
        Verdict::Refuse(cause) => Ok(Err(cause)),
        Verdict::Take => {
            let signs = signs_taken(core, &adoption.told, adoption.chosen.place);
            Ok(unless_spent(core, more, owed.signs, signs, Ending::TakesUp))
        }
        Verdict::Wait => {
            let signs = signs_waiting(core, owed.leave, adoption)?;
            Ok(unless_spent(core, more, owed.signs, signs, Ending::Waits))
        }
    }
}

// What is told can be taken up, has to wait, or contradicts what is kept.
fn verdict_on<M: Machine>(core: &Core<M>, adoption: &Adoption) -> Verdict
    requires { IsToldInRange adoption.now.told }
    ensures { result ≡ verdict M.rules core.now adoption.now }
{
    judge(
        core.exec(),
        core.board().stable_check(),
        &adoption.told,
        adoption.chosen.place,
        &adoption.chosen.head,
    )
}

// ---- what is signed

fn unless_spent<M: Machine>(
    core: &Core<M>,
    more: u64,
    signs: u64,
    besides: u64,
    ending: Ending,
) -> Result<Ending, Cause>
    ensures { result ≡ counted (more + signs + besides) (signs_left core.now) ending }
{
    if fits(core.signs_left() as u64, more, signs, besides) {
        Ok(ending)
    } else {
        Err(Cause::KeySpent)
    }
}

fn fits(left: u64, more: u64, signs: u64, besides: u64) -> bool
    ensures { result ≡ nat_le (more + signs + besides) left }
{
    more <= left && signs <= left - more && besides <= left - more - signs
}

// The checkpoints of what is taken up, above what is stable then.
fn signs_taken<M: Machine>(core: &Core<M>, told: &Told, place: Place) -> u64
    ensures { result ≡ signs_to_take core.now told.now place }
{
    // With its view comes what holds of every replica: how far its checkpoints lie apart.
    let _view = core.view();
    let stable = core.board().stable_check().place;
    let stable = if stable < told.stable_place {
        told.stable_place
    } else {
        stable
    };
    checkpoints(core.exec().interval(), stable, place)
}

// How many checkpoints lie above one place, up to another.
pub(crate) fn checkpoints(interval: u64, low: Place, high: Place) -> u64
    requires { 0 < interval }
    ensures { result ≡ length (checkpoints_between interval low.0 high.0) }
{
    (high.0 / interval).saturating_sub(low.0 / interval)
}

// The view that the replica has once it left.
fn view_after<M: Machine>(core: &Core<M>, leave: Option<View>) -> View
    ensures { result.0 ≡ view_then core.now leave }
{
    match leave {
        None => core.view(),
        Some(view) => view,
    }
}

// The report, where the view is still below, and what is asked for, where it wasn't yet.
fn signs_waiting<M: Machine>(
    core: &Core<M>,
    leave: Option<View>,
    adoption: &Adoption,
) -> Result<u64, Want>
    ensures { IfOk result (λ signs. signs ≡ signs_after core.now leave adoption.now) }
{
    let report = u64::from(view_after(core, leave) < adoption.view);
    let said = core.fetch_said(&wanted_of(&adoption.told))?;
    let fetch = u64::from(said.is_none());
    drop(said);
    Ok(report + fetch)
}
