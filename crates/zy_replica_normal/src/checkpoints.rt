//! What a replica answers to another's speculative response, and to another's checkpoint.

ghost use Rattle.std.specs.Prelude.{◌≡◌, ◌≤◌, false, option_map, IfOk};
ghost use Rattle.std.specs.Option.{ForSome};
ghost use Rattle.zy_base.specs.declared.step.Answer.TheVariants as Answer;
ghost use Rattle.zy_check.specs.Board.{with_spec, with_check};
ghost use Rattle.zy_check.specs.Judging.{judge_spec, judge_check, is_refused};
ghost use Rattle.zy_parts.specs.Signing.{IsSignedInRange};
ghost use Rattle.zy_parts.specs.Statements.{IsSpecInRange, IsCheckInRange};
ghost use Rattle.zy_table.specs.State.{is_leaving, signs_left};
ghost use Rattle.zy_table.specs.Deeds.{ends, begin};
ghost use Rattle.zy_table.specs.Gathering.{checks_owed, gather_at as gathered_at};
ghost use Rattle.zy_table.specs.Checkpoints.{gathered, kept_as, response_beside as answered_beside, response as response_row, checkpoint_beside as checked_beside, checkpoint as checkpoint_row};
ghost use Rattle.zy_replica_state.specs.Ready.{IsOwnReady};

use crate::gathering::gather_at;
use zy_base::{Answer, Cause, Machine, Want};
use zy_check::Kept;
use zy_parts::{Check, Signed, Spec};
use zy_replica_state::{Core, Moved};
use zy_table::OwnCheckpoint;

// What is kept at a place is looked through, and with that the step ends.
fn gather_kept<M: Machine>(core: Core<M>, own: Option<OwnCheckpoint>) -> Result<Moved<M>, Want>
    requires left { checks_owed core own false ≤ signs_left core }
    requires own { ForSome own (IsOwnReady core.kept core.views.last_view) }
    ensures { IfOk result (λ m. m ≡ ends Answer.Taken (gathered_at M.rules own false (begin core))) }
{
    Ok(gather_at(core.begin(), own, false)?.ends(Answer::Taken))
}

// ---- responses

// It says what the own one says.
fn gather_response<M: Machine>(
    core: Core<M>,
    spec: Signed<Spec>,
    own: Option<OwnCheckpoint>,
) -> Result<Moved<M>, Want>
    requires range { IsSignedInRange IsSpecInRange spec }
    requires kept { is_refused (judge_spec core.board spec (option_map (λ o. o.spec) own)) ≡ false }
    requires own { ForSome own (IsOwnReady core.kept core.views.last_view) }
    ensures { IfOk result (λ m. m ≡ gathered M.rules core own (with_spec core.board spec)) }
{
    if core.owed_with_spec(&spec, own) > core.signs_left() {
        return core.not_heard(spec, Cause::KeySpent);
    }
    gather_kept(core.keep_spec_vote(spec, own)?, own)
}

// The own history hasn't come to its place.
fn hold_response<M: Machine>(
    core: Core<M>,
    spec: Signed<Spec>,
    own: Option<OwnCheckpoint>,
) -> Result<Moved<M>, Want>
    requires range { IsSignedInRange IsSpecInRange spec }
    requires kept { is_refused (judge_spec core.board spec (option_map (λ o. o.spec) own)) ≡ false }
    ensures { IfOk result (λ m. m ≡ ends Answer.Held (begin (record core { board = with_spec core.board spec }))) }
{
    let core = core.keep_spec_vote(spec, own)?;
    Ok(core.begin().ends(Answer::Held))
}

// Beside the own one of its place.
fn response_beside<M: Machine>(
    core: Core<M>,
    spec: Signed<Spec>,
    own: Option<OwnCheckpoint>,
) -> Result<Moved<M>, Want>
    requires range { IsSignedInRange IsSpecInRange spec }
    requires own { ForSome own (IsOwnReady core.kept core.views.last_view) }
    ensures { IfOk result (λ m. m ≡ answered_beside M.rules core spec own) }
{
    match core.judge_spec(&spec, own) {
        Kept::Refused(cause) => core.not_heard(spec, cause),
        Kept::Held => hold_response(core, spec, own),
        Kept::Kept(_) => gather_response(core, spec, own),
    }
}

// The row.
#[tactic(auto, unfolding(zy_table::specs::Checkpoints::response))]
pub(crate) fn response<M: Machine>(core: Core<M>, spec: Signed<Spec>) -> Result<Moved<M>, Want>
    requires active { is_leaving core ≡ false }
    requires range { IsSignedInRange IsSpecInRange spec }
    ensures { IfOk result (λ m. m ≡ response_row M.rules core spec) }
{
    let own = core.own_at(spec.stmt.place);
    response_beside(core, spec, own)
}

// ---- checkpoints

// It says what the own one says.
fn gather_checkpoint<M: Machine>(
    core: Core<M>,
    check: Signed<Check>,
    own: Option<OwnCheckpoint>,
) -> Result<Moved<M>, Want>
    requires range { IsSignedInRange IsCheckInRange check }
    requires kept { is_refused (judge_check core.board check (option_map (λ o. o.check) own)) ≡ false }
    requires own { ForSome own (IsOwnReady core.kept core.views.last_view) }
    requires place { ForSome own (λ o. o.check.place ≡ check.stmt.place) }
    ensures { IfOk result (λ m. m ≡ gathered M.rules core own (with_check core.board check)) }
{
    if core.owed_with_check(&check, own) > core.signs_left() {
        return core.not_heard(check, Cause::KeySpent);
    }
    gather_kept(core.keep_check_vote(check, own)?, own)
}

// The own history hasn't come to its place.
fn hold_checkpoint<M: Machine>(
    core: Core<M>,
    check: Signed<Check>,
    own: Option<OwnCheckpoint>,
) -> Result<Moved<M>, Want>
    requires range { IsSignedInRange IsCheckInRange check }
    requires kept { is_refused (judge_check core.board check (option_map (λ o. o.check) own)) ≡ false }
    ensures { IfOk result (λ m. m ≡ ends Answer.Held (begin (record core { board = with_check core.board check }))) }
{
    let core = core.keep_check_vote(check, own)?;
    Ok(core.begin().ends(Answer::Held))
}

// Beside the own one of its place.
fn checkpoint_beside<M: Machine>(
    core: Core<M>,
    check: Signed<Check>,
    own: Option<OwnCheckpoint>,
) -> Result<Moved<M>, Want>
    requires range { IsSignedInRange IsCheckInRange check }
    requires own { ForSome own (IsOwnReady core.kept core.views.last_view) }
    requires place { ForSome own (λ o. o.check.place ≡ check.stmt.place) }
    ensures { IfOk result (λ m. m ≡ checked_beside M.rules core check own) }
{
    match core.judge_check(&check, own) {
        Kept::Refused(cause) => core.not_heard(check, cause),
        Kept::Held => hold_checkpoint(core, check, own),
        Kept::Kept(_) => gather_checkpoint(core, check, own),
    }
}

// The row.
#[tactic(auto, unfolding(zy_table::specs::Checkpoints::checkpoint))]
pub(crate) fn checkpoint<M: Machine>(core: Core<M>, check: Signed<Check>) -> Result<Moved<M>, Want>
    requires active { is_leaving core ≡ false }
    requires range { IsSignedInRange IsCheckInRange check }
    ensures { IfOk result (λ m. m ≡ checkpoint_row M.rules core check) }
{
    let own = core.own_at(check.stmt.place);
    checkpoint_beside(core, check, own)
}
