//! The checkpoints of a history that was taken up are answered anew.

ghost use Rattle.std.specs.Prelude.{◌≡◌, ◌≤◌, ◌<◌, ◌+◌, ◌%◌, ◌^◌, nat_eq, if◌then◌else◌, length, false, Some, None, IfOk, IfSome};
ghost use Rattle.zy_parts.specs.Signing.{IsSignedInRange};
ghost use Rattle.zy_parts.specs.Statements.{IsSpecInRange};
ghost use Rattle.zy_frames.specs.declared.frame.Frame.TheVariants as frames;
ghost use Rattle.zy_exec.specs.Kept.{reply_in};
ghost use Rattle.zy_table.specs.State.{is_leaving, signs_left};
ghost use Rattle.zy_table.specs.Deeds.{send, to_clients};
ghost use Rattle.zy_table.specs.Gathering.{own_at};
ghost use Rattle.zy_table.specs.Adopting.{checkpoints_between};
ghost use Rattle.zy_table.specs.Beginning.{respond_alone as responding, respond_to as responding_to, respond_up_to as responding_up_to};
ghost use Rattle.zy_chain.specs.Answers.{FitsAnswers};

use zy_base::{Bytes, Machine, Place, Want};
use zy_parts::{Signed, Spec};
use zy_replica_state::{Core, Progress, bytes_copy, signed_copy};
use zy_table::OwnCheckpoint;

/// The response to the entry of a checkpoint is signed and kept, and goes to its client and to all. No order goes with it.
fn respond_alone<M: Machine>(
    progress: Progress<M>,
    own: &OwnCheckpoint,
    reply: Bytes,
) -> Result<Progress<M>, Want>
    requires left { 1 ≤ signs_left progress.state }
    requires spec { IsSpecInRange own.now.spec }
    requires reply { FitsAnswers reply }
    ensures { IfOk result (λ g. g ≡ responding M.rules own.now reply progress) }
{
    let (said, signed) = progress.sign_spec(own.spec)?;
    let kept = said.keep_own_spec(own, &signed)?;
    let told = send_alone(kept, &signed, &reply)?;
    told.share_spec(signed, reply, None)
}

fn send_alone<M: Machine>(
    progress: Progress<M>,
    signed: &Signed<Spec>,
    reply: &Bytes,
) -> Result<Progress<M>, Want>
    requires spec { IsSignedInRange IsSpecInRange signed.now }
    requires reply { FitsAnswers reply.now }
    ensures { IfOk result (λ g. g ≡ send (to_clients signed.now.stmt) (frames.SpecResponse signed.now reply.now None) progress) }
{
    let signed = signed_copy(signed)?;
    let reply = bytes_copy(reply)?;
    progress.send_spec(signed, reply, None)
}

fn reply_copy<M: Machine>(core: &Core<M>, place: Place) -> Result<Option<Bytes>, Want>
    ensures reply { IfOk result (λ reply. reply ≡ reply_in M.rules core.now.kept place.0) }
    ensures short { IfOk result (λ reply. IfSome reply (λ bytes. length bytes ≤ 1100)) }
{
    match core.exec().reply_at(place) {
        None => Ok(None),
        Some(reply) => Ok(Some(bytes_copy(reply)?)),
    }
}

// The entry that the own history has at a checkpoint.
fn respond_own<M: Machine>(
    progress: Progress<M>,
    own: &OwnCheckpoint,
    place: Place,
) -> Result<Progress<M>, Want>
    requires left { 1 ≤ signs_left progress.state }
    requires spec { IsSpecInRange own.now.spec }
    ensures { IfOk result (λ g. g ≡ responding_to M.rules (Some own.now) (reply_in M.rules progress.state.kept place.0) progress) }
{
    match reply_copy(&progress.core, place)? {
        None => Ok(progress),
        Some(reply) => respond_alone(progress, own, reply),
    }
}

// What the own history has at a place, if it has come so far.
fn respond_at<M: Machine>(progress: Progress<M>, place: Place) -> Result<Progress<M>, Want>
    requires left { 1 ≤ signs_left progress.state }
    requires active { is_leaving progress.state ≡ false }
    ensures { IfOk result (λ g. g ≡ responding_to M.rules (own_at M.rules progress.state place.0) (reply_in M.rules progress.state.kept place.0) progress) }
{
    // With its view comes what holds of every replica: its entries are of clients for which there is room.
    let _view = progress.core.view();
    match progress.core.own_at(place) {
        None => Ok(progress),
        Some(own) => respond_own(progress, &own, place),
    }
}

/// The checkpoints above the stable place, as far as a place, are answered anew. There are leaves for that.
pub fn respond_up_to<M: Machine>(progress: Progress<M>, place: Place) -> Result<Progress<M>, Want>
    requires place { place.0 < 2 ^ 62 }
    requires active { is_leaving progress.state ≡ false }
    requires left { length (checkpoints_between progress.state.kept.interval progress.state.board.stable.place.0 place.0) ≤ signs_left progress.state }
    ensures { IfOk result (λ g. g ≡ responding_up_to M.rules place.0 progress) }
{
    // With its view comes what holds of every replica: its stable place isn't past its history.
    let _view = progress.core.view();
    let interval = progress.core.exec().interval();
    let stable = progress.core.board().stable_check().place;
    let mut progress = progress;
    for at in stable.0 + 1..place.0 + 1 {
        progress = respond_if(progress, at % interval == 0, Place(at))?;
    }
    Ok(progress)
}

fn respond_if<M: Machine>(
    progress: Progress<M>,
    is_checkpoint: bool,
    place: Place,
) -> Result<Progress<M>, Want>
    requires left { (if is_checkpoint then 1 else 0) ≤ signs_left progress.state }
    requires active { is_leaving progress.state ≡ false }
    ensures { IfOk result (λ g. g ≡ (if is_checkpoint then responding_to M.rules (own_at M.rules progress.state place.0) (reply_in M.rules progress.state.kept place.0) progress else progress)) }
{
    if is_checkpoint {
        respond_at(progress, place)
    } else {
        Ok(progress)
    }
}
