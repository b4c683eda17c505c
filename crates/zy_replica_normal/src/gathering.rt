//! What a replica makes of the responses and checkpoints that are kept at a multiple of the checkpoint interval: a commit
//! certificate, its own checkpoint, and in the end a place that is stable.

ghost use Rattle.std.specs.Prelude.{◌≡◌, ◌≤◌, if◌then◌else◌, Some, IfOk};
ghost use Rattle.std.specs.Option.{ForSome};
ghost use Rattle.zy_parts.specs.Numbers as numbers;
ghost use Rattle.zy_parts.specs.Signing.{IsSignedInRange};
ghost use Rattle.zy_parts.specs.Statements.{IsCheckInRange, check_fields};
ghost use Rattle.zy_seal.specs.Sealing.{sealed_by};
ghost use Rattle.zy_check.specs.Judging.{after_check};
ghost use Rattle.zy_table.specs.State.{signs_left, spent};
ghost use Rattle.zy_table.specs.Gathering.{certificate_at, keep_certificate, owes_check, checks_owed, say_check as check_said, say_check_if as check_said_if, settle_own as own_settled, gather as gathered, gather_at as gathered_at};
ghost use Rattle.zy_replica_state.specs.Ready.{IsOwnReady};

use zy_base::{Machine, Want};
use zy_parts::{Check, Signed};
use zy_replica_state::{Core, Progress, signed_copy};
use zy_table::{Body, OwnCheckpoint};

// The checkpoint, signed and kept.
fn seal_check<M: Machine>(core: Core<M>, own: &Check) -> Result<(Core<M>, Signed<Check>), Want>
    requires left { 1 ≤ signs_left core }
    requires range { IsCheckInRange own.now }
    ensures core { IfOk result (λ r. r.0 ≡ record (spent core) { board = after_check core.board (sealed_by numbers.check check_fields core.sealer own.now) (Some own.now) }) }
    ensures check { IfOk result (λ r. r.1 ≡ sealed_by numbers.check check_fields core.sealer own.now) }
    ensures range { IfOk result (λ r. IsSignedInRange IsCheckInRange r.1) }
{
    let (core, signed) = core.seal(*own)?;
    let copy = signed_copy(&signed)?;
    let core = core.keep_own_check(own, copy)?;
    Ok((core, signed))
}

// It is signed, kept and sent to all.
fn say_check<M: Machine>(progress: Progress<M>, own: &Check) -> Result<Progress<M>, Want>
    requires left { 1 ≤ signs_left progress.state }
    requires range { IsCheckInRange own.now }
    ensures { IfOk result (λ g. g ≡ check_said M.rules own.now progress) }
{
    let Progress { core, deeds } = progress;
    let stood = core.stood();
    let (core, signed) = seal_check(core, own)?;
    let progress = Progress { core, deeds }.says(Body::Check(*own), stood)?;
    progress.send_check(signed)
}

fn say_check_if<M: Machine>(
    progress: Progress<M>,
    owes: bool,
    own: &Check,
) -> Result<Progress<M>, Want>
    requires left { (if owes then 1 else 0) ≤ signs_left progress.state }
    requires range { IsCheckInRange own.now }
    ensures progress { IfOk result (λ g. g ≡ check_said_if M.rules owes own.now progress) }
    ensures kept { IfOk result (λ g. g.state.kept ≡ progress.state.kept) }
    ensures views { IfOk result (λ g. g.state.views ≡ progress.state.views) }
{
    if owes {
        say_check(progress, own)
    } else {
        Ok(progress)
    }
}

fn keep_certificate_at<M: Machine>(
    progress: Progress<M>,
    own: &OwnCheckpoint,
) -> Result<Progress<M>, Want>
    requires { IsOwnReady progress.state.kept progress.state.views.last_view own.now }
    ensures progress { IfOk result (λ g. g ≡ record progress { state = keep_certificate own.now.spec.place (certificate_at progress.state own.now.spec) progress.state }) }
    ensures sealer { IfOk result (λ g. g.state.sealer ≡ progress.state.sealer) }
    ensures kept { IfOk result (λ g. g.state.kept ≡ progress.state.kept) }
    ensures last { IfOk result (λ g. g.state.views.last_view ≡ progress.state.views.last_view) }
{
    let Progress { core, deeds } = progress;
    let core = core.keep_certificate_at(own)?;
    Ok(Progress { core, deeds })
}

fn settle_own<M: Machine>(progress: Progress<M>, own: &OwnCheckpoint) -> Result<Progress<M>, Want>
    requires { IsOwnReady progress.state.kept progress.state.views.last_view own.now }
    ensures { IfOk result (λ g. g ≡ own_settled M.rules own.now.check progress) }
{
    let Progress { core, deeds } = progress;
    let core = core.settle_own(own)?;
    Ok(Progress { core, deeds })
}

// All of it, at a place of which the own history says this.
#[tactic(auto, unfolding(zy_table::specs::Gathering::gather))]
pub(crate) fn gather<M: Machine>(
    progress: Progress<M>,
    own: &OwnCheckpoint,
    brought: bool,
) -> Result<Progress<M>, Want>
    requires left { (if owes_check progress.state own.now brought then 1 else 0) ≤ signs_left progress.state }
    requires own { IsOwnReady progress.state.kept progress.state.views.last_view own.now }
    ensures { IfOk result (λ g. g ≡ gathered M.rules own.now brought progress) }
{
    let owes = progress.core.owes_check(own, brought);
    let progress = keep_certificate_at(progress, own)?;
    let progress = say_check_if(progress, owes, &own.check)?;
    settle_own(progress, own)
}

/// What is kept at a place is looked through beside what the own history says there; a certificate may have been brought
/// for it. A signature is left for the checkpoint that this owes.
pub fn gather_at<M: Machine>(
    progress: Progress<M>,
    own: Option<OwnCheckpoint>,
    brought: bool,
) -> Result<Progress<M>, Want>
    requires left { checks_owed progress.state own brought ≤ signs_left progress.state }
    requires own { ForSome own (IsOwnReady progress.state.kept progress.state.views.last_view) }
    ensures { IfOk result (λ g. g ≡ gathered_at M.rules own brought progress) }
{
    match own {
        None => Ok(progress),
        Some(own) => gather(progress, &own, brought),
    }
}
