//! Running an order: its entry is executed and answered in the same step, and then the orders that were held for it.

ghost use Rattle.std.specs.Prelude.{◌≡◌, ◌≤◌, ◌<◌, ◌+◌, nat_le, length, Some, Option, false, if◌then◌else◌, IsFalse, IfOk};
ghost use Rattle.zy_base.specs.declared.ids.Digest.{Digest};
ghost use Rattle.zy_base.specs.declared.ids.Party.TheVariants as parties;
ghost use Rattle.zy_base.specs.declared.step.Answer.TheVariants as Answer;
ghost use Rattle.zy_parts.specs.Numbers as numbers;
ghost use Rattle.zy_parts.specs.Signing.{IsSignedInRange};
ghost use Rattle.zy_parts.specs.Statements.{IsOrderInRange, IsSpecInRange, spec_fields};
ghost use Rattle.zy_seal.specs.Sealing.{sealed_by};
ghost use Rattle.zy_exec.specs.Kept.{last_place, longer, stretch_of};
ghost use Rattle.zy_chain.specs.Stretch.{head_in};
ghost use Rattle.zy_exec.specs.Known.{IsKnownInRange};
ghost use Rattle.zy_exec.specs.Shots.{snapshot_in};
ghost use Rattle.zy_admit.specs.Judging.{entry_of as entry_asked, ordered_entry};
ghost use Rattle.zy_admit.specs.Orders.{slots_above, without_order, stored_in};
ghost use Rattle.zy_frames.specs.declared.frame.Frame.TheVariants as frames;
ghost use Rattle.zy_check.specs.Board.{IsBoard};
ghost use Rattle.zy_table.specs.declared.deeds.Act.TheVariants as acts;
ghost use Rattle.zy_table.specs.State.{own_view, is_leaving, window_of, signs_left};
ghost use Rattle.zy_table.specs.Deeds.{ends, send, act as acting, to_clients};
ghost use Rattle.zy_table.specs.Gathering.{own_with as own_by, with_own_spec, owes_check, state_in, signs_with as signs_by};
ghost use Rattle.zy_table.specs.Running.{executed, without_pending, next_known, got_from, spec_of as spec_for, respond as respond_with, share as shared, answered, signs_of as signs_for, run_one as one_run, run_held as held_run, fits_end as fits, run as whole_run};
ghost use Rattle.zy_replica_state.specs.Ready.{IsAskReady, IsOrderReady, IsOwnReady};
ghost use Rattle.zy_table.specs.Adopting.{IsGotInRange};
ghost use Rattle.zy_chain.specs.Answers.{FitsAnswers};

use crate::gathering::gather;
use zy_admit::{client_of, is_newer, request_digest_of};
use zy_base::{Answer, Bytes, Digest, Machine, Place, Want};
use zy_chain::next_head;
use zy_exec::Known;
use zy_frames::OrderFrame;
use zy_parts::{Ask, Order, Signed, Spec};
use zy_replica_state::{
    Core, Moved, Progress, bytes_copy, entry_of, own_with, signed_copy, spec_of,
};
use zy_table::{Act, Got};

// ---- an entry is executed

fn got_of(
    before: Digest,
    ask: &Signed<Ask>,
    known: &Known,
    snapshot: Option<Bytes>,
) -> Result<Got, Want>
    requires ask { IsAskReady ask.now }
    requires known { IsKnownInRange known.now }
    ensures got { IfOk result (λ got. got ≡ got_from before (entry_asked ask.now) known.now snapshot) }
    ensures range { IfOk result IsGotInRange }
{
    let entry = entry_of(ask)?;
    let reply = bytes_copy(&known.reply)?;
    Ok(Got {
        place: known.place,
        before,
        entry,
        head: known.head,
        reply,
        snapshot,
    })
}

// The entry that a request asks for, and what is known of it.
fn run_entry<M: Machine>(core: Core<M>, ask: &Signed<Ask>) -> Result<(Core<M>, Known), Want>
    requires room { last_place core.kept < window_of core }
    requires ask { IsAskReady ask.now }
    ensures core { IfOk result (λ r. r.0 ≡ record core { kept = longer core.kept (entry_asked ask.now) }) }
    ensures known { IfOk result (λ r. r.1 ≡ next_known M.rules core (entry_asked ask.now)) }
    ensures place { IfOk result (λ r. r.1.place.0 ≡ last_place core.kept + 1) }
    ensures range { IfOk result (λ r. IsKnownInRange r.1) }
{
    let (core, reply) = core.run_entry(entry_of(ask)?)?;
    let known = Known {
        stamp: ask.stmt.stamp,
        place: core.length(),
        head: core.head(),
        reply,
    };
    Ok((core, known))
}

// The same, and its request waits no longer.
fn run_ask<M: Machine>(core: Core<M>, ask: &Signed<Ask>) -> Result<(Core<M>, Known), Want>
    requires room { last_place core.kept < window_of core }
    requires ask { IsAskReady ask.now }
    ensures core { IfOk result (λ r. r.0 ≡ without_pending (record core { kept = longer core.kept (entry_asked ask.now) }) (entry_asked ask.now)) }
    ensures known { IfOk result (λ r. r.1 ≡ next_known M.rules core (entry_asked ask.now)) }
    ensures place { IfOk result (λ r. r.1.place.0 ≡ last_place core.kept + 1) }
    ensures range { IfOk result (λ r. IsKnownInRange r.1) }
{
    let (core, known) = run_entry(core, ask)?;
    let core = core.drop_pending(client_of(ask.by), ask.stmt.stamp);
    Ok((core, known))
}

fn run_in<M: Machine>(
    progress: Progress<M>,
    ask: &Signed<Ask>,
) -> Result<(Progress<M>, Known), Want>
    requires room { last_place progress.state.kept < window_of progress.state }
    requires ask { IsAskReady ask.now }
    ensures progress { IfOk result (λ r. r.0 ≡ record progress { state = without_pending (record progress.state { kept = longer progress.state.kept (entry_asked ask.now) }) (entry_asked ask.now) }) }
    ensures known { IfOk result (λ r. r.1 ≡ next_known M.rules progress.state (entry_asked ask.now)) }
    ensures place { IfOk result (λ r. r.1.place.0 ≡ last_place progress.state.kept + 1) }
    ensures range { IfOk result (λ r. IsKnownInRange r.1) }
{
    let Progress { core, deeds } = progress;
    let (core, known) = run_ask(core, ask)?;
    Ok((Progress { core, deeds }, known))
}

fn gains<M: Machine>(
    progress: Progress<M>,
    before: Digest,
    ask: &Signed<Ask>,
    known: &Known,
) -> Result<Progress<M>, Want>
    requires ask { IsAskReady ask.now }
    requires known { IsKnownInRange known.now }
    ensures { IfOk result (λ g. g ≡ acting (acts.Gains (got_from before (entry_asked ask.now) known.now (snapshot_in M.rules progress.state.kept known.now.place.0))) progress) }
{
    let snapshot = progress.core.snapshot_at(known.place)?;
    let got = got_of(before, ask, known, snapshot)?;
    progress.act(Act::Gains(got))
}

// The history gets the entry. Beside it what is known of it.
fn execute<M: Machine>(
    progress: Progress<M>,
    ask: &Signed<Ask>,
) -> Result<(Progress<M>, Known), Want>
    requires room { last_place progress.state.kept < window_of progress.state }
    requires ask { IsAskReady ask.now }
    ensures progress { IfOk result (λ r. r.0 ≡ executed M.rules (entry_asked ask.now) progress) }
    ensures known { IfOk result (λ r. r.1 ≡ next_known M.rules progress.state (entry_asked ask.now)) }
    ensures place { IfOk result (λ r. r.1.place.0 ≡ last_place progress.state.kept + 1) }
    ensures range { IfOk result (λ r. IsKnownInRange r.1) }
{
    let before = progress.core.head();
    let (progress, known) = run_in(progress, ask)?;
    let progress = gains(progress, before, ask, &known)?;
    Ok((progress, known))
}

// ---- how many statements that signs

// How many are signed once a request's entry is executed, which is taken out again.
fn count_signs<M: Machine>(core: Core<M>, ask: &Signed<Ask>) -> Result<(Core<M>, u32), Want>
    requires room { last_place core.kept < window_of core }
    requires ask { IsAskReady ask.now }
    ensures core { IfOk result (λ r. r.0 ≡ core) }
    ensures signs { IfOk result (λ r. r.1 ≡ signs_for M.rules core (entry_asked ask.now)) }
{
    let own_view = core.view();
    let (core, known) = run_entry(core, ask)?;
    let spec = spec_of(own_view, ask, &known);
    let state = core.exec().snapshot_digest_at(spec.place);
    let signs = core.signs_with(&spec, state);
    drop(known);
    Ok((core.unrun(), signs))
}

/// Whether enough signatures are left for all that running a request's entry signs, and for some statements more. Running
/// signs one statement or two: only where that decides is the entry executed for it, and taken out again.
pub fn can_run<M: Machine>(
    core: Core<M>,
    ask: &Signed<Ask>,
    more: u32,
) -> Result<(Core<M>, bool), Want>
    requires room { last_place core.kept < window_of core }
    requires ask { IsAskReady ask.now }
    requires more { more ≤ 1 }
    ensures core { IfOk result (λ r. r.0 ≡ core) }
    ensures fits { IfOk result (λ r. r.1 ≡ nat_le (signs_for M.rules core (entry_asked ask.now) + more) (signs_left core)) }
{
    let left = core.signs_left();
    if left != more + 1 {
        return Ok((core, left > more));
    }
    let (core, signs) = count_signs(core, ask)?;
    Ok((core, signs == 1))
}

// ---- an executed entry is answered

// The response is signed, kept, and sent to the client with its order.
fn respond<M: Machine>(
    progress: Progress<M>,
    order: Signed<Order>,
    spec: Spec,
    reply: Bytes,
) -> Result<Progress<M>, Want>
    requires left { 1 ≤ signs_left progress.state }
    requires order { IsSignedInRange IsOrderInRange order }
    requires spec { IsSpecInRange spec }
    requires reply { FitsAnswers reply }
    ensures { IfOk result (λ g. g ≡ respond_with M.rules order (sealed_by numbers.spec spec_fields progress.state.sealer spec) reply progress) }
{
    match progress.sign_spec(spec) {
        Ok((progress, signed)) => progress.send_spec(signed, reply, Some(order)),
        Err(want) => {
            drop((order, reply));
            Err(want)
        }
    }
}

// The same, with copies. Beside it the response.
fn respond_by_copy<M: Machine>(
    progress: Progress<M>,
    order: &Signed<Order>,
    spec: Spec,
    reply: &Bytes,
) -> Result<(Progress<M>, Signed<Spec>), Want>
    requires left { 1 ≤ signs_left progress.state }
    requires order { IsSignedInRange IsOrderInRange order.now }
    requires spec { IsSpecInRange spec }
    requires reply { FitsAnswers reply.now }
    ensures progress { IfOk result (λ r. r.0 ≡ respond_with M.rules order.now (sealed_by numbers.spec spec_fields progress.state.sealer spec) reply.now progress) }
    ensures spec { IfOk result (λ r. r.1 ≡ sealed_by numbers.spec spec_fields progress.state.sealer spec) }
    ensures range { IfOk result (λ r. IsSignedInRange IsSpecInRange r.1) }
{
    let (progress, signed) = progress.sign_spec(spec)?;
    let progress = send_copy(progress, order, &signed, reply)?;
    Ok((progress, signed))
}

fn send_copy<M: Machine>(
    progress: Progress<M>,
    order: &Signed<Order>,
    signed: &Signed<Spec>,
    reply: &Bytes,
) -> Result<Progress<M>, Want>
    requires order { IsSignedInRange IsOrderInRange order.now }
    requires spec { IsSignedInRange IsSpecInRange signed.now }
    requires reply { FitsAnswers reply.now }
    ensures { IfOk result (λ g. g ≡ send (to_clients signed.now.stmt) (frames.SpecResponse signed.now reply.now (Some order.now)) progress) }
{
    let order = signed_copy(order)?;
    let signed = signed_copy(signed)?;
    let reply = bytes_copy(reply)?;
    progress.send_spec(signed, reply, Some(order))
}

// At a multiple of the interval it goes to all as well, it is kept with those of others, and what is kept is looked
// through.
fn share<M: Machine>(
    progress: Progress<M>,
    order: Signed<Order>,
    signed: Signed<Spec>,
    reply: Bytes,
    state: Digest,
) -> Result<Progress<M>, Want>
    requires order { IsSignedInRange IsOrderInRange order }
    requires spec { IsSignedInRange IsSpecInRange signed }
    requires reply { FitsAnswers reply }
    requires own { IsOwnReady progress.state.kept progress.state.views.last_view (own_by signed.stmt state) }
    requires left { (if owes_check (with_own_spec progress.state (own_by signed.stmt state) signed) (own_by signed.stmt state) false then 1 else 0) ≤ signs_left progress.state }
    ensures { IfOk result (λ g. g ≡ shared M.rules order signed reply (Some state) progress) }
{
    let own = own_with(signed.stmt, state);
    let kept = progress.keep_own_spec(&own, &signed)?;
    let told = kept.share_spec(signed, reply, Some(order))?;
    gather(told, &own, false)
}

// The digest of the snapshot at a place, where there is one.
fn state_at<M: Machine>(progress: &Progress<M>, place: Place) -> Option<Digest>
    ensures { result ≡ state_in M.rules progress.now.state.kept place.0 }
{
    progress.core.exec().snapshot_digest_at(place)
}

// An entry that was executed is answered: the response, and what goes with it at a multiple of the interval.
fn answer<M: Machine>(
    progress: Progress<M>,
    order: Signed<Order>,
    spec: Spec,
    reply: Bytes,
) -> Result<Progress<M>, Want>
    requires board { IsBoard progress.state.board }
    requires signer { progress.state.sealer.me ≡ parties.Replica progress.state.me }
    requires order { IsSignedInRange IsOrderInRange order }
    requires spec { IsSpecInRange spec }
    requires reply { FitsAnswers reply }
    requires view { spec.view ≡ progress.state.views.last_view }
    requires head { head_in (stretch_of progress.state.kept) spec.place.0 ≡ Some spec.head }
    requires above { progress.state.kept.base.place < spec.place.0 }
    requires within { spec.place.0 ≤ last_place progress.state.kept }
    requires left { signs_by progress.state spec (state_in M.rules progress.state.kept spec.place.0) ≤ signs_left progress.state }
    ensures { IfOk result (λ g. g ≡ answered M.rules order spec reply progress) }
{
    match state_at(&progress, spec.place) {
        None => respond(progress, order, spec, reply),
        Some(state) => answer_all(progress, order, spec, reply, state),
    }
}

fn answer_all<M: Machine>(
    progress: Progress<M>,
    order: Signed<Order>,
    spec: Spec,
    reply: Bytes,
    state: Digest,
) -> Result<Progress<M>, Want>
    requires board { IsBoard progress.state.board }
    requires signer { progress.state.sealer.me ≡ parties.Replica progress.state.me }
    requires order { IsSignedInRange IsOrderInRange order }
    requires spec { IsSpecInRange spec }
    requires reply { FitsAnswers reply }
    requires view { spec.view ≡ progress.state.views.last_view }
    requires head { head_in (stretch_of progress.state.kept) spec.place.0 ≡ Some spec.head }
    requires above { progress.state.kept.base.place < spec.place.0 }
    requires within { spec.place.0 ≤ last_place progress.state.kept }
    requires state { state_in M.rules progress.state.kept spec.place.0 ≡ Some state }
    requires left { signs_by progress.state spec (Some state) ≤ signs_left progress.state }
    ensures { IfOk result (λ g. g ≡ answered M.rules order spec reply progress) }
{
    let (told, signed) = respond_by_copy(progress, &order, spec, &reply)?;
    share(told, order, signed, reply, state)
}

// ---- orders are run

// One order: its entry is executed, and then answered.
#[tactic(auto, unfolding(zy_table::specs::Running::run_one))]
fn run_one<M: Machine>(progress: Progress<M>, frame: &OrderFrame) -> Result<Progress<M>, Want>
    requires active { is_leaving progress.state ≡ false }
    requires left { signs_for M.rules progress.state (ordered_entry frame.now) ≤ signs_left progress.state }
    requires room { last_place progress.state.kept < window_of progress.state }
    requires order { IsOrderReady frame.now }
    ensures progress { IfOk result (λ g. g ≡ one_run M.rules frame.now progress) }
    ensures active { IfOk result (λ g. is_leaving g.state ≡ false) }
    ensures base { progress.state.orders.base ≤ last_place progress.state.kept }
{
    let own_view = progress.core.view();
    let (ran, known) = execute(progress, &frame.ask)?;
    let spec = spec_of(own_view, &frame.ask, &known);
    let order = signed_copy(&frame.order)?;
    answer(ran, order, spec, known.reply)
}

// The order has the head and the stamp that the next one has to have.
fn fits_end<M: Machine>(core: &Core<M>, frame: &OrderFrame) -> bool
    requires { IsOrderReady frame.now }
    ensures { result ≡ fits M.rules core.now frame.now }
{
    let head = next_head(&core.head(), &request_digest_of(&frame.ask));
    frame.order.stmt.head == head
        && is_newer(
            frame.ask.stmt.stamp,
            core.last_stamp(client_of(frame.ask.by)),
        )
}

// The orders that are held in the next slots, as long as signatures are left; one that doesn't fit is dropped.
fn run_held<M: Machine>(progress: Progress<M>) -> Result<Progress<M>, Want>
    requires { is_leaving progress.state ≡ false }
    ensures { IfOk result (λ g. g ≡ held_run M.rules (slots_above (last_place progress.state.kept) progress.state.orders) progress) }
{
    let mut progress = progress;
    let mut more = true;
    while more {
        (progress, more) = run_next(progress)?;
    }
    Ok(progress)
}

// The order that is held for the next place, and whether it was run.
fn run_next<M: Machine>(progress: Progress<M>) -> Result<(Progress<M>, bool), Want>
    requires { is_leaving progress.state ≡ false }
    ensures goes_on { IfOk result (λ r. held_run M.rules (slots_above (last_place r.0.state.kept) r.0.state.orders) r.0 ≡ held_run M.rules (slots_above (last_place progress.state.kept) progress.state.orders) progress) }
    ensures active { IfOk result (λ r. is_leaving r.0.state ≡ false) }
    ensures ended { IfOk result (λ r. IsFalse r.1 → held_run M.rules (slots_above (last_place r.0.state.kept) r.0.state.orders) r.0 ≡ r.0) }
    ensures fewer { IfOk result (λ r. length (slots_above (last_place r.0.state.kept) r.0.state.orders) + (if r.1 then 1 else 0) ≡ length (slots_above (last_place progress.state.kept) progress.state.orders)) }
{
    match progress.core.next_held()? {
        None => Ok((progress, false)),
        Some(held) => {
            let ran = run_if_fits(progress, &held);
            drop(held);
            ran
        }
    }
}

fn run_if_fits<M: Machine>(
    progress: Progress<M>,
    held: &OrderFrame,
) -> Result<(Progress<M>, bool), Want>
    requires active { is_leaving progress.state ≡ false }
    requires base { progress.state.orders.base ≤ last_place progress.state.kept }
    requires room { last_place progress.state.kept < window_of progress.state }
    requires stored { stored_in progress.state.orders (last_place progress.state.kept + 1) ≡ Some held.now }
    requires ready { IsOrderReady held.now }
    ensures goes_on { IfOk result (λ r. held_run M.rules (slots_above (last_place r.0.state.kept) r.0.state.orders) r.0 ≡ held_run M.rules (slots_above (last_place progress.state.kept) progress.state.orders) progress) }
    ensures active { IfOk result (λ r. is_leaving r.0.state ≡ false) }
    ensures ended { IfOk result (λ r. IsFalse r.1 → held_run M.rules (slots_above (last_place r.0.state.kept) r.0.state.orders) r.0 ≡ r.0) }
    ensures fewer { IfOk result (λ r. length (slots_above (last_place r.0.state.kept) r.0.state.orders) + (if r.1 then 1 else 0) ≡ length (slots_above (last_place progress.state.kept) progress.state.orders)) }
{
    if !fits_end(&progress.core, held) {
        return Ok((drop_next(progress), false));
    }
    let (progress, can_run) = can_run_in(progress, &held.ask)?;
    if !can_run {
        return Ok((progress, false));
    }
    Ok((run_one(progress, held)?, true))
}

fn can_run_in<M: Machine>(
    progress: Progress<M>,
    ask: &Signed<Ask>,
) -> Result<(Progress<M>, bool), Want>
    requires room { last_place progress.state.kept < window_of progress.state }
    requires ask { IsAskReady ask.now }
    ensures progress { IfOk result (λ r. r.0 ≡ progress) }
    ensures fits { IfOk result (λ r. r.1 ≡ nat_le (signs_for M.rules progress.state (entry_asked ask.now)) (signs_left progress.state)) }
{
    let Progress { core, deeds } = progress;
    let (core, can_run) = can_run(core, ask, 0)?;
    Ok((Progress { core, deeds }, can_run))
}

fn drop_next<M: Machine>(progress: Progress<M>) -> Progress<M>
    ensures { result ≡ record progress { state = record progress.state { orders = without_order progress.state.orders (last_place progress.state.kept + 1) } } }
{
    let Progress { core, deeds } = progress;
    let next = Place(core.length().0 + 1);
    Progress {
        core: core.drop_order(next),
        deeds,
    }
}

// An order that is next, and those that were held for it.
fn run<M: Machine>(progress: Progress<M>, frame: &OrderFrame) -> Result<Progress<M>, Want>
    requires active { is_leaving progress.state ≡ false }
    requires left { signs_for M.rules progress.state (ordered_entry frame.now) ≤ signs_left progress.state }
    requires room { last_place progress.state.kept < window_of progress.state }
    requires order { IsOrderReady frame.now }
    ensures { IfOk result (λ g. g ≡ whole_run M.rules frame.now progress) }
{
    run_held(run_one(progress, frame)?)
}

/// An order that is next, and those that were held for it; with that the step ends.
pub fn run_all<M: Machine>(progress: Progress<M>, frame: &OrderFrame) -> Result<Moved<M>, Want>
    requires active { is_leaving progress.state ≡ false }
    requires left { signs_for M.rules progress.state (ordered_entry frame.now) ≤ signs_left progress.state }
    requires room { last_place progress.state.kept < window_of progress.state }
    requires order { IsOrderReady frame.now }
    ensures { IfOk result (λ m. m ≡ ends Answer.Taken (whole_run M.rules frame.now progress)) }
{
    Ok(run(progress, frame)?.ends(Answer::Taken))
}
