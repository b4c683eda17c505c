//! What a replica answers to an order.

ghost use Rattle.std.specs.Prelude.{◌≡◌, ◌≤◌, ◌<◌, ◌+◌, IfOk, is_some, if◌then◌else◌, true, false, Some, None};
ghost use Rattle.zy_exec.specs.Kept.{last_place};
ghost use Rattle.zy_admit.specs.Judging.{judge_in, ordered_entry};
ghost use Rattle.zy_admit.specs.Orders.{with_order};
ghost use Rattle.zy_table.specs.State.{is_leaving, signs_left, window_of, spent};
ghost use Rattle.zy_base.specs.declared.step.Answer.TheVariants as Answer;
ghost use Rattle.zy_table.specs.Deeds.{ends, begin};
ghost use Rattle.zy_table.specs.Running.{run, signs_of};
ghost use Rattle.zy_table.specs.Orders.{position_of as position_for, take_order as taken, asked_from as asked_at, owes_hole as owes, hole_of as hole_for, ask_for_missing as asked, hold_order as held, order_as as answered_as};
ghost use Rattle.zy_parts.specs.Numbers as numbers;
ghost use Rattle.zy_parts.specs.Signing.{IsSignedInRange};
ghost use Rattle.zy_seal.specs.Sealing.{sealed_by};
ghost use Rattle.zy_parts.specs.Statements.{IsHoleInRange, hole_fields};
ghost use Rattle.zy_replica_state.specs.Ready.{IsOrderReady};

use crate::running::{can_run, run_all};
use zy_admit::{Admit, Position, client_of};
use zy_base::{Answer, Cause, Machine, Place, Want};
use zy_frames::OrderFrame;
use zy_parts::{Hole, Signed};
use zy_replica_state::{Core, Moved, Progress, signed_copy};
use zy_table::{Body, To};

fn position_of<M: Machine>(core: &Core<M>, frame: &OrderFrame) -> Position
    ensures { result ≡ position_for M.rules core.now frame.now }
{
    Position {
        end: core.length(),
        head: core.head(),
        window: core.window(),
        last: core.last_stamp(client_of(frame.ask.by)),
    }
}

// The order is kept, and nothing is missing any more.
fn accept<M: Machine>(core: Core<M>, frame: &OrderFrame) -> Result<Core<M>, Want>
    requires order { IsOrderReady frame.now }
    requires above { last_place core.kept < frame.now.order.stmt.place.0 }
    requires within { frame.now.order.stmt.place.0 ≤ window_of core }
    ensures { IfOk result (λ r. r ≡ record core { orders = with_order core.orders frame.now; hole = None }) }
{
    Ok(core.keep_copy(frame)?.keep_hole(None))
}

// An order that is next.
fn take_order<M: Machine>(core: Core<M>, frame: OrderFrame) -> Result<Moved<M>, Want>
    requires active { is_leaving core ≡ false }
    requires order { IsOrderReady frame }
    requires above { last_place core.kept < frame.order.stmt.place.0 }
    requires within { frame.order.stmt.place.0 ≤ window_of core }
    ensures { IfOk result (λ m. m ≡ taken M.rules core frame) }
{
    match can_run(core, &frame.ask, 0) {
        Ok((core, true)) => {
            let ran = accept_and_run(core, &frame);
            drop(frame);
            ran
        }
        Ok((core, false)) => core.not_heard(frame, Cause::KeySpent),
        Err(want) => {
            drop(frame);
            Err(want)
        }
    }
}

fn accept_and_run<M: Machine>(core: Core<M>, frame: &OrderFrame) -> Result<Moved<M>, Want>
    requires active { is_leaving core ≡ false }
    requires left { signs_of M.rules core (ordered_entry frame.now) ≤ signs_left core }
    requires order { IsOrderReady frame.now }
    requires above { last_place core.kept < frame.now.order.stmt.place.0 }
    requires within { frame.now.order.stmt.place.0 ≤ window_of core }
    ensures { IfOk result (λ m. m ≡ ends Answer.Taken (run M.rules frame.now (begin (record core { orders = with_order core.orders frame.now; hole = None })))) }
{
    run_all(accept(core, frame)?.begin(), frame)
}

// The missing orders have to be asked for: nothing is held at the next place, and nothing was asked for there.
fn owes_hole<M: Machine>(core: &Core<M>) -> bool
    ensures { result ≡ owes core.now }
{
    let next = Place(core.length().0 + 1);
    core.orders().stored(next).is_none() && !has_asked_from(core, next)
}

fn has_asked_from<M: Machine>(core: &Core<M>, place: Place) -> bool
    ensures { result ≡ asked_at core.now.hole place.0 }
{
    match core.hole() {
        None => false,
        Some(hole) => hole.stmt.from == place,
    }
}

fn seal_hole<M: Machine>(core: Core<M>) -> Result<(Core<M>, Signed<Hole>), Want>
    requires left { 1 ≤ signs_left core }
    requires room { last_place core.kept < window_of core }
    ensures core { IfOk result (λ r. r.0 ≡ record (spent core) { hole = Some (sealed_by numbers.hole hole_fields core.sealer (hole_for core)) }) }
    ensures hole { IfOk result (λ r. r.1 ≡ sealed_by numbers.hole hole_fields core.sealer (hole_for core)) }
    ensures range { IfOk result (λ r. IsSignedInRange IsHoleInRange r.1) }
{
    let hole = core.hole_of();
    let (core, signed) = core.seal(hole)?;
    let copy = signed_copy(&signed)?;
    Ok((core.keep_hole(Some(copy)), signed))
}

// The primary is asked for them.
fn ask_for_missing<M: Machine>(core: Core<M>) -> Result<Progress<M>, Want>
    requires left { 1 ≤ signs_left core }
    requires room { last_place core.kept < window_of core }
    ensures { IfOk result (λ g. g ≡ asked M.rules core) }
{
    let stood = core.stood();
    let to = To::One(core.primary());
    let (core, signed) = seal_hole(core)?;
    let progress = core.begin().says(Body::Hole(signed.stmt), stood)?;
    progress.send_hole(to, signed)
}

// An order that is held.
fn hold_order<M: Machine>(core: Core<M>, frame: OrderFrame) -> Result<Moved<M>, Want>
    requires order { IsOrderReady frame }
    requires above { last_place core.kept < frame.order.stmt.place.0 }
    requires within { frame.order.stmt.place.0 ≤ window_of core }
    ensures { IfOk result (λ m. m ≡ held M.rules core frame) }
{
    if !owes_hole(&core) {
        let core = core.keep_order(frame)?;
        return Ok(core.begin().ends(Answer::Held));
    }
    if core.signs_left() == 0 {
        return core.not_heard(frame, Cause::KeySpent);
    }
    let progress = ask_for_missing(core.keep_order(frame)?)?;
    Ok(progress.ends(Answer::Held))
}

/// How an order is judged beside those that are kept and the own history.
pub fn judge<M: Machine>(core: &Core<M>, frame: &OrderFrame) -> Admit
    requires { IsOrderReady frame.now }
    ensures { result ≡ judge_in core.now.orders frame.now.order.stmt (ordered_entry frame.now) (position_for M.rules core.now frame.now) }
{
    let position = position_of(core, frame);
    core.orders()
        .judge(&frame.order.stmt, &frame.ask, &position)
}

/// An order of the own view that was judged so.
pub fn order_as<M: Machine>(
    core: Core<M>,
    frame: OrderFrame,
    admit: Admit,
) -> Result<Moved<M>, Want>
    requires active { is_leaving core ≡ false }
    requires order { IsOrderReady frame }
    requires judged { admit ≡ judge_in core.orders frame.order.stmt (ordered_entry frame) (position_for M.rules core frame) }
    ensures { IfOk result (λ m. m ≡ answered_as M.rules core frame admit) }
{
    match admit {
        Admit::Next => take_order(core, frame),
        Admit::Held => hold_order(core, frame),
        Admit::Refused(cause) => core.not_heard(frame, cause),
        Admit::Evidence => core.not_heard(frame, Cause::Unmatched),
    }
}
