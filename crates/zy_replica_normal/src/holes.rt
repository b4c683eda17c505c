//! What a replica answers to one that lacks orders.

ghost use Rattle.std.specs.Prelude.{◌≡◌, ◌≤◌, ◌<◌, ◌^◌, IfOk, map, [], nat_le, if◌then◌else◌};
ghost use Rattle.zy_base.specs.declared.cause.Cause.TheVariants as causes;
ghost use Rattle.zy_base.specs.declared.step.Answer.TheVariants as Answer;
ghost use Rattle.zy_exec.specs.Kept.{last_place};
ghost use Rattle.zy_table.specs.Deeds.{refused as refused_with};
ghost use Rattle.std.specs.List.{AllByRecursion};
ghost use Rattle.zy_parts.specs.Signing.{IsSignedInRange};
ghost use Rattle.zy_parts.specs.Statements.{IsHoleInRange};
ghost use Rattle.zy_table.specs.Holes.{order_to, fill_with as filled_with, fill_hole as fill_row};
ghost use Rattle.zy_replica_state.specs.Ready.{IsOrderReady};

use std::alloc::Global;
use zy_base::{Answer, Cause, Items, Machine, Party, Want};
use zy_frames::{Frame, OrderFrame};
use zy_parts::{Hole, Signed};
use zy_replica_state::{Core, Moved, Progress};
use zy_table::{AnyFrame, Deeds, Sent, To};

// Some orders, to the one that asked for them.
fn orders_to(alloc: Global, by: Party, orders: Vec<OrderFrame>) -> Result<Items<Sent>, Want>
    ensures { IfOk result (λ sent. sent ≡ map (order_to by) orders.items) }
{
    let mut sent = Items::new(alloc);
    for order in orders {
        sent.push(Sent {
            to: To::One(by),
            frame: AnyFrame::Plain(Frame::Order(order)),
        })?;
    }
    Ok(sent)
}

// Nothing is kept in the range: it lies before, or it hasn't come.
fn nothing_kept<M: Machine>(core: Core<M>, hole: &Hole) -> Moved<M>
    ensures { result ≡ (if nat_le hole.now.to.0 (last_place core.kept) then refused_with causes.OldPlace core else refused_with (causes.Behind hole.now.to) core) }
{
    if hole.to <= core.length() {
        core.refused(Cause::OldPlace)
    } else {
        core.refused(Cause::Behind(hole.to))
    }
}

fn send_orders<M: Machine>(
    core: Core<M>,
    by: Party,
    orders: Vec<OrderFrame>,
) -> Result<Moved<M>, Want>
    requires { AllByRecursion IsOrderReady orders.items }
    ensures { IfOk result (λ m. m ≡ record { answer = Answer.Taken; state = core; deeds = record { sent = map (order_to by) orders.items; acts = [] } }) }
{
    let alloc = core.allocator();
    let deeds = Deeds {
        sent: orders_to(alloc, by, orders)?,
        acts: Items::new(alloc),
    };
    Ok(Progress { core, deeds }.ends(Answer::Taken))
}

fn fill_with<M: Machine>(
    core: Core<M>,
    hole: Signed<Hole>,
    orders: Vec<OrderFrame>,
) -> Result<Moved<M>, Want>
    requires hole { IsSignedInRange IsHoleInRange hole }
    requires orders { AllByRecursion IsOrderReady orders.items }
    ensures { IfOk result (λ m. m ≡ filled_with core hole orders.items) }
{
    if orders.is_empty() {
        Ok(nothing_kept(core, &hole.stmt))
    } else {
        send_orders(core, hole.by, orders)
    }
}

#[tactic(auto, unfolding(zy_table::specs::Holes::fill_hole))]
pub(crate) fn fill_hole<M: Machine>(core: Core<M>, hole: Signed<Hole>) -> Result<Moved<M>, Want>
    requires { IsSignedInRange IsHoleInRange hole }
    ensures { IfOk result (λ m. m ≡ fill_row core hole) }
{
    let orders = core.orders_asked(&hole.stmt)?;
    fill_with(core, hole, orders)
}
