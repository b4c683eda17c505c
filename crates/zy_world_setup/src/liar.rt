ghost use Rattle.std.specs.Prelude.{◌≡◌, ◌⊎◌, ◌↔◌, ◌≤◌, length, map, Some, IfOk, OnOk, IsErrOf};
ghost use Rattle.std.specs.List.{AllByRecursion};
ghost use Rattle.zy_admit.specs.Judging.{entry_of};
ghost use Rattle.zy_chain.specs.Heads.{head_of};
ghost use Rattle.zy_parts.specs.Signing.{IsSignedInRange};
ghost use Rattle.zy_parts.specs.Statements.{IsAskInRange, IsOrderInRange, IsSpecInRange};
ghost use Rattle.zy_seal.specs.Sealing.{spent_one, signatures_by};
ghost use Rattle.zy_seal.specs.declared.sealer.SealFault.{SealFault};
ghost use Rattle.zy_world_setup.specs.Telling.{IsOrderable, IsToldBy};
ghost use Rattle.zy_world_law.specs.Liars.{last_of, order_of, order_told, spec_of, spec_told};
ghost use Rattle.zy_chain.specs.Answers.{FitsAnswers};

use crate::frames::encoded;
use std::alloc::Global;
use zy_admit::{client_of, request_digest_of};
use zy_base::{Bytes, Digest, Place, View, Want};
use zy_chain::{EMPTY_HEAD, answers_digest, next_head};
use zy_frames::{Frame, OrderFrame};
use zy_parts::{Ask, Order, Signed, Spec};
use zy_seal::{SealFault, Sealer};

/// The order of a liar whose history is that of these requests, as the frame that has the last of them. `KeySpent` exactly
/// where no signature is left.
pub fn order_frame(
    alloc: Global,
    sealer: &mut Sealer,
    view: View,
    asks: &[Signed<Ask>],
) -> Result<Bytes, SealFault>
    requires { IsOrderable view asks.now }
    ensures frame { IfOk result (λ bytes. IsToldBy (order_told view asks.now) sealer.old (Some bytes)) }
    ensures spent_one { OnOk result (sealer.new ≡ spent_one sealer.old) }
    ensures spent { IsErrOf result SealFault.KeySpent ↔ (sealer.old.key.next ≡ signatures_by sealer.old.key.height) }
    ensures unchanged { IsErrOf result SealFault.KeySpent → sealer.new ≡ sealer.old }
    // After `Want` the signature may be spent.
    ensures want { IsErrOf result SealFault.Want → (sealer.new ≡ sealer.old) ⊎ (sealer.new ≡ spent_one sealer.old) }
{
    let last = last_of(asks);
    let order = sealer.seal(order_of(view, asks, last))?;
    let ask = copied(last)?;
    Ok(encoded(alloc, Frame::Order(OrderFrame { order, ask }))?)
}

/// The speculative response of a liar whose history is that of these requests, with this reply of at most 1,100 bytes and no
/// order. `KeySpent` exactly where no signature is left.
pub fn spec_frame(
    alloc: Global,
    sealer: &mut Sealer,
    view: View,
    asks: &[Signed<Ask>],
    reply: Bytes,
) -> Result<Bytes, SealFault>
    requires asks { IsOrderable view asks.now }
    requires reply { FitsAnswers reply }
    ensures frame { IfOk result (λ bytes. IsToldBy (spec_told view reply asks.now) sealer.old (Some bytes)) }
    ensures spent_one { OnOk result (sealer.new ≡ spent_one sealer.old) }
    ensures spent { IsErrOf result SealFault.KeySpent ↔ (sealer.old.key.next ≡ signatures_by sealer.old.key.height) }
    ensures unchanged { IsErrOf result SealFault.KeySpent → sealer.new ≡ sealer.old }
    // After `Want` the signature may be spent.
    ensures want { IsErrOf result SealFault.Want → (sealer.new ≡ sealer.old) ⊎ (sealer.new ≡ spent_one sealer.old) }
{
    let last = last_of(asks);
    let spec = sealer.seal(spec_of(view, &reply, asks, last))?;
    let order = None;
    Ok(encoded(alloc, Frame::SpecResponse { spec, reply, order })?)
}

// The last of some requests.
fn last_of(asks: &[Signed<Ask>]) -> &Signed<Ask>
    requires some { 1 ≤ length asks.now }
    requires asks { AllByRecursion (IsSignedInRange IsAskInRange) asks.now }
    ensures value { last_of asks.now ≡ Some result.now }
    ensures in_range { IsSignedInRange IsAskInRange result.now }
{
    &asks[asks.len() - 1]
}

// The order whose history is that of these requests.
fn order_of(view: View, asks: &[Signed<Ask>], last: &Signed<Ask>) -> Order
    requires asks { IsOrderable view asks.now }
    requires last { IsSignedInRange IsAskInRange last.now }
    ensures value { result ≡ order_of view asks.now last.now }
    ensures in_range { IsOrderInRange result }
{
    Order {
        view,
        place: Place(asks.len() as u64),
        head: head_of(asks),
        request: request_digest_of(last),
    }
}

// The response whose history is that of these requests.
fn spec_of(view: View, reply: &Bytes, asks: &[Signed<Ask>], last: &Signed<Ask>) -> Spec
    requires asks { IsOrderable view asks.now }
    requires last { IsSignedInRange IsAskInRange last.now }
    ensures value { result ≡ spec_of view reply.now asks.now last.now }
    ensures in_range { IsSpecInRange result }
{
    Spec {
        view,
        place: Place(asks.len() as u64),
        head: head_of(asks),
        reply: answers_digest(reply),
        client: client_of(last.by),
        stamp: last.stmt.stamp,
    }
}

// The head of the history that these requests make.
fn head_of(asks: &[Signed<Ask>]) -> Digest
    requires { AllByRecursion (IsSignedInRange IsAskInRange) asks.now }
    ensures { result ≡ head_of (map entry_of asks.now) }
{
    let mut head = EMPTY_HEAD;
    for ask in asks {
        head = next_head(&head, &request_digest_of(ask));
    }
    head
}

fn copied(ask: &Signed<Ask>) -> Result<Signed<Ask>, Want>
    ensures { IfOk result (λ copy. copy ≡ ask.now) }
{
    Ok(Signed {
        by: ask.by,
        stmt: Ask {
            stamp: ask.stmt.stamp,
            op: ask.stmt.op.clone()?,
        },
        sig: ask.sig.clone()?,
    })
}
