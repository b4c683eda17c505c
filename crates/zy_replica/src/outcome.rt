//! What a step did, as its caller sees it: frames and statements as bytes.

ghost use Rattle.std.specs.Prelude.{◌≡◌, ◌≤◌, ◌<◌, ◌+◌, ◌++◌, ◌∷◌, [], length, nat_eq, if◌then◌else◌, Some, IfOk, OnOk};
ghost use Rattle.zy_base.specs.declared.ids.Party.TheVariants as parties;
ghost use Rattle.std.specs.List.{AllByRecursion};
ghost use Rattle.zy_chain.specs.Entries.{IsEntryInRange};
ghost use Rattle.zy_table.specs.State.{timers_of};
ghost use Rattle.zy_table.specs.Sending.{CanBeSent};
ghost use Rattle.zy_table.specs.Deeds.{outgoing_of, others, text_by, said_from, gains_in};
ghost use Rattle.zy_replica_state.specs.Ready.{IsActInRange, IsBodyInRange};

use crate::replica::{Replica, Stepped};
use std::alloc::Global;
use zy_base::{Bytes, Items, Machine, Outgoing, Party, ReplicaId, Said, Spoken, Want};
use zy_parts::signed_text;
use zy_replica_state::{Moved, Progress};
use zy_table::{Act, Body, Deeds, Gains, Remark, Sent, outgoing};

// With frames and statements as bytes the step is done.
pub(crate) fn finish<M: Machine>(moved: Moved<M>) -> Result<Stepped<M>, Want>
    ensures answer { IfOk result (λ s. s.answer ≡ moved.answer) }
    ensures replica { IfOk result (λ s. s.replica ≡ moved.state) }
    ensures out { IfOk result (λ s. s.out ≡ outgoing_of moved.state.me.0 moved.state.counts.n moved.deeds.sent) }
    ensures timers { IfOk result (λ s. s.timers ≡ timers_of moved.state) }
    ensures said { IfOk result (λ s. s.said ≡ said_from (parties.Replica moved.state.me) 0 moved.deeds.acts) }
    ensures got { IfOk result (λ s. s.got ≡ gains_in moved.deeds.acts) }
    ensures range { IfOk result (λ s. AllByRecursion (λ got. IsEntryInRange got.entry) s.got) }
{
    let Moved { answer, progress } = moved;
    let Progress { core, deeds } = progress;
    let Deeds { sent, acts } = deeds;
    let (alloc, me) = (core.allocator(), core.me());
    let out = sendings(alloc, me, core.counts().n, sent)?;
    let (said, got) = told(alloc, me, acts)?;
    let timers = core.timers();
    Ok(Stepped {
        replica: Replica { core },
        answer,
        out,
        timers,
        said,
        got,
    })
}

// The frames as bytes, each for its receivers.
fn sendings(
    alloc: Global,
    me: ReplicaId,
    replicas: u64,
    sent: Items<Sent>,
) -> Result<Outgoing, Want>
    requires count { replicas ≤ 16 }
    requires frames { AllByRecursion (λ s. CanBeSent s.frame) sent }
    ensures { IfOk result (λ out. out ≡ outgoing_of me.0 replicas sent) }
{
    let all = others_of(alloc, me, replicas)?;
    outgoing(alloc, &all, sent.as_slice())
}

// All replicas but one, in rising number.
fn others_of(alloc: Global, me: ReplicaId, replicas: u64) -> Result<Vec<Party>, Want>
    requires { replicas ≤ 16 }
    ensures { IfOk result (λ v. v.items ≡ others me.0 replicas) }
{
    let mut all = Vec::new(alloc);
    for id in 0..replicas {
        push_other(&mut all, me, ReplicaId(id as u8))?;
    }
    Ok(all)
}

fn push_other(all: &mut Vec<Party>, me: ReplicaId, id: ReplicaId) -> Result<(), Want>
    ensures { OnOk result (all.new.items ≡ all.old.items ++ (if nat_eq id.0 me.0 then [] else parties.Replica id ∷ [])) }
{
    if id != me {
        all.push(Party::Replica(id))?;
    }
    Ok(())
}

// The statements with their signed texts, and the entries.
fn told(alloc: Global, me: ReplicaId, acts: Items<Act>) -> Result<(Said, Gains), Want>
    requires { AllByRecursion IsActInRange acts }
    ensures said { IfOk result (λ r. r.0 ≡ said_from (parties.Replica me) 0 acts) }
    ensures got { IfOk result (λ r. r.1 ≡ gains_in acts) }
    ensures range { IfOk result (λ r. AllByRecursion (λ got. IsEntryInRange got.entry) r.1) }
{
    let mut said = Items::new(alloc);
    let mut got = Items::new(alloc);
    let mut pairs = 0;
    for act in acts.into_vec() {
        match act {
            Act::Says(remark) => said.push(spoken(alloc, me, &remark, pairs)?)?,
            Act::Gains(entry) => {
                got.push(entry)?;
                pairs += 1;
            }
            Act::Adopts { gots, .. } => {
                push_all(&mut got, gots)?;
                pairs += 1;
            }
        }
    }
    Ok((said, got))
}

fn push_all(got: &mut Gains, more: Gains) -> Result<(), Want>
    ensures { OnOk result (got.new ≡ got.old ++ more) }
{
    for entry in more.into_vec() {
        got.push(entry)?;
    }
    Ok(())
}

fn spoken(alloc: Global, me: ReplicaId, remark: &Remark, pairs: u64) -> Result<Spoken, Want>
    requires { IsBodyInRange remark.now.body }
    ensures { IfOk result (λ s. s ≡ record { text = text_by (parties.Replica me) remark.now.body; stood = Some remark.now.stood; pairs = pairs }) }
{
    Ok(Spoken {
        text: text_of(alloc, me, &remark.body)?,
        stood: Some(remark.stood),
        pairs,
    })
}

fn text_of(alloc: Global, me: ReplicaId, body: &Body) -> Result<Bytes, Want>
    requires { IsBodyInRange body.now }
    ensures { IfOk result (λ text. text ≡ text_by (parties.Replica me) body.now) }
{
    let me = Party::Replica(me);
    match body {
        Body::Order(order) => signed_text(alloc, me, order),
        Body::Spec(spec) => signed_text(alloc, me, spec),
        Body::Local(local) => signed_text(alloc, me, local),
        Body::Confirm(confirm) => signed_text(alloc, me, confirm),
        Body::Hole(hole) => signed_text(alloc, me, hole),
        Body::Hate(hate) => signed_text(alloc, me, hate),
        Body::Check(check) => signed_text(alloc, me, check),
        Body::Change(change) => signed_text(alloc, me, change),
        Body::New(new) => signed_text(alloc, me, new),
        Body::Began(began) => signed_text(alloc, me, began),
        Body::Fetch(fetch) => signed_text(alloc, me, fetch),
    }
}
