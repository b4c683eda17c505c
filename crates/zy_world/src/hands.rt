//! Steps of replicas that are made at once.

ghost use Rattle.std.specs.Prelude.{◌≡◌, IfOk};
ghost use Rattle.std.specs.List.{AllByRecursion, AllZip};
ghost use Rattle.zy_base.specs.declared.cause.Cause.{Cause};
ghost use Rattle.zy_base.specs.declared.ids.Party.TheVariants as parties;
ghost use Rattle.zy_base.specs.declared.step.Answer.TheVariants.{Refused};
ghost use Rattle.zy_chain.specs.Entries.{IsEntryInRange};
ghost use Rattle.zy_replica.specs.Refusing.{IsUnchanged};
ghost use Rattle.zy_table.specs.Deeds.{outgoing_of, said_from, gains_in};
ghost use Rattle.zy_table.specs.State.{timers_of};
ghost use Rattle.zy_table.specs.Whole.{whole_step};
ghost use Rattle.zy_world.specs.Ahead.{MayBeGone};

use crate::step::{Gone, Job, ReplicaStep};
use std::thread;
use std::thread::Threads;
use zy_base::{Event, Machine, Want};
use zy_replica::{Replica, Stepped};

/// Who makes the steps of the replicas that hear frames at once.
pub trait Hands: Sync {
    /// What an event makes of a replica, exactly as `Replica::step` says it.
    fn step<M: Machine>(&self, replica: Replica<M>, event: Event) -> Result<Stepped<M>, Want>
        ensures answer { IfOk result (λ s. s.answer ≡ (whole_step M.rules replica event).answer) }
        ensures replica { IfOk result (λ s. s.replica ≡ (whole_step M.rules replica event).state) }
        ensures out { IfOk result (λ s. s.out ≡ outgoing_of (whole_step M.rules replica event).state.me.0 (whole_step M.rules replica event).state.counts.n (whole_step M.rules replica event).deeds.sent) }
        ensures timers { IfOk result (λ s. s.timers ≡ timers_of (whole_step M.rules replica event).state) }
        ensures said { IfOk result (λ s. s.said ≡ said_from (parties.Replica (whole_step M.rules replica event).state.me) 0 (whole_step M.rules replica event).deeds.acts) }
        ensures got { IfOk result (λ s. s.got ≡ gains_in (whole_step M.rules replica event).deeds.acts) }
        ensures range { IfOk result (λ s. AllByRecursion (λ got. IsEntryInRange got.entry) s.got) }
        ensures refused { IfOk result (λ s. (cause : Cause) → s.answer ≡ Refused cause → IsUnchanged replica s.replica s.timers s.out s.said s.got) };
}

/// Makes each step by `Replica::step`, and does nothing else.
pub struct PlainHands;

impl Hands for PlainHands {
    fn step<M: Machine>(&self, replica: Replica<M>, event: Event) -> Result<Stepped<M>, Want> {
        replica.step(event)
    }
}

fn step_one<M: Machine, H: Hands>(hands: &H, job: Job<M>) -> Result<Gone<M>, Want>
    ensures { MayBeGone M.rules job.replica job.bytes result }
{
    let Job { replica, bytes } = job;
    let stepped = hands.step(replica, Event::Heard(bytes))?;
    Ok(Gone {
        replica: stepped.replica,
        step: ReplicaStep {
            answer: stepped.answer,
            out: stepped.out,
            said: stepped.said,
            got: stepped.got,
        },
    })
}

/// Makes all these steps, each in a thread of its own where one can be made. What they made stands in the order of the jobs. One
/// job starts no thread.
pub(crate) fn step_all<R: Threads + Sync, M: Machine + Send, H: Hands>(
    rt: &R,
    hands: &H,
    jobs: Vec<Job<M>>,
) -> Result<Vec<Result<Gone<M>, Want>>, Want>
    ensures { IfOk result (λ made. AllZip (λ job one. MayBeGone M.rules job.replica job.bytes one) jobs.items made.items) }
{
    let step = |job: Job<M>| -> Result<Gone<M>, Want>
        ensures { MayBeGone M.rules job.replica job.bytes result }
    { step_one(hands, job) };
    Ok(thread::map_vec(rt, jobs, &step)?)
}
