// Replicas that hear frames of one batch make their steps at once: each waits in its step until another is in one too.

ghost use Rattle.zy_world_setup.specs.Starting.{IsStart};

use std::alloc::Global;
use std::sync::atomic::{AtomicU64, Ordering};
use std::test::Fail;
use std::thread::Threads;
use zy_base::{ClientId, Event, Machine, Place, Stamp, View, Want};
use zy_group::plain_counts;
use zy_lms::Height;
use zy_ots::OtsType;
use zy_replica::{Replica, Stepped};
use zy_space::Space;
use zy_table::Path;
use zy_tuple::{op_bytes, op_text_read};
use zy_world::{Flowed, Hands, World, WorldStepped};
use zy_world_law::{Note, WorldEvent};
use zy_world_setup::Setup;

/// How often the count is read before a step goes on alone.
const READINGS: u64 = 200_000_000;

/// Makes the step of an order when two replicas are in theirs.
#[derive(Drop)]
struct Meeting {
    inside: AtomicU64,
    alone: AtomicU64,
}

impl Meeting {
    fn meet(&self) {
        self.inside.fetch_add(1, Ordering::SeqCst);
        for _ in 0..READINGS {
            if self.inside.load(Ordering::SeqCst) >= 2 {
                return;
            }
        }
        self.alone.store(1, Ordering::SeqCst);
    }
}

impl Hands for Meeting {
    fn step<M: Machine>(&self, replica: Replica<M>, event: Event) -> Result<Stepped<M>, Want> {
        if is_order(&event) {
            self.meet();
        }
        replica.step(event)
    }
}

fn is_order(event: &Event) -> bool {
    match event {
        Event::Heard(bytes) => bytes.as_slice().get(1) == Some(&2),
        Event::Timer(_) => false,
    }
}

fn four_replicas(alloc: Global) -> Setup
    ensures { IsStart result }
{
    Setup {
        counts: plain_counts(1),
        interval: 8,
        clients: 1,
        liars: Vec::new(alloc),
        lying_clients: Vec::new(alloc),
        seed: [0; 32],
        height: Height::H5,
        ots: OtsType::W4,
    }
}

/// The world in which the client has asked.
fn asked(alloc: Global) -> Result<World<Space>, Want> {
    let world = World::<Space>::start(alloc, four_replicas(alloc))?;
    let Ok(op) = op_text_read(alloc, b"out (\"job\" 1)") else {
        return Err(Want);
    };
    let op = op_bytes(alloc, &op)?;
    if op.len() > 1100 {
        return Err(Want);
    }
    match world.step(WorldEvent::Ask {
        client: ClientId(0),
        op,
    }) {
        Ok(WorldStepped { world, .. }) => Ok(world),
        Err(_) => Err(Want),
    }
}

/// What is told of the first hundred events.
fn told<R: Threads + Sync>(
    rt: &R,
    alloc: Global,
    meeting: &Meeting,
) -> Result<Flowed<Space>, Want> {
    match asked(alloc)?.flow(rt, meeting, 100) {
        Ok(flowed) => Ok(flowed),
        Err(_) => Err(Want),
    }
}

/// Nothing is told of seven events, then the client's request completes, and no frame is left.
fn is_whole(flowed: &Flowed<Space>) -> bool {
    let notes = flowed.notes.as_slice();
    notes.len() == 8
        && notes[..7].iter().all(|note| is_quiet(note))
        && is_first_done(&notes[7])
        && flowed.world.next_undelivered().is_none()
}

fn is_quiet(note: &Note) -> bool {
    match note {
        Note::Quiet => true,
        Note::Done(..) => false,
        Note::Refused(..) => false,
    }
}

fn is_first_done(note: &Note) -> bool {
    match note {
        Note::Quiet => false,
        Note::Done(client, done) => {
            *client == ClientId(0)
                && (done.stamp, done.view, done.place) == (Stamp(1), View(0), Place(1))
                && done.path == Path::Fast
        }
        Note::Refused(..) => false,
    }
}

#[test]
fn four_replicas_meet(rt: HostRuntime) -> Result<(), Fail> {
    let meeting = Meeting {
        inside: AtomicU64::new(0),
        alone: AtomicU64::new(0),
    };
    let flowed = told(&rt, rt.alloc(), &meeting)?;
    let met = meeting.alone.load(Ordering::SeqCst) == 0;
    assert!(rt; met && is_whole(&flowed));
    Ok(())
}
