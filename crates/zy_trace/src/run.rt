// The run of a schedule, event by event, with what is told of each. A flow delivers one frame after another, so that it is known what
// every replica answered in its turn.
ghost use Rattle.std.specs.Prelude.{◌≡◌, ◌≤◌, ◌<◌, ◌+◌, ◌*◌, ◌^◌, All, length, option_copied};
ghost use Rattle.zy_schedule.specs.Texts.{IsSaid};
ghost use Rattle.zy_top.specs.Acts.{IsAllowed};
ghost use Rattle.zy_trace.specs.Telling as traces;
ghost use Rattle.zy_trace.specs.Tracing.{IsTraced, told_of};
ghost use Rattle.zy_world.specs.Event.{IsEvent};
ghost use Rattle.zy_world.specs.Shows.{Shows};
ghost use Rattle.zy_world_law.specs.World.{World as Whole};

use crate::telling::{Trace, receiver};
use std::alloc::Global;
use zy_base::{Machine, Party};
use zy_client::Client;
use zy_schedule::Line;
use zy_top::{Act, Stop, act_of};
use zy_top_words::Broken;
use zy_world::{Replica, World, WorldFault, WorldStepped};
use zy_world_law::WorldEvent;

/// Runs all lines.
pub(crate) fn trace_lines<M: Machine>(
    alloc: Global,
    world: World<M>,
    lines: Vec<Line>,
    trace: &mut Trace,
) -> Result<World<M>, Stop>
    requires said { All IsSaid lines.items }
    requires room { trace.old.events + 100000 * length lines.items < 2 ^ 64 }
    ensures traced { (g : Whole M.State) → Shows g world → IsTraced (traces.trace M.rules lines.items g (told_of trace.old)) (told_of trace.new) result }
    ensures count { trace.new.events ≤ trace.old.events + 100000 * length lines.items }
{
    let mut world = world;
    for line in lines {
        world = trace_line(alloc, world, line, trace)?;
    }
    Ok(world)
}

fn trace_line<M: Machine>(
    alloc: Global,
    world: World<M>,
    line: Line,
    trace: &mut Trace,
) -> Result<World<M>, Stop>
    requires said { IsSaid line }
    requires room { trace.old.events + 100000 < 2 ^ 64 }
    ensures traced { (g : Whole M.State) → Shows g world → IsTraced (traces.trace_line M.rules line g (told_of trace.old)) (told_of trace.new) result }
    ensures count { trace.new.events ≤ trace.old.events + 100000 }
{
    trace.head(alloc, &world, &line)?;
    let act = act_of(alloc, line)?;
    trace_act(alloc, world, act, trace)
}

fn trace_act<M: Machine>(
    alloc: Global,
    mut world: World<M>,
    act: Act,
    trace: &mut Trace,
) -> Result<World<M>, Stop>
    requires allowed { IsAllowed act }
    requires room { trace.old.events + 100000 < 2 ^ 64 }
    ensures traced { (g : Whole M.State) → Shows g world → IsTraced (traces.trace_act M.rules act g (told_of trace.old)) (told_of trace.new) result }
    ensures count { trace.new.events ≤ trace.old.events + 100000 }
{
    match act {
        Act::Event(event) => trace_event(alloc, world, event, trace),
        Act::Flow(events) => trace_flow(alloc, world, events, trace),
        Act::Drop(frame) => {
            world.drop_frame(frame);
            Ok(world)
        }
        Act::Mute(party) => {
            world.mute(party);
            Ok(world)
        }
        Act::Unmute(party) => {
            world.unmute(party);
            Ok(world)
        }
    }
}

/// Delivers the least frame that a flow has left, up to so many times.
fn trace_flow<M: Machine>(
    alloc: Global,
    world: World<M>,
    events: u64,
    trace: &mut Trace,
) -> Result<World<M>, Stop>
    requires few { events ≤ 100000 }
    requires room { trace.old.events + 100000 < 2 ^ 64 }
    ensures traced { (g : Whole M.State) → Shows g world → IsTraced (traces.trace_flow M.rules events g (told_of trace.old)) (told_of trace.new) result }
    ensures count { trace.new.events ≤ trace.old.events + 100000 }
{
    let mut world = world;
    for _ in 0..events {
        let Some(frame) = world.next_undelivered() else {
            return Ok(world);
        };
        world = trace_delivery(alloc, world, frame, trace)?;
    }
    Ok(world)
}

/// Delivers a frame to whom it is addressed.
fn trace_delivery<M: Machine>(
    alloc: Global,
    world: World<M>,
    frame: u64,
    trace: &mut Trace,
) -> Result<World<M>, Stop>
    requires { trace.old.events + 1 < 2 ^ 64 }
    ensures traced { (g : Whole M.State) → Shows g world → IsTraced (traces.trace_delivery M.rules frame g (told_of trace.old)) (told_of trace.new) result }
    ensures count { trace.new.events ≤ trace.old.events + 1 }
{
    trace.deliver(alloc, &world, frame, None)?;
    trace_event(alloc, world, WorldEvent::Deliver { frame, to: None }, trace)
}

fn trace_event<M: Machine>(
    alloc: Global,
    world: World<M>,
    event: WorldEvent,
    trace: &mut Trace,
) -> Result<World<M>, Stop>
    requires event { IsEvent event }
    requires room { trace.old.events + 1 < 2 ^ 64 }
    ensures traced { (g : Whole M.State) → Shows g world → IsTraced (traces.trace_event M.rules event g (told_of trace.old)) (told_of trace.new) result }
    ensures count { trace.new.events ≤ trace.old.events + 1 }
{
    let by = actor(&world, &event);
    let unspent = key_next(&world, by);
    match world.step(event) {
        Ok(
            WorldStepped {
                world,
                note,
                answer,
            },
        ) => {
            trace.follow(alloc, &world, by, unspent, &note, answer)?;
            Ok(world)
        }
        Err(WorldFault::Forged(_)) => {
            trace.cut(alloc, Broken::Forged)?;
            Err(Stop::Broke(Broken::Forged))
        }
        Err(WorldFault::Clash(_)) => {
            trace.cut(alloc, Broken::Clash)?;
            Err(Stop::Broke(Broken::Clash))
        }
        Err(WorldFault::Want) => Err(Stop::Want),
    }
}

/// Who acts by an event.
fn actor<M: Machine>(world: &World<M>, event: &WorldEvent) -> Option<Party>
    ensures { (g : Whole M.State) → Shows g world.now → result ≡ traces.actor g event.now }
{
    match event {
        WorldEvent::Ask { client, .. } => Some(Party::Client(*client)),
        WorldEvent::Deliver { frame, to } => receiver(*to, world.mail(*frame)),
        WorldEvent::Timer { party, .. } => Some(*party),
        WorldEvent::Order { liar, .. } => Some(*liar),
        WorldEvent::Spec { liar, .. } => Some(*liar),
        WorldEvent::Statement { liar, .. } => Some(*liar),
        WorldEvent::Raw { .. } => None,
        WorldEvent::Forge { .. } => None,
    }
}

/// The number of the next signature of a correct party's key, else 0.
fn key_next<M: Machine>(world: &World<M>, party: Option<Party>) -> u32
    ensures { (g : Whole M.State) → Shows g world.now → result ≡ traces.key_next g party }
{
    match party {
        Some(Party::Replica(id)) => replica_next(world.replica(id)),
        Some(Party::Client(id)) => client_next(world.client(id)),
        None => 0,
    }
}

fn replica_next<M: Machine>(replica: Option<&Replica<M>>) -> u32
    ensures { result ≡ traces.replica_next (option_copied replica.entry) }
{
    match replica {
        Some(replica) => replica.key_next(),
        None => 0,
    }
}

fn client_next(client: Option<&Client>) -> u32
    ensures { result ≡ traces.client_next (option_copied client.entry) }
{
    match client {
        Some(client) => client.key_next(),
        None => 0,
    }
}
