// The run of a schedule, event by event.
ghost use Rattle.std.specs.Prelude.{◌≡◌, ◌≤◌, ◌<◌, ◌+◌, ◌*◌, ◌^◌, All, length};
ghost use Rattle.zy_schedule.specs.Texts.{IsSaid};
ghost use Rattle.zy_top.specs.Acts.{IsAllowed, act_part};
ghost use Rattle.zy_top.specs.Replaying.{IsPartRun, IsRun, IsTold, event_part};
ghost use Rattle.zy_top.specs.declared.running.Stop.TheVariants as stops;
ghost use Rattle.zy_world.specs.Event.{IsEvent};
ghost use Rattle.zy_world.specs.Shows.{Shows};
ghost use Rattle.zy_world_law.specs.Runs as runs;
ghost use Rattle.zy_world_law.specs.World.{World as Whole};

use crate::acts::{Act, act_of};
use crate::tale::Tale;
use std::alloc::Global;
use std::thread::Threads;
use zy_base::{Machine, Want};
use zy_schedule::Line;
use zy_top_words::Broken;
use zy_world::{FlowFault, Flowed, PlainHands, World, WorldFault, WorldStepped};
use zy_world_law::{Note, WorldEvent};

/// Why a run stopped.
#[derive(Clone, Copy, Debug, PartialEq, Eq)]
pub enum Stop {
    /// The next event isn't honest.
    Broke(Broken),
    Want,
}

impl From<Want> for Stop {
    ghost from_gives = { λ _ stop. stop ≡ stops.Want };

    fn from(_: Want) -> Stop {
        Stop::Want
    }
}

/// Runs all lines.
pub(crate) fn run_lines<R: Threads + Sync, M: Machine + Send>(
    rt: &R,
    alloc: Global,
    world: World<M>,
    lines: Vec<Line>,
    tale: &mut Tale,
) -> Result<World<M>, Stop>
    requires said { All IsSaid lines.items }
    requires room { tale.old.tally.events + 100000 * length lines.items < 2 ^ 64 }
    ensures run { (g : Whole M.State) → Shows g world → IsRun (runs.run M.rules lines.items g) tale.old tale.new result }
    ensures count { tale.new.tally.events ≤ tale.old.tally.events + 100000 * length lines.items }
{
    let mut world = world;
    for line in lines {
        world = run_line(rt, alloc, world, line, tale)?;
    }
    Ok(world)
}

/// Runs one line, and tells of its events.
fn run_line<R: Threads + Sync, M: Machine + Send>(
    rt: &R,
    alloc: Global,
    world: World<M>,
    line: Line,
    tale: &mut Tale,
) -> Result<World<M>, Stop>
    requires said { IsSaid line }
    requires room { tale.old.tally.events + 100000 < 2 ^ 64 }
    ensures run { (g : Whole M.State) → Shows g world → IsPartRun (runs.run_line M.rules line) g tale.old tale.new result }
    ensures count { tale.new.tally.events ≤ tale.old.tally.events + 100000 }
{
    let act = act_of(alloc, line)?;
    run_act(rt, alloc, world, act, tale)
}

/// Does what a line asks for, and tells of its events: none, one, or those of a flow, whose replicas step at once.
fn run_act<R: Threads + Sync, M: Machine + Send>(
    rt: &R,
    alloc: Global,
    mut world: World<M>,
    act: Act,
    tale: &mut Tale,
) -> Result<World<M>, Stop>
    requires allowed { IsAllowed act }
    requires room { tale.old.tally.events + 100000 < 2 ^ 64 }
    ensures run { (g : Whole M.State) → Shows g world → IsPartRun (act_part M.rules act) g tale.old tale.new result }
    ensures count { tale.new.tally.events ≤ tale.old.tally.events + 100000 }
{
    match act {
        Act::Event(event) => run_event(alloc, world, event, tale),
        Act::Flow(events) => run_flow(rt, alloc, world, events, tale),
        Act::Drop(frame) => {
            world.drop_frame(frame);
            Ok(world)
        }
        Act::Mute(party) => {
            world.mute(party);
            Ok(world)
        }
        Act::Unmute(party) => {
            world.unmute(party);
            Ok(world)
        }
    }
}

/// Delivers the least frame that a flow has left, up to so many times.
fn run_flow<R: Threads + Sync, M: Machine + Send>(
    rt: &R,
    alloc: Global,
    world: World<M>,
    events: u64,
    tale: &mut Tale,
) -> Result<World<M>, Stop>
    requires few { events ≤ 100000 }
    requires room { tale.old.tally.events + 100000 < 2 ^ 64 }
    ensures run { (g : Whole M.State) → Shows g world → IsPartRun (runs.flow M.rules events) g tale.old tale.new result }
    ensures count { tale.new.tally.events ≤ tale.old.tally.events + 100000 }
{
    match world.flow(rt, &PlainHands, events) {
        Ok(Flowed { world, notes }) => {
            tale.add_all(alloc, &notes)?;
            Ok(world)
        }
        Err(FlowFault::Forged(notes, _)) => {
            tale.add_all(alloc, &notes)?;
            Err(Stop::Broke(Broken::Forged))
        }
        Err(FlowFault::Clash(notes, _)) => {
            tale.add_all(alloc, &notes)?;
            Err(Stop::Broke(Broken::Clash))
        }
        Err(FlowFault::Want) => Err(Stop::Want),
    }
}

/// Runs one event, and tells of it.
fn run_event<M: Machine>(
    alloc: Global,
    world: World<M>,
    event: WorldEvent,
    tale: &mut Tale,
) -> Result<World<M>, Stop>
    requires event { IsEvent event }
    requires room { tale.old.tally.events + 1 < 2 ^ 64 }
    ensures run { (g : Whole M.State) → Shows g world → IsPartRun (event_part M.rules event) g tale.old tale.new result }
    ensures count { tale.new.tally.events ≤ tale.old.tally.events + 1 }
{
    match world.step(event) {
        Ok(WorldStepped { world, note, .. }) => told(alloc, world, &note, tale),
        Err(WorldFault::Forged(_)) => Err(Stop::Broke(Broken::Forged)),
        Err(WorldFault::Clash(_)) => Err(Stop::Broke(Broken::Clash)),
        Err(WorldFault::Want) => Err(Stop::Want),
    }
}

fn told<M: Machine>(
    alloc: Global,
    world: World<M>,
    note: &Note,
    tale: &mut Tale,
) -> Result<World<M>, Stop>
    requires { tale.old.tally.events + 1 < 2 ^ 64 }
    ensures told { IsTold world note.now tale.old tale.new result }
    ensures count { tale.new.tally.events ≤ tale.old.tally.events + 1 }
{
    tale.add(alloc, note)?;
    Ok(world)
}
