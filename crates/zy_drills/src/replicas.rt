//! A replica of a group of four with two clients, and what its steps come to.

ghost use Rattle.std.specs.Prelude.{◌≡◌, ◌≤◌, ◌<◌, length, IfOk};

use crate::keys::{Key, leaf_of};
use crate::text::{Hex, is_refused, put_answer, put_count, put_sent, put_timers, sha256};
use crate::words::{labelled, lacking, not_a_line, word_of};
use std::alloc::Global;
use std::fmt::Write;
use std::io;
use zy_base::{Counts, Digest, Event, Mode, Party, Place, ReplicaId, Stood, Timers, View};
use zy_replica::{Got, Replica, Stepped};
use zy_space::Space;

/// Reads the words of a `begin` behind the replica's number.
pub(crate) fn begin(
    alloc: Global,
    key: &Key,
    me: ReplicaId,
    words: &str,
) -> io::Result<Replica<Space>> {
    let (apart, leaf) = word_of(words)?;
    let apart = labelled(apart, "apart")?;
    let leaf = leaf_of(leaf)?;
    start(alloc, key, me, apart, leaf)
}

fn start(
    alloc: Global,
    key: &Key,
    me: ReplicaId,
    apart: u64,
    leaf: u32,
) -> io::Result<Replica<Space>>
    requires { leaf ≤ 1024 }
{
    let counts = Counts::plain(1).ok_or_else(not_a_line)?;
    if u64::from(me.0) >= counts.n || counts.n < 4 || apart < 4 || apart > 32 {
        return Err(not_a_line());
    }
    let directory = key.directory(alloc)?;
    let sealer = key.sealer(alloc, Party::Replica(me), leaf)?;
    match Replica::start(alloc, counts, me, apart, sealer, directory) {
        Ok(replica) => Ok(replica),
        Err(want) => Err(lacking(want)),
    }
}

/// What is seen of a replica.
#[derive(Clone, Copy, PartialEq)]
struct Shown {
    stood: Stood,
    stable: (View, Place, Digest, Digest),
    leaf: u32,
    timers: Timers,
    state: Option<Digest>,
}

fn see(replica: &Replica<Space>) -> Shown {
    Shown {
        stood: replica.stood(),
        stable: replica.stable(),
        leaf: replica.key_next(),
        timers: replica.timers(),
        state: replica.state_digest().ok(),
    }
}

/// The replica after an event, and what this came to.
pub(crate) fn step(
    alloc: Global,
    replica: Replica<Space>,
    event: Event,
) -> io::Result<(Replica<Space>, String)> {
    let before = see(&replica);
    match replica.step(event) {
        Ok(stepped) => told(alloc, stepped, &before),
        Err(want) => Err(lacking(want)),
    }
}

fn told(
    alloc: Global,
    stepped: Stepped<Space>,
    before: &Shown,
) -> io::Result<(Replica<Space>, String)> {
    match text_of(alloc, &stepped, before) {
        Ok(text) => Ok((replica_of(stepped), text)),
        Err(fault) => {
            drop(stepped);
            Err(fault)
        }
    }
}

fn replica_of(stepped: Stepped<Space>) -> Replica<Space> {
    let Stepped {
        replica,
        answer: _,
        out,
        timers: _,
        said,
        got,
    } = stepped;
    drop((out, said, got));
    replica
}

fn text_of(alloc: Global, stepped: &Stepped<Space>, before: &Shown) -> io::Result<String> {
    let mut text = String::new(alloc);
    put_step(&mut text, stepped, before)?;
    Ok(text)
}

fn put_step(text: &mut String, stepped: &Stepped<Space>, before: &Shown) -> io::Result<()> {
    let after = see(&stepped.replica);
    put_answer(text, stepped.answer)?;
    if is_refused(stepped.answer) && is_quiet(stepped) && after == *before {
        return Ok(());
    }
    put_standing(text, &after)?;
    put_stable(text, &after, before)?;
    put_timers(text, stepped.timers, after.timers)?;
    put_deeds(text, stepped)
}

fn is_quiet(stepped: &Stepped<Space>) -> bool {
    stepped.out.is_empty() && stepped.said.is_empty() && stepped.got.is_empty()
}

fn put_standing(text: &mut String, after: &Shown) -> io::Result<()> {
    let Stood { mode, length, head } = after.stood;
    put_mode(text, mode)?;
    write!(
        text,
        " length {} head {} leaf {}",
        length.0,
        Hex(&head.0),
        after.leaf
    )?;
    put_state(text, mode, &after.state)
}

fn put_mode(text: &mut String, mode: Mode) -> io::Result<()> {
    match mode {
        Mode::Active(view) => Ok(write!(text, " active in view {}", view.0)?),
        Mode::Leaving(view) => Ok(write!(text, " leaving for view {}", view.0)?),
    }
}

fn put_state(text: &mut String, mode: Mode, state: &Option<Digest>) -> io::Result<()> {
    match (mode, state) {
        (Mode::Active(View(1..)), Some(digest)) => Ok(write!(text, " state {}", Hex(&digest.0))?),
        _ => Ok(()),
    }
}

fn put_stable(text: &mut String, after: &Shown, before: &Shown) -> io::Result<()> {
    if after.stable == before.stable {
        return Ok(());
    }
    let (view, place, head, state) = after.stable;
    write!(text, " stable view {} place {}", view.0, place.0)?;
    write!(text, " head {} state {}", Hex(&head.0), Hex(&state.0))?;
    Ok(())
}

fn put_deeds(text: &mut String, stepped: &Stepped<Space>) -> io::Result<()> {
    put_count(text, "says", stepped.said.len())?;
    put_count(text, "gains", stepped.got.len())?;
    for got in stepped.got.as_slice() {
        put_snapshot(text, got)?;
    }
    put_sent(text, &stepped.out)
}

fn put_snapshot(text: &mut String, got: &Got) -> io::Result<()> {
    match &got.snapshot {
        Some(bytes) => { Ok(write!(text, " snapshot {} {}", got.place.0, Hex(&sha256(bytes)))?) }
        None => Ok(()),
    }
}
