// Which call of the link ends a run, and when turns end. The core sends back what it hears, and a byte as Request fires.

use crate::probe::Probe;
use std::alloc::Global;
use std::test::Fail;
use zy_base::{Bytes, Want};
use zy_edge::{MemClock, MemLink};
use zy_node::{Core, Host, NodeFault};
use zy_pieces::cut;

/// The datagrams of a frame of three bytes.
fn one_datagram(alloc: Global) -> Result<Vec<Bytes>, Want> {
    cut(alloc, &[5, 5, 5])
}

/// Which call fails, and how many datagrams the link takes; whether the run fails then, how many were sent, and whether
/// Request fired.
type Failing = (u64, u64, bool, usize, bool);

// A turn hears a frame and sends it back, by the link's first and second call; the next one hears nothing, and fires
// Request, by its third and fourth.
const CALLS: [Failing; 7] = [
    (1, 8, true, 0, false),
    (2, 8, true, 0, false),
    (3, 8, true, 1, false),
    (4, 8, true, 1, true),
    (5, 8, false, 2, true),
    (5, 1, true, 1, true),
    (5, 0, true, 0, false),
];

fn failing_link(alloc: Global, row: &Failing) -> Result<MemLink, Want> {
    let (call, room, _, _, _) = *row;
    let failing = Vec::from_slice(alloc, &[call])?;
    MemLink::new(alloc, one_datagram(alloc)?, failing, room.min(8))
}

/// Whether the link failed in two turns, and Request fired.
fn serve_two(alloc: Global, link: &mut MemLink) -> Result<(bool, bool), Want> {
    let mut clock = MemClock::new(alloc, Vec::from_slice(alloc, &[0, 500])?);
    match Host::new(alloc, Probe::requesting(alloc)).serve(link, &mut clock, 2) {
        Ok(host) => Ok((false, host.core().is_changing())),
        Err(NodeFault::Link(host)) => Ok((true, host.core().is_changing())),
        Err(NodeFault::Want) => Err(Want),
    }
}

/// Whether it fails, how many datagrams were sent, and whether Request fired.
fn end_of(alloc: Global, row: &Failing) -> Result<(bool, usize, bool), Want> {
    let mut link = failing_link(alloc, row)?;
    let (fails, fired) = serve_two(alloc, &mut link)?;
    Ok((fails, link.parcels(), fired))
}

#[test]
fn the_first_failed_call_ends_it(rt: HostRuntime) -> Result<(), Fail> {
    for row in &CALLS {
        let (call, room, fails, sent, fired) = *row;
        let end = end_of(rt.alloc(), row)?;
        assert_eq!(rt; end, (fails, sent, fired), "call {call}, room {room}");
    }
    Ok(())
}

/// How many datagrams a core sends in at most so many turns, and whether it is done then.
fn turns_of(alloc: Global, probe: Probe, turns: u64) -> Result<(usize, bool), Want> {
    let mut link = MemLink::new(alloc, one_datagram(alloc)?, Vec::new(alloc), 8)?;
    let mut clock = MemClock::new(alloc, Vec::from_slice(alloc, &[0])?);
    match Host::new(alloc, probe).serve(&mut link, &mut clock, turns) {
        Ok(host) => Ok((link.parcels(), host.core().is_done())),
        Err(_) => Err(Want),
    }
}

#[test]
fn none_of_no_turns_is_taken(rt: HostRuntime) -> Result<(), Fail> {
    let end = turns_of(rt.alloc(), Probe::answering(rt.alloc()), 0)?;
    assert_eq!(rt; end, (0, false));
    Ok(())
}

#[test]
fn one_turn_hears_and_sends(rt: HostRuntime) -> Result<(), Fail> {
    let end = turns_of(rt.alloc(), Probe::answering(rt.alloc()), 1)?;
    assert_eq!(rt; end, (1, false));
    Ok(())
}

#[test]
fn turns_go_on_while_nothing_comes(rt: HostRuntime) -> Result<(), Fail> {
    let end = turns_of(rt.alloc(), Probe::answering(rt.alloc()), 3)?;
    assert_eq!(rt; end, (1, false));
    Ok(())
}

#[test]
fn a_core_that_is_done_takes_no_turn(rt: HostRuntime) -> Result<(), Fail> {
    let end = turns_of(rt.alloc(), Probe::idle(rt.alloc()), 3)?;
    assert_eq!(rt; end, (0, true));
    Ok(())
}
