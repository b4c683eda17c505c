// When timers run out: what a core that sends a byte for each of its timers has sent by the end of each turn.

ghost use Rattle.std.specs.Prelude.{IsTrue};
ghost use Rattle.zy_edge.specs.Clock.{are_moments};

use crate::probe::{Probe, turned};
use std::alloc::Global;
use std::test::Fail;
use zy_base::Want;
use zy_edge::{MemClock, MemLink};
use zy_node::Host;

/// Puts the last byte of each datagram that was sent after so many into the log, and a point behind them.
fn log_turn(link: &MemLink, seen: usize, log: &mut Vec<u8>) -> Result<(), Want> {
    for number in seen..link.parcels() {
        let (_, bytes) = link.parcel(number);
        log.push(bytes.last().copied().unwrap_or(0))?;
    }
    Ok(log.push(b'.')?)
}

/// What is sent in one turn after another: of each datagram the last byte, and a point behind each turn.
fn log_of(alloc: Global, probe: Probe, moments: Vec<u64>) -> Result<Vec<u8>, Want>
    requires { IsTrue (are_moments moments.items) }
{
    let turns = moments.len();
    let mut link = MemLink::new(alloc, Vec::new(alloc), Vec::new(alloc), 64)?;
    let mut clock = MemClock::new(alloc, moments);
    let mut host = Host::new(alloc, probe);
    let mut log = Vec::new(alloc);
    for _ in 0..turns {
        let seen = link.parcels();
        host = turned(host, &mut link, &mut clock)?;
        log_turn(&link, seen, &mut log)?;
    }
    Ok(log)
}

// Its period is 400 milliseconds from the first reading on.
#[test]
fn a_timer_fires_when_its_period_is_over(rt: HostRuntime) -> Result<(), Fail> {
    let alloc = rt.alloc();
    let moments = Vec::from_slice(alloc, &[0, 399, 400, 799, 800])?;
    let log = log_of(alloc, Probe::answering(alloc), moments)?;
    assert_eq!(rt; log.as_slice(), b"..\x03..\x03.".as_slice());
    Ok(())
}

#[test]
fn late_readings_put_off_what_follows(rt: HostRuntime) -> Result<(), Fail> {
    let alloc = rt.alloc();
    let moments = Vec::from_slice(alloc, &[7, 900, 1299, 1300])?;
    let log = log_of(alloc, Probe::answering(alloc), moments)?;
    assert_eq!(rt; log.as_slice(), b".\x03..\x03.".as_slice());
    Ok(())
}

// The core stops Request as Change fires.
#[test]
fn of_two_that_are_due_request_fires_before_change(rt: HostRuntime) -> Result<(), Fail> {
    let alloc = rt.alloc();
    let moments = Vec::from_slice(alloc, &[0, 2000, 3999, 4000])?;
    let log = log_of(alloc, Probe::changing(alloc), moments)?;
    assert_eq!(rt; log.as_slice(), b".\x01\x02..\x02.".as_slice());
    Ok(())
}

#[test]
fn a_timer_that_a_step_starts_begins_with_the_next_reading(rt: HostRuntime) -> Result<(), Fail> {
    let alloc = rt.alloc();
    let moments = Vec::from_slice(alloc, &[0, 500, 600, 2599, 2600])?;
    let log = log_of(alloc, Probe::requesting(alloc), moments)?;
    assert_eq!(rt; log.as_slice(), b".\x01..\x01.\x02.".as_slice());
    Ok(())
}
