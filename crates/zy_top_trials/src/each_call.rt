// Each call fails once: those of a replay's files and of its output, those of a node's link, and those of a journal's disk,
// until a run meets no failure.

ghost use Rattle.std.specs.Prelude.{Some};

use crate::hosted::{ask_exit, node_exit, serve_exit};
use crate::outside::{Faults, NO_FAULTS, Outside, outside_of, two_files};
use crate::secrets::{GROUP, KEYS, SECRET_OF_CLIENT, SECRET_OF_REPLICA};
use crate::texts::{lines_and, strings, text_bytes};
use std::alloc::Global;
use std::test::Fail;
use std::thread::Threads;
use zy_base::{Bytes, ClientId, ReplicaId, Want};
use zy_edge::{MemLink, MemSink, Sink, Wrote};
use zy_journal::MemDisk;
use zy_top::zyzzyva;
use zy_top_words::Exit;

/// An output that takes at most 256 bytes of a piece, and of which a chosen call fails.
#[derive(Drop)]
struct Sips {
    sink: MemSink,
}

const SIP: usize = 256;

impl Sink for Sips {
    ghost faults = { λ s. s.sink.calls.faults };

    ghost taken = { λ s. Some s.sink.taken };

    fn write(&mut self, piece: &[u8]) -> Wrote {
        self.sink.write(&piece[..piece.len().min(SIP)])
    }
}

impl Sips {
    fn new(alloc: Global, failing: u64) -> Result<Sips, Want> {
        let failing = Vec::from_slice(alloc, &[failing])?;
        let sink = MemSink::new(alloc, failing, 1_000)?;
        Ok(Sips { sink })
    }
}

/// The stored run in which a replica that followed a lying primary goes back: its group, its schedule and its report.
const LIED_TO: &str = "f = 1\nk = 8\nclients = 5\n\
    seed = \"0000000000000000000000000000000000000000000000000000000000000000\"\nheight = 5\nliars = [0]\n";

const LIES: &str =
    "ask c0 out (\"job\" 1)\nask c1 out (\"job\" 2)\nask c2 inp (\"job\" 1)\nask c3 out (\"job\" 3)\n\
    order r0 view 0 asks 1 to r1 r2 r3\norder r0 view 0 asks 1 2 to r1 r2 r3\norder r0 view 0 asks 1 2 3 to r1\n\
    order r0 view 0 asks 1 2 4 to r2 r3\nflow 100\norder r0 view 0 asks 1 2 3 to r2\nflow 100\nask c4 inp (\"job\" *)\n\
    timer c4 answer\nflow 100\ntimer c4 answer\nflow 100\ntimer c2 answer\nflow 100\ntimer c2 answer\nflow 100\n";

const REPORT: &str = "57 refused r2 12 Repeat\n58 refused r3 12 Repeat\n\
    65 done c4 stamp 1 view 1 place 4 slow tuple (\"job\" 1)\n77 refused r2 12 Repeat\n78 refused r3 12 Repeat\n\
    85 done c2 stamp 1 view 1 place 5 slow none\nr0 liar\n\
    r1 active 1 length 5 head b774f062c62adce5cc7fa0f0d4998376a1db14e99565cfd155a51394181a7d58 \
    state affe06a3c59694bcfcebecf2d6035711e995a1751724c651b81c2c61dad53b29\n\
    r2 active 1 length 5 head b774f062c62adce5cc7fa0f0d4998376a1db14e99565cfd155a51394181a7d58 \
    state affe06a3c59694bcfcebecf2d6035711e995a1751724c651b81c2c61dad53b29\n\
    r3 active 1 length 5 head b774f062c62adce5cc7fa0f0d4998376a1db14e99565cfd155a51394181a7d58 \
    state affe06a3c59694bcfcebecf2d6035711e995a1751724c651b81c2c61dad53b29\n\
    agreed 5 b774f062c62adce5cc7fa0f0d4998376a1db14e99565cfd155a51394181a7d58\n";

fn replayed_files(alloc: Global) -> Result<Vec<(Bytes, Bytes)>, Want> {
    let group = text_bytes(alloc, LIED_TO)?;
    let schedule = text_bytes(alloc, LIES)?;
    two_files(alloc, ("group", group), ("schedule", schedule))
}

fn replay_exit<R: Threads + Sync>(
    rt: &R,
    alloc: Global,
    outside: &mut Outside,
    out: &mut Sips,
) -> Result<Exit, Want> {
    let words = strings(alloc, &["replay", "group", "schedule"])?;
    Ok(zyzzyva(
        rt,
        alloc,
        &words,
        &mut outside.files,
        out,
        &mut outside.link,
        &mut outside.clock,
        &mut outside.disk,
    ))
}

/// How the replay ends of whose files this call fails, and of whose output this one, how many bytes were taken, and whether
/// they are a front of the report.
fn replayed<R: Threads + Sync>(
    rt: &R,
    alloc: Global,
    of_files: u64,
    of_output: u64,
) -> Result<(Exit, usize, bool), Want> {
    let faults = Faults {
        files: &[of_files],
        ..NO_FAULTS
    };
    let mut outside = outside_of(alloc, replayed_files(alloc)?, faults)?;
    let mut out = Sips::new(alloc, of_output)?;
    let exit = replay_exit(rt, alloc, &mut outside, &mut out)?;
    let taken = out.sink.taken();
    Ok((exit, taken.len(), REPORT.as_bytes().starts_with(taken)))
}

// Each of the two files is chosen, read, and at its end.
#[test]
fn each_call_of_its_files_ends_a_replay(rt: HostRuntime) -> Result<(), Fail> {
    for call in 1..=6 {
        let end = replayed(&rt, rt.alloc(), call, 0)?;
        assert_eq!(rt; end, (Exit::ReadFault, 0, true), "call {call}");
    }
    Ok(())
}

/// The failing call of the output that takes 763 bytes in three calls, and how many it has taken by then.
const OUTPUT: [(u64, usize); 3] = [(1, 0), (2, 256), (3, 512)];

#[test]
fn each_call_of_its_output_ends_a_replay(rt: HostRuntime) -> Result<(), Fail> {
    for (call, taken) in OUTPUT {
        let end = replayed(&rt, rt.alloc(), 0, call)?;
        assert_eq!(rt; end, (Exit::WriteFault, taken, true), "call {call}");
    }
    Ok(())
}

#[test]
fn a_replay_that_meets_no_failure_is_told_whole(rt: HostRuntime) -> Result<(), Fail> {
    let end = replayed(&rt, rt.alloc(), 7, 4)?;
    assert_eq!(rt; end, (Exit::Done, REPORT.len(), true));
    Ok(())
}

fn hosted_files(alloc: Global, own: &[&str; 4]) -> Result<Vec<(Bytes, Bytes)>, Want> {
    let group = lines_and(alloc, &[GROUP], KEYS)?;
    let secret = lines_and(alloc, own, "next = 0\nstamp = 0\n")?;
    two_files(alloc, ("group", group), ("secret", secret))
}

/// The request of client 3, which it sends before its first turn.
fn request(alloc: Global) -> Result<Bytes, Fail> {
    let held = hosted_files(alloc, &SECRET_OF_CLIENT)?;
    let mut outside = outside_of(alloc, held, NO_FAULTS)?;
    ask_exit(alloc, ClientId(3), 0, &mut outside);
    if outside.link.parcels() != 1 {
        return Err(Fail::from("a request of one datagram"));
    }
    Ok(Bytes::from_slice(alloc, outside.link.parcel(0).1)?)
}

/// A link on which this datagram comes, and of which this call fails.
fn link_of(alloc: Global, datagram: &Bytes, failing: u64) -> Result<MemLink, Want> {
    let mut coming = Vec::new(alloc);
    coming.push(Bytes::from_slice(alloc, datagram.as_slice())?)?;
    let failing = Vec::from_slice(alloc, &[failing])?;
    MemLink::new(alloc, coming, failing, 8)
}

/// How a node of twenty turns ends to which this datagram comes and of whose link this call fails, whether it has written
/// nothing, and whether it has written that it ordered one request.
fn served(alloc: Global, datagram: &Bytes, failing: u64) -> Result<(Exit, bool, bool), Want> {
    let mut outside = outside_of(alloc, hosted_files(alloc, &SECRET_OF_REPLICA)?, NO_FAULTS)?;
    outside.link = link_of(alloc, datagram, failing)?;
    let exit = node_exit(alloc, ReplicaId(0), 20, &mut outside);
    let taken = outside.out.taken();
    let is_ordered = taken.starts_with(b"r0 active 0 length 1 ");
    Ok((exit, taken.is_empty(), is_ordered))
}

// Its address, twenty receives, the order to three backups and the response to the client. These have two signatures of 4,756 bytes
// each, so they are cut into two datagrams.
const CALLS: u64 = 29;

#[test]
fn each_call_of_its_link_ends_a_node(rt: HostRuntime) -> Result<(), Fail> {
    let request = request(rt.alloc())?;
    for call in 1..=CALLS {
        let end = served(rt.alloc(), &request, call)?;
        assert_eq!(rt; end, (Exit::LinkFault, true, false), "call {call}");
    }
    Ok(())
}

#[test]
fn a_node_that_meets_no_failure_takes_its_turns(rt: HostRuntime) -> Result<(), Fail> {
    let request = request(rt.alloc())?;
    let end = served(rt.alloc(), &request, CALLS + 1)?;
    assert_eq!(rt; end, (Exit::TurnsSpent, false, true));
    Ok(())
}

/// How a replica of twenty turns with a journal ends to which this datagram comes and of whose disk this call fails, and how
/// many datagrams it has sent.
fn stored(alloc: Global, datagram: &Bytes, failing: u64) -> Result<(Exit, usize), Want> {
    let faults = Faults {
        disk: &[failing],
        ..NO_FAULTS
    };
    let mut outside = outside_of(alloc, hosted_files(alloc, &SECRET_OF_REPLICA)?, faults)?;
    outside.link = link_of(alloc, datagram, 0)?;
    let exit = serve_exit(alloc, ReplicaId(0), 20, &mut outside);
    Ok((exit, outside.link.parcels()))
}

// An empty file is opened, synced and measured, made a journal by three writes, and read to its end; then the request is stored
// by two writes.
const DISK_CALLS: u64 = 15;

#[test]
fn each_call_of_its_disk_ends_a_replica_that_has_sent_nothing(rt: HostRuntime) -> Result<(), Fail> {
    let request = request(rt.alloc())?;
    for call in 1..=DISK_CALLS {
        let end = stored(rt.alloc(), &request, call)?;
        assert_eq!(rt; end, (Exit::DiskFault, 0), "call {call}");
    }
    Ok(())
}

// The order goes to three backups, and the response to the client, each in two datagrams.
#[test]
fn a_replica_that_stored_its_request_sends(rt: HostRuntime) -> Result<(), Fail> {
    let request = request(rt.alloc())?;
    let end = stored(rt.alloc(), &request, DISK_CALLS + 1)?;
    assert_eq!(rt; end, (Exit::TurnsSpent, 8));
    Ok(())
}

/// What a replica writes of its end: to which this datagram came, and which goes on then from the file that its disk has.
fn ends(alloc: Global, datagram: &Bytes) -> Result<(Vec<u8>, Vec<u8>), Want> {
    let mut outside = outside_of(alloc, hosted_files(alloc, &SECRET_OF_REPLICA)?, NO_FAULTS)?;
    outside.link = link_of(alloc, datagram, 0)?;
    serve_exit(alloc, ReplicaId(0), 1, &mut outside);
    let first = Vec::from_slice(alloc, outside.out.taken())?;
    let image = Bytes::from_slice(alloc, outside.disk.contents())?;
    let mut later = outside_of(alloc, hosted_files(alloc, &SECRET_OF_REPLICA)?, NO_FAULTS)?;
    later.disk = MemDisk::new(alloc, image, 0, 100, Vec::new(alloc))?;
    serve_exit(alloc, ReplicaId(0), 0, &mut later);
    Ok((first, Vec::from_slice(alloc, later.out.taken())?))
}

#[test]
fn a_replica_goes_on_where_it_stood(rt: HostRuntime) -> Result<(), Fail> {
    let (first, later) = ends(rt.alloc(), &request(rt.alloc())?)?;
    let is_ordered = first.starts_with(b"r0 active 0 length 1 ");
    assert_eq!(rt; (is_ordered, later == first), (true, true));
    Ok(())
}
