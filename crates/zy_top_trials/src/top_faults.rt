// The whole program over files, a sink and a link of which chosen calls fail: how it ends, and what it has written by then.

use crate::outside::{Faults, NO_FAULTS, Outside, outside_of, two_files};
use crate::secrets::{GROUP, KEYS, SECRET_OF_CLIENT, SECRET_OF_REPLICA};
use crate::texts::{lines_and, repeated, strings, text_bytes};
use std::alloc::Global;
use std::test::Fail;
use std::thread::Threads;
use zy_base::{Bytes, Want};
use zy_top::zyzzyva;
use zy_top_words::{Exit, ending};

/// How a command line of these words ends.
fn exit_of<R: Threads + Sync>(
    rt: &R,
    alloc: Global,
    words: &[&str],
    outside: &mut Outside,
) -> Result<Exit, Want> {
    let words = strings(alloc, words)?;
    Ok(zyzzyva(
        rt,
        alloc,
        &words,
        &mut outside.files,
        &mut outside.out,
        &mut outside.link,
        &mut outside.clock,
        &mut outside.disk,
    ))
}

/// The failing calls of the file and of the sink, the sink's room, how the script ends then, and how many bytes of the report
/// the sink has taken.
type ScriptRow = (&'static [u64], &'static [u64], u32, Exit, usize);

/// The bytes of a report of 30,000 bytes that are written first, as soon as there are 16,384.
const FIRST: usize = 16_385;

const ALL: usize = 30_000;

// The file is chosen by its first call, read by the second, and at its end by the third.
const SCRIPTS: [ScriptRow; 9] = [
    (&[], &[], 30_000, Exit::Done, ALL),
    (&[1], &[], 30_000, Exit::ReadFault, 0),
    (&[2], &[], 30_000, Exit::ReadFault, 0),
    (&[3], &[], 30_000, Exit::ReadFault, 0),
    (&[4], &[3], 30_000, Exit::Done, ALL),
    (&[], &[1], 30_000, Exit::WriteFault, 0),
    (&[], &[2], 30_000, Exit::WriteFault, FIRST),
    (&[], &[], 16_384, Exit::WriteFault, 0),
    (&[], &[], 29_999, Exit::WriteFault, FIRST),
];

/// 6,000 times an operation that finds nothing.
fn long_script(alloc: Global) -> Result<Vec<(Bytes, Bytes)>, Want> {
    let script = repeated(alloc, "rdp (1)\n", 6_000)?;
    two_files(alloc, ("script", script), ("other", Bytes::new(alloc)))
}

/// Whether the lines that were taken say that nothing was found, the last one maybe in part.
fn are_nones(taken: &[u8]) -> bool {
    taken.chunks(5).all(|line| b"none\n".starts_with(line))
}

/// How the script ends, how many bytes were taken, and whether they are a front of the report.
fn script_ends<R: Threads + Sync>(
    rt: &R,
    alloc: Global,
    row: &ScriptRow,
) -> Result<(Exit, usize, bool), Want> {
    let (files, sink, room, _, _) = *row;
    let faults = Faults {
        files,
        sink,
        link: &[],
        disk: &[],
        room,
    };
    let mut outside = outside_of(alloc, long_script(alloc)?, faults)?;
    let exit = exit_of(rt, alloc, &["space", "script"], &mut outside)?;
    let taken = outside.out.taken();
    Ok((exit, taken.len(), are_nones(taken)))
}

#[test]
fn a_script_ends_with_the_first_fault(rt: HostRuntime) -> Result<(), Fail> {
    for row in &SCRIPTS {
        let (files, sink, room, exit, taken) = *row;
        let end = script_ends(&rt, rt.alloc(), row)?;
        assert_eq!(rt;
            end,
            (exit, taken, true),
            "files {files:?}, sink {sink:?}, room {room}"
        );
    }
    Ok(())
}

const ZEROS: &str = "0000000000000000000000000000000000000000000000000000000000000000";

fn keys_exit<R: Threads + Sync>(rt: &R, alloc: Global) -> Result<Exit, Want> {
    let faults = Faults {
        sink: &[1],
        ..NO_FAULTS
    };
    let mut outside = outside_of(alloc, Vec::new(alloc), faults)?;
    exit_of(rt, alloc, &["keys", ZEROS, "r0", "5"], &mut outside)
}

#[test]
fn a_secret_that_is_not_written_is_a_fault(rt: HostRuntime) -> Result<(), Fail> {
    let exit = keys_exit(&rt, rt.alloc())?;
    assert_eq!(rt; exit, Exit::WriteFault);
    Ok(())
}

/// The words of a node or an ask, the call of the link that fails, and what the program leaves: what it writes, its status
/// and its line on standard error.
#[derive(Clone, Copy)]
struct HostRow {
    words: &'static [&'static str],
    failing: u64,
    left: &'static str,
}

// The link's first call is the one that binds it. Then a node receives once in each turn; an ask sends its request before.
const HOSTS: [HostRow; 5] = [
    HostRow {
        words: &["node", "group", "r0", "r0", "0"],
        failing: 0,
        left: "r0 active 0 length 0 head 0000000000000000000000000000000000000000000000000000000000000000 \
            state baf00e0b9e04a2563ee664311136c4f84d22d5790ea9171c344e6093d6b0bd12\n\
            key next 0 stamp 0\n10 turns spent",
    },
    HostRow {
        words: &["node", "group", "r0", "r0", "2"],
        failing: 2,
        left: "8 link fault",
    },
    HostRow {
        words: &["ask", "group", "c3", "c3", "0", "out (1)"],
        failing: 0,
        left: "key next 1 stamp 1\n10 turns spent",
    },
    HostRow {
        words: &["ask", "group", "c3", "c3", "1", "out (1)"],
        failing: 2,
        left: "8 link fault",
    },
    HostRow {
        words: &["ask", "group", "r0", "c3", "1", "out (1)"],
        failing: 0,
        left: "6 group field 18",
    },
];

/// The group's file, and the secrets of replica 0 and of client 3.
fn host_files(alloc: Global) -> Result<Vec<(Bytes, Bytes)>, Want> {
    let group = lines_and(alloc, &[GROUP], KEYS)?;
    let replica = lines_and(alloc, &SECRET_OF_REPLICA, "next = 0\nstamp = 0\n")?;
    let mut held = two_files(alloc, ("group", group), ("r0", replica))?;
    let client = lines_and(alloc, &SECRET_OF_CLIENT, "next = 0\nstamp = 0\n")?;
    held.push((text_bytes(alloc, "c3")?, client))?;
    Ok(held)
}

/// What was written, the status, and the line on standard error.
fn left_by(alloc: Global, written: &[u8], exit: Exit) -> Result<Vec<u8>, Fail> {
    let mut left = Vec::from_slice(alloc, written)?;
    let text = match ending(exit) {
        (status, Some(line)) => format!(in alloc; "{status} {line}")?,
        (status, None) => format!(in alloc; "{status}")?,
    };
    left.extend_from_slice(text.as_bytes())?;
    Ok(left)
}

fn host_leaves<R: Threads + Sync>(rt: &R, alloc: Global, row: &HostRow) -> Result<Vec<u8>, Fail> {
    let faults = Faults {
        link: &[row.failing],
        ..NO_FAULTS
    };
    let mut outside = outside_of(alloc, host_files(alloc)?, faults)?;
    let exit = exit_of(rt, alloc, row.words, &mut outside)?;
    left_by(alloc, outside.out.taken(), exit)
}

#[test]
fn a_node_or_an_ask_leaves_what_it_wrote_and_why_it_ended(rt: HostRuntime) -> Result<(), Fail> {
    for row in &HOSTS {
        let left = host_leaves(&rt, rt.alloc(), row)?;
        assert_eq!(rt; left.as_slice(), row.left.as_bytes(), "{:?}", row.words);
    }
    Ok(())
}
