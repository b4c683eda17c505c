// A client and a node that nobody answers, over a link that hears nothing.

ghost use Rattle.std.specs.Prelude.{◌≤◌};

use crate::group::{client_at, lock_operation, no_keys, node};
use std::alloc::Global;
use std::test::Fail;
use zy_base::{Cause, Place, Stamp};
use zy_client::Client;
use zy_edge::{MemClock, MemLink};
use zy_node::{AskFault, Asked, NodeFault, ask_over};

/// How an ask ends.
#[derive(Clone, Copy, Debug, PartialEq, Eq)]
enum End {
    Done,
    Spent,
    Refused(Cause),
    LinkFault,
    Want,
}

/// The number of the next signature and the stamp of a client that is left.
type Left = Option<(u32, Stamp)>;

/// A client whose key is at a leaf, over a link of which this call fails, for so many turns; how it ends, the next leaf and
/// the stamp of the client that is left, and how many datagrams were sent.
#[derive(Clone, Copy)]
struct Alone {
    shows: &'static str,
    next: u32,
    failing: u64,
    turns: u64,
    end: End,
    left: Left,
    sent: usize,
}

const SPENT: Alone = Alone {
    shows: "turns are spent",
    next: 0,
    failing: 0,
    turns: 2,
    end: End::Spent,
    left: Some((1, Stamp(1))),
    sent: 1,
};

const ROWS: [Alone; 6] = [
    Alone {
        shows: "of no turns none is taken",
        turns: 0,
        ..SPENT
    },
    SPENT,
    Alone {
        shows: "the request can't be sent",
        failing: 1,
        end: End::LinkFault,
        left: None,
        sent: 0,
        ..SPENT
    },
    Alone {
        shows: "the first receive fails",
        failing: 2,
        end: End::LinkFault,
        left: None,
        ..SPENT
    },
    Alone {
        shows: "the last signature is given",
        next: 1023,
        turns: 1,
        left: Some((1024, Stamp(1))),
        ..SPENT
    },
    Alone {
        shows: "no signature is left",
        next: 1024,
        failing: 1,
        end: End::Refused(Cause::KeySpent),
        left: Some((1024, Stamp(0))),
        sent: 0,
        ..SPENT
    },
];

fn left_of(client: &Client) -> Left {
    Some((client.key_next(), client.stamp()))
}

fn end_of(asked: Result<Asked, AskFault>) -> (End, Left) {
    match asked {
        Ok(Asked::Done(client)) => (End::Done, left_of(&client)),
        Ok(Asked::Spent(client)) => (End::Spent, left_of(&client)),
        Ok(Asked::Refused(client, cause)) => (End::Refused(cause), left_of(&client)),
        Err(AskFault::Link) => (End::LinkFault, None),
        Err(AskFault::Want) => (End::Want, None),
    }
}

fn silent_link(alloc: Global, failing: u64) -> Result<MemLink, Fail> {
    let failing = Vec::from_slice(alloc, &[failing])?;
    Ok(MemLink::new(alloc, Vec::new(alloc), failing, 8)?)
}

fn asked_over(alloc: Global, row: &Alone, link: &mut MemLink) -> Result<(End, Left), Fail> {
    let client = client_at(alloc, row.next.min(1024), no_keys(alloc)?)?;
    let op = lock_operation(alloc)?;
    let mut clock = MemClock::new(alloc, Vec::from_slice(alloc, &[0])?);
    Ok(end_of(ask_over(alloc, client, op, link, &mut clock, row.turns)))
}

/// How the ask ends, what is left, and how many datagrams were sent.
fn ask_ends(alloc: Global, row: &Alone) -> Result<(End, Left, usize), Fail> {
    let mut link = silent_link(alloc, row.failing)?;
    let (end, left) = asked_over(alloc, row, &mut link)?;
    Ok((end, left, link.parcels()))
}

#[test]
fn an_ask_without_an_answer_ends(rt: HostRuntime) -> Result<(), Fail> {
    for row in &ROWS {
        let end = ask_ends(rt.alloc(), row)?;
        assert_eq!(rt; end, (row.end, row.left, row.sent), "{}", row.shows);
    }
    Ok(())
}

/// How a node ends that hears nothing: whether its link failed, the length of its history, and how many datagrams were sent.
fn node_ends(alloc: Global, failing: u64, turns: u64) -> Result<(bool, Place, usize), Fail> {
    let mut link = silent_link(alloc, failing)?;
    let (fails, length) = serve_alone(alloc, &mut link, turns)?;
    Ok((fails, length, link.parcels()))
}

fn serve_alone(alloc: Global, link: &mut MemLink, turns: u64) -> Result<(bool, Place), Fail> {
    let mut clock = MemClock::new(alloc, Vec::from_slice(alloc, &[0])?);
    match node(alloc, 2, no_keys(alloc)?)?.serve(link, &mut clock, turns) {
        Ok(node) => Ok((false, node.replica().length())),
        Err(NodeFault::Link(node)) => Ok((true, node.replica().length())),
        Err(NodeFault::Want) => Err(Fail::from("want of memory")),
    }
}

#[test]
fn a_node_takes_none_of_no_turns(rt: HostRuntime) -> Result<(), Fail> {
    let end = node_ends(rt.alloc(), 1, 0)?;
    assert_eq!(rt; end, (false, Place(0), 0));
    Ok(())
}

#[test]
fn a_node_that_hears_nothing_takes_all_its_turns(rt: HostRuntime) -> Result<(), Fail> {
    let end = node_ends(rt.alloc(), 0, 3)?;
    assert_eq!(rt; end, (false, Place(0), 0));
    Ok(())
}

#[test]
fn a_node_ends_with_its_link(rt: HostRuntime) -> Result<(), Fail> {
    let end = node_ends(rt.alloc(), 1, 1)?;
    assert_eq!(rt; end, (true, Place(0), 0));
    Ok(())
}
