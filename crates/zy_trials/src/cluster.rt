// Four nodes and a client over loopback, whose turns are taken one after another in one process.

ghost use Rattle.std.specs.Prelude.{◌≤◌, length};

use crate::group::{ASKER, client_at, directory, lock_operation, node};
use crate::loopback::{bound_link, first_port};
use std::alloc::Global;
use std::net::Net;
use std::test::Fail;
use std::{process, time};
use zy_base::{Party, Place, ReplicaId, Stamp, View};
use zy_client::{Client, Path};
use zy_edge::{Clock, Link, RealClock, UdpLink};
use zy_node::{Asker, Begun, Node, NodeFault};
use zy_seal::Directory;
use zy_space::Space;

// A node, and its way to the others.
#[derive(Drop)]
struct Member<'a, R: Net + time::Clock> {
    node: Node<Space>,
    link: UdpLink<'a, R>,
}

fn make_member<'a, R: Net + time::Clock>(
    rt: &'a R,
    alloc: Global,
    port: u16,
    id: u8,
    directory: Directory,
) -> Result<Member<'a, R>, Fail>
    requires replicas { length directory.replicas ≤ 4 }
    requires clients { length directory.clients ≤ 64 }
{
    let link = bound_link(rt, port, Party::Replica(ReplicaId(id)))?;
    let node = node(alloc, id, directory)?;
    Ok(Member { node, link })
}

fn make_members<'a, R: Net + time::Clock>(
    rt: &'a R,
    alloc: Global,
    port: u16,
    directory: &Directory,
) -> Result<Vec<Member<'a, R>>, Fail>
    requires replicas { length directory.now.replicas ≤ 4 }
    requires clients { length directory.now.clients ≤ 64 }
{
    let mut members = Vec::new(alloc);
    for id in 0..4 {
        members.push(make_member(rt, alloc, port, id, directory.clone()?)?)?;
    }
    Ok(members)
}

fn turned<'a, R: Net + time::Clock>(
    member: Member<'a, R>,
    clock: &mut impl Clock,
) -> Result<Member<'a, R>, Fail> {
    let Member { node, mut link } = member;
    match node.turn(&mut link, clock) {
        Ok(node) => Ok(Member { node, link }),
        Err(NodeFault::Link(_)) => Err(Fail::from("the link of a node")),
        Err(NodeFault::Want) => Err(Fail::from("want of memory")),
    }
}

// One turn of each.
fn all_turned<'a, R: Net + time::Clock>(
    alloc: Global,
    members: Vec<Member<'a, R>>,
    clock: &mut impl Clock,
) -> Result<Vec<Member<'a, R>>, Fail> {
    let mut after = Vec::new(alloc);
    for member in members {
        after.push(turned(member, clock)?)?;
    }
    Ok(after)
}

fn begun(alloc: Global, client: Client, link: &mut impl Link) -> Result<Asker, Fail> {
    match Asker::begin(alloc, client, lock_operation(alloc)?, link)? {
        Begun::Waiting(asker) => Ok(asker),
        Begun::Refused(_, _) => Err(Fail::from("refused")),
    }
}

// Twenty rounds, in each of which every node takes a turn, and then the client.
fn take_rounds<'a, R: Net + time::Clock>(
    rt: &'a R,
    alloc: Global,
    mut members: Vec<Member<'a, R>>,
    mut asker: Asker,
    link: &mut UdpLink<'a, R>,
) -> Result<(Vec<Member<'a, R>>, Client), Fail> {
    let mut clock = RealClock::new(rt);
    for _ in 0..20 {
        members = all_turned(alloc, members, &mut clock)?;
        asker = asker.turn(link, &mut clock)?;
    }
    Ok((members, asker.into_client()))
}

// The nodes and the client after their rounds, at ports of this process.
fn after_rounds<'a, R: Net + time::Clock>(
    rt: &'a R,
    alloc: Global,
    number: u32,
) -> Result<(Vec<Member<'a, R>>, Client), Fail> {
    let port = first_port(number);
    let directory = directory(alloc)?;
    let members = make_members(rt, alloc, port, &directory)?;
    let mut link = bound_link(rt, port, ASKER)?;
    let asker = begun(alloc, client_at(alloc, 0, directory)?, &mut link)?;
    take_rounds(rt, alloc, members, asker, &mut link)
}

fn is_first_completion(client: &Client) -> bool {
    match client.done() {
        Some(done) => {
            done.stamp == Stamp(1)
                && done.view == View(0)
                && done.place == Place(1)
                && done.path == Path::Fast
                && done.reply.as_slice() == b"\x03".as_slice()
        }
        None => false,
    }
}

fn are_at<R: Net + time::Clock>(members: &[Member<'_, R>], place: Place) -> bool {
    members
        .iter()
        .all(|member| member.node.replica().length() == place)
}

// What the nodes and the client came to.
#[derive(Clone, Copy)]
struct Outcome {
    all_took_it: bool,
    is_done_fast: bool,
    leaf: u32,
    stamp: Stamp,
}

fn run_all<R: Net + time::Clock>(rt: &R, alloc: Global, number: u32) -> Result<Outcome, Fail> {
    let (members, client) = after_rounds(rt, alloc, number)?;
    Ok(Outcome {
        all_took_it: are_at(&members, Place(1)),
        is_done_fast: is_first_completion(&client),
        leaf: client.key_next(),
        stamp: client.stamp(),
    })
}

#[test]
fn a_client_is_answered_fast(rt: HostRuntime) -> Result<(), Fail> {
    let outcome = run_all(&rt, rt.alloc(), process::id(rt.process()))?;
    assert!(rt; outcome.is_done_fast);
    Ok(())
}

#[test]
fn a_client_signs_once_for_a_request(rt: HostRuntime) -> Result<(), Fail> {
    let outcome = run_all(&rt, rt.alloc(), process::id(rt.process()))?;
    assert_eq!(rt; (outcome.leaf, outcome.stamp), (1, Stamp(1)));
    Ok(())
}

#[test]
fn every_node_takes_the_request(rt: HostRuntime) -> Result<(), Fail> {
    let outcome = run_all(&rt, rt.alloc(), process::id(rt.process()))?;
    assert!(rt; outcome.all_took_it);
    Ok(())
}
