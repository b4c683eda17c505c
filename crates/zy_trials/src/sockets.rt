// Datagrams over loopback, between replica 3 and client 5 of a group.

use crate::loopback::{bound_link, first_port};
use std::process;
use std::test::Fail;
use zy_base::{ClientId, Party, ReplicaId};
use zy_edge::{Bound, Heard, Link, MAX_PARCEL, Sent, UdpLink};

const REPLICA: Party = Party::Replica(ReplicaId(3));

const ASKER: Party = Party::Client(ClientId(5));

/// A client whose port would lie above the last one.
const TOO_FAR: Party = Party::Client(ClientId(65_535));

/// How long a datagram that was sent may take.
const WAIT_MS: u64 = 1000;

#[test]
fn a_link_without_an_address_hears_nothing(rt: HostRuntime) {
    let heard = UdpLink::new(&rt).receive(&mut [0; 3], 20);
    assert_eq!(rt; heard, Heard::Failed);
}

#[test]
fn a_link_without_an_address_sends_nothing(rt: HostRuntime) {
    let sent = UdpLink::new(&rt).send(ASKER, b"early");
    assert_eq!(rt; sent, Sent::Failed);
}

#[test]
fn a_port_above_the_last_one_is_not_bound(rt: HostRuntime) {
    let bound = UdpLink::new(&rt).bind(65_535, ASKER);
    assert_eq!(rt; bound, Bound::Failed);
}

#[test]
fn an_address_is_bound_once(rt: HostRuntime) -> Result<(), Fail> {
    let port = first_port(process::id(rt.process()));
    let _first = bound_link(&rt, port, REPLICA)?;
    let second = UdpLink::new(&rt).bind(port, REPLICA);
    assert_eq!(rt; second, Bound::Failed);
    Ok(())
}

#[test]
fn a_link_that_could_not_be_bound_hears_nothing(rt: HostRuntime) -> Result<(), Fail> {
    let port = first_port(process::id(rt.process()));
    let _first = bound_link(&rt, port, REPLICA)?;
    let heard = heard_behind_a_bind(&mut UdpLink::new(&rt), port);
    assert_eq!(rt; heard, Heard::Failed);
    Ok(())
}

fn heard_behind_a_bind(link: &mut impl Link, port: u16) -> Heard {
    let _refused = link.bind(port, REPLICA);
    link.receive(&mut [0; 3], 20)
}

#[test]
fn nothing_is_sent_above_the_last_port(rt: HostRuntime) -> Result<(), Fail> {
    let sent = bound_link(&rt, first_port(process::id(rt.process())), REPLICA)?.send(
        TOO_FAR, b"nowhere",
    );
    assert_eq!(rt; sent, Sent::Failed);
    Ok(())
}

#[test]
fn an_idle_link_is_quiet(rt: HostRuntime) -> Result<(), Fail> {
    let heard = bound_link(&rt, first_port(process::id(rt.process())), REPLICA)?.receive(
        &mut [0; 3],
        20,
    );
    assert_eq!(rt; heard, Heard::Quiet);
    Ok(())
}

/// What the other party hears of a datagram, in a buffer of this room.
fn passed_on(
    from: &mut impl Link,
    to: &mut impl Link,
    party: Party,
    bytes: &[u8],
    buf: &mut [u8],
) -> Heard {
    match from.send(party, bytes) {
        Sent::Sent => to.receive(buf, WAIT_MS),
        Sent::Failed => Heard::Failed,
    }
}

/// Whether the bytes come from one party to the other as they were sent.
fn arrive(from: &mut impl Link, to: &mut impl Link, party: Party, bytes: &[u8]) -> bool {
    let mut buf = [0; MAX_PARCEL];
    passed_on(from, to, party, bytes, &mut buf) == Heard::Datagram(bytes.len())
        && buf.starts_with(bytes)
}

#[test]
fn a_datagram_arrives_at_a_client(rt: HostRuntime) -> Result<(), Fail> {
    let port = first_port(process::id(rt.process()));
    let mut replica = bound_link(&rt, port, REPLICA)?;
    let mut client = bound_link(&rt, port, ASKER)?;
    assert!(rt; arrive(&mut replica, &mut client, ASKER, b"one"));
    Ok(())
}

#[test]
fn an_empty_datagram_arrives(rt: HostRuntime) -> Result<(), Fail> {
    let port = first_port(process::id(rt.process()));
    let mut replica = bound_link(&rt, port, REPLICA)?;
    let mut client = bound_link(&rt, port, ASKER)?;
    assert!(rt; arrive(&mut replica, &mut client, ASKER, b""));
    Ok(())
}

#[test]
fn the_longest_datagram_arrives_at_a_replica(rt: HostRuntime) -> Result<(), Fail> {
    let port = first_port(process::id(rt.process()));
    let mut replica = bound_link(&rt, port, REPLICA)?;
    let mut client = bound_link(&rt, port, ASKER)?;
    assert!(rt; arrive(&mut client, &mut replica, REPLICA, &[9; MAX_PARCEL]));
    Ok(())
}

/// Whether two datagrams arrive, one after the other.
fn arrive_both(from: &mut impl Link, to: &mut impl Link) -> bool {
    arrive(from, to, ASKER, b"one") && arrive(from, to, ASKER, b"two")
}

#[test]
fn two_datagrams_arrive_in_their_order(rt: HostRuntime) -> Result<(), Fail> {
    let port = first_port(process::id(rt.process()));
    let mut replica = bound_link(&rt, port, REPLICA)?;
    let mut client = bound_link(&rt, port, ASKER)?;
    assert!(rt; arrive_both(&mut replica, &mut client));
    Ok(())
}

/// What is heard of a datagram of the greatest length in a buffer of three bytes, and right after.
fn cut_and_next(from: &mut impl Link, to: &mut impl Link) -> (Heard, Heard) {
    let mut buf = [0; 3];
    let cut = passed_on(from, to, ASKER, &[9; MAX_PARCEL], &mut buf);
    (cut, to.receive(&mut buf, 0))
}

#[test]
fn what_does_not_fit_the_buffer_is_lost(rt: HostRuntime) -> Result<(), Fail> {
    let port = first_port(process::id(rt.process()));
    let mut replica = bound_link(&rt, port, REPLICA)?;
    let mut client = bound_link(&rt, port, ASKER)?;
    let heard = cut_and_next(&mut replica, &mut client);
    assert_eq!(rt; heard, (Heard::Datagram(3), Heard::Quiet));
    Ok(())
}
