// A frame of two pieces is heard once it is whole: a core that sends back what it hears sends the same two pieces.

use crate::probe::{PEER, Probe, turned};
use std::alloc::Global;
use std::test::Fail;
use zy_base::{Bytes, Want};
use zy_edge::{MemClock, MemLink};
use zy_node::Host;
use zy_pieces::cut;

/// One byte more than a piece has room for.
const FRAME_BYTES: usize = 8193;

/// The datagrams of the frame.
fn pieces(alloc: Global) -> Result<Vec<Bytes>, Want> {
    let frame = vec![in alloc; 5; FRAME_BYTES]?;
    cut(alloc, &frame)
}

/// The pieces, the last one first, with something else between them.
fn pieces_in_reverse(alloc: Global) -> Result<Vec<Bytes>, Fail> {
    let mut coming = pieces(alloc)?;
    coming.reverse();
    if coming.len() != 2 {
        return Err(Fail::from("two pieces"));
    }
    coming.insert(1, Bytes::from_slice(alloc, b"no piece")?)?;
    Ok(coming)
}

fn link_of_pieces(alloc: Global) -> Result<MemLink, Fail> {
    let coming = pieces_in_reverse(alloc)?;
    Ok(MemLink::new(alloc, coming, Vec::new(alloc), 8)?)
}

/// How many datagrams are sent by the end of each of four turns.
fn sent_in_turns(alloc: Global, link: &mut MemLink) -> Result<[usize; 4], Fail> {
    let mut clock = MemClock::new(alloc, Vec::from_slice(alloc, &[0])?);
    let mut host = Host::new(alloc, Probe::answering(alloc));
    let mut sent = [0; 4];
    for count in &mut sent {
        host = turned(host, link, &mut clock)?;
        *count = link.parcels();
    }
    Ok(sent)
}

#[test]
fn a_frame_is_heard_with_its_last_piece(rt: HostRuntime) -> Result<(), Fail> {
    let mut link = link_of_pieces(rt.alloc())?;
    let sent = sent_in_turns(rt.alloc(), &mut link)?;
    assert_eq!(rt; sent, [0, 0, 2, 2]);
    Ok(())
}

fn is_sent(link: &MemLink, number: usize, datagram: &Bytes) -> bool {
    if number >= link.parcels() {
        return false;
    }
    let (to, bytes) = link.parcel(number);
    to == PEER && bytes == datagram.as_slice()
}

/// Whether the first datagrams that were sent are these.
fn are_sent(link: &MemLink, datagrams: &[Bytes]) -> bool {
    for (number, datagram) in datagrams.iter().enumerate() {
        if !is_sent(link, number, datagram) {
            return false;
        }
    }
    true
}

#[test]
fn a_frame_is_sent_in_its_pieces(rt: HostRuntime) -> Result<(), Fail> {
    let mut link = link_of_pieces(rt.alloc())?;
    sent_in_turns(rt.alloc(), &mut link)?;
    let wanted = pieces(rt.alloc())?;
    assert!(rt; are_sent(&link, &wanted));
    Ok(())
}
