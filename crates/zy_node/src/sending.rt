//! Frames as datagrams, one after another.

ghost use Rattle.std.specs.Prelude.{◌≡◌, IfOk, OnOk, OnErr};
ghost use Rattle.zy_edge.specs.Faults.{IsCounted};
ghost use Rattle.zy_edge.specs.Link.{send_failed};
ghost use Rattle.zy_node.specs.Told.{Sends, SendsAs, SendsFront, is_send_fault};
ghost use Rattle.zy_node.specs.Turn.{all_parcels, parcels_of, parcels_to, pieces_of};

use crate::fault::SendFault;
use std::alloc::Global;
use zy_base::{Bytes, Party, Want};
use zy_edge::{Link, Sent};
use zy_pieces::cut;
use zy_wire::MAX_FRAME;

/// Sends frames, each in its pieces. The first call of the link that fails is the last one.
pub(crate) fn send_all<L: Link>(
    alloc: Global,
    link: &mut L,
    out: &[(Party, Bytes)],
) -> Result<(), SendFault>
    ensures ok { OnOk result (Sends (all_parcels out.now) (L.mail link.old) (L.mail link.new)) }
    ensures err { OnErr result (SendsFront (all_parcels out.now) (L.mail link.old) (L.mail link.new)) }
    ensures receives { L.receives link.new ≡ L.receives link.old }
    ensures binding { L.binding link.new ≡ L.binding link.old }
    ensures count { IsCounted (is_send_fault result) (L.faults link.old) (L.faults link.new) }
{
    for (to, frame) in out {
        send_frame(alloc, link, *to, frame.as_slice())?;
    }
    Ok(())
}

fn send_frame<L: Link>(
    alloc: Global,
    link: &mut L,
    to: Party,
    frame: &[u8],
) -> Result<(), SendFault>
    ensures ok { OnOk result (Sends (parcels_of (to, frame.now)) (L.mail link.old) (L.mail link.new)) }
    ensures err { OnErr result (SendsFront (parcels_of (to, frame.now)) (L.mail link.old) (L.mail link.new)) }
    ensures receives { L.receives link.new ≡ L.receives link.old }
    ensures binding { L.binding link.new ≡ L.binding link.old }
    ensures count { IsCounted (is_send_fault result) (L.faults link.old) (L.faults link.new) }
{
    let datagrams = pieces(alloc, frame)?;
    match send_pieces(link, to, &datagrams) {
        Sent::Sent => Ok(()),
        Sent::Failed => Err(SendFault::Link),
    }
}

/// The pieces of a frame as datagrams.
pub(crate) fn pieces(alloc: Global, frame: &[u8]) -> Result<Vec<Bytes>, Want>
    ensures { IfOk result (λ datagrams. datagrams.items ≡ pieces_of frame.now) }
{
    // No core sends such a frame, since all that they send was encoded; but what they promise doesn't say so.
    if frame.is_empty() || frame.len() > MAX_FRAME {
        return Ok(Vec::new(alloc));
    }
    cut(alloc, frame)
}

/// Sends datagrams to a party. The first call of the link that fails is the last one.
pub(crate) fn send_pieces<L: Link>(link: &mut L, to: Party, datagrams: &[Bytes]) -> Sent
    ensures sent { SendsAs result (parcels_to to datagrams.now) (L.mail link.old) (L.mail link.new) }
    ensures receives { L.receives link.new ≡ L.receives link.old }
    ensures binding { L.binding link.new ≡ L.binding link.old }
    ensures count { IsCounted (send_failed result) (L.faults link.old) (L.faults link.new) }
{
    for datagram in datagrams {
        match link.send(to, datagram.as_slice()) {
            Sent::Sent => {}
            Sent::Failed => return Sent::Failed,
        }
    }
    Sent::Sent
}
