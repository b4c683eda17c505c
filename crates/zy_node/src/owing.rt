//! Datagrams that are owed: they are sent once the events that owe them are stored.

ghost use Rattle.std.specs.Prelude.{◌≡◌, ◌++◌, OnOk};
ghost use Rattle.zy_edge.specs.Faults.{IsCounted};
ghost use Rattle.zy_edge.specs.Link.{send_failed};
ghost use Rattle.zy_node.specs.Keeping.{all_owed};
ghost use Rattle.zy_node.specs.Told.{SendsAs};
ghost use Rattle.zy_node.specs.Turn.{all_parcels};

use crate::sending::{pieces, send_pieces};
use std::alloc::Global;
use zy_base::{Bytes, Items, Party, Want};
use zy_edge::{Link, Sent};

/// A frame that is still to be sent, in its pieces.
#[derive(Debug, Drop)]
pub(crate) struct Owed {
    pub(crate) to: Party,
    pub(crate) datagrams: Items<Bytes>,
}

/// Owes these frames too.
pub(crate) fn owe_all(
    alloc: Global,
    owed: &mut Items<Owed>,
    out: &[(Party, Bytes)],
) -> Result<(), Want>
    ensures { OnOk result (all_owed owed.new ≡ all_owed owed.old ++ all_parcels out.now) }
{
    for (to, frame) in out {
        let datagrams = Items::from(pieces(alloc, frame.as_slice())?);
        owed.push(Owed { to: *to, datagrams })?;
    }
    Ok(())
}

/// Sends what is owed. The first call of the link that fails is the last one.
pub(crate) fn send_owed<L: Link>(link: &mut L, owed: &[Owed]) -> Sent
    ensures sent { SendsAs result (all_owed owed.now) (L.mail link.old) (L.mail link.new) }
    ensures receives { L.receives link.new ≡ L.receives link.old }
    ensures binding { L.binding link.new ≡ L.binding link.old }
    ensures count { IsCounted (send_failed result) (L.faults link.old) (L.faults link.new) }
{
    for one in owed {
        match send_pieces(link, one.to, one.datagrams.as_slice()) {
            Sent::Sent => {}
            Sent::Failed => return Sent::Failed,
        }
    }
    Sent::Sent
}
