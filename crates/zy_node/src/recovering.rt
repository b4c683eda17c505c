//! A core that goes on from its journal.

ghost use Rattle.std.specs.Prelude.{IfOk};
ghost use Rattle.zy_edge.specs.Faults.{IsCounted};
ghost use Rattle.zy_journal.specs.Disk.{Rests};
ghost use Rattle.zy_journal.specs.Journal.{IsAtEnd, IsAtGate};
ghost use Rattle.zy_node.specs.Recovering.{IsStepped, RecoversTo, is_recover_fault};

use crate::Core;
use crate::fault::RecoverFault;
use crate::host::Host;
use crate::records::event_of;
use std::alloc::Global;
use std::marker::Model;
use zy_journal::{Disk, Journal, Next, Reading};

/// A core that its journal's records have stepped.
#[derive(Drop)]
pub(crate) struct Recovered<C: Core> {
    pub(crate) host: Host<C>,
    pub(crate) journal: Journal,
}

impl<C: Core> Model for Recovered<C> {
    ghost use Rattle.zy_node.specs.Keeping.{KeptState};

    ghost Value = { KeptState C };

    ghost view = { λ r. record { host = r.host; gate = r.journal } };
}

/// Steps the core over the records. What these steps would send is lost, and the timers that are to run then begin to run.
pub(crate) fn recover<C: Core, D: Disk>(
    alloc: Global,
    core: C,
    reading: Reading,
    disk: &mut D,
) -> Result<Recovered<C>, RecoverFault>
    requires { IsAtGate (D.contents disk.old) (D.may_leave disk.old) reading }
    ensures recovered { RecoversTo C.rules core (D.contents disk.old) reading result }
    ensures end { IfOk result (λ r. IsAtEnd (D.contents disk.new) (D.may_leave disk.new) r.gate) }
    ensures rests { Rests D.contents D.may_leave D.moment D.left_since disk.old disk.new }
    ensures count { IsCounted (is_recover_fault result) (D.faults disk.old) (D.faults disk.new) }
{
    let mut core = core;
    let mut reading = reading;
    'records: loop {
        let gate = reading.gate();
        match reading.next(alloc, disk) {
            Ok(Next::Record(piece, next)) => {
                core = stepped(alloc, core, gate, piece.as_slice())?;
                reading = next;
            }
            Ok(Next::End(journal)) => {
                let host = Host::new(alloc, core);
                return Ok(Recovered { host, journal });
            }
            Err(fault) => return Err(RecoverFault::from(fault)),
        }
    }
}

// The core after the event that the record behind a gate spells.
fn stepped<C: Core>(alloc: Global, core: C, gate: u64, piece: &[u8]) -> Result<C, RecoverFault>
    ensures { IsStepped C.rules core gate piece.now result }
{
    match event_of(alloc, piece)? {
        Some(event) => Ok(core.handle(event)?.core),
        None => Err(RecoverFault::Damaged(gate)),
    }
}
