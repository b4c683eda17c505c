ghost use Rattle.std.specs.Prelude.{◌≡◌, ◌<◌, ◌≤◌, ◌^◌, [], Some, IfOk, length};
ghost use Rattle.zy_edge.specs.Faults.{IsCounted};
ghost use Rattle.zy_edge.specs.Memory.{write_fails, counted};
ghost use Rattle.zy_edge.specs.Sink.{IsWhole, IsWrite, write_failed};

use super::{Sink, Wrote};
use crate::calls::Calls;
use std::alloc::Global;
use std::marker::Model;
use zy_base::Want;

/// Bytes in memory, with room for so many, of which chosen calls fail. A call fails exactly where its number is
/// listed, or where its piece doesn't fit the room that is left. Any other takes its whole piece.
#[derive(Debug, Drop)]
pub struct MemSink {
    taken: Vec<u8>,
    room: usize,
    calls: Calls,
}

impl Model for MemSink {
    ghost use Rattle.std.specs.Prelude.{◌≤◌, length, vec_capacity};
    ghost use Rattle.zy_edge.specs.Memory.{MemorySink};

    ghost Value = { MemorySink };

    ghost view = { λ m. record { taken = m.taken.items; room = m.room; calls = m.calls } };

    ghost invariant = { λ m. (length m.taken.items ≤ m.room) × (m.room ≤ vec_capacity m.taken) };
}

impl MemSink {
    /// Takes the room at once, and the numbers of the calls that are to fail. Calls are numbered from 1, and the
    /// number stays at 2^64 - 1.
    pub fn new(alloc: Global, failing: Vec<u64>, room: u64) -> Result<MemSink, Want>
        requires { room ≤ 2 ^ 30 }
        ensures { IfOk result (λ sink. sink ≡ record {
          taken = [];
          room = room;
          calls = record { failing = failing.items; made = 0; faults = 0 };
        }) }
    {
        let room = room as usize;
        Ok(MemSink {
            taken: Vec::with_capacity(alloc, room)?,
            room,
            calls: Calls::new(failing),
        })
    }

    /// The bytes that were taken.
    pub fn taken(&self) -> &[u8]
        ensures { result.now ≡ self.now.taken }
    {
        &self.taken
    }
}

impl Sink for MemSink {
    ghost faults = { λ m. m.calls.faults };

    ghost taken = { λ m. Some m.taken };

    fn write(&mut self, piece: &[u8]) -> Wrote
        requires { 0 < length piece.now }
        ensures exactly { write_failed result ≡ write_fails self.old piece.now }
        ensures whole { IsWhole result piece.now }
        ensures calls { self.new.calls ≡ counted (write_failed result) self.old.calls }
        ensures room { self.new.room ≡ self.old.room }
        ensures bytes { IsWrite result piece.now (Some self.old.taken) (Some self.new.taken) }
        ensures count { IsCounted (write_failed result) self.old.calls.faults self.new.calls.faults }
    {
        let failed = self.calls.next_is_listed() || self.room - self.taken.len() < piece.len();
        self.calls.count(failed);
        if failed {
            return Wrote::Failed;
        }
        // The room was taken at the start, so this can't fail.
        match self.taken.extend_from_slice(piece) {
            Ok(()) => Wrote::Took(piece.len()),
            Err(_) => unreachable!(),
        }
    }
}
