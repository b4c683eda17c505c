ghost use Rattle.std.specs.Prelude.{◌≡◌, ◌<◌, None, length};
ghost use Rattle.zy_edge.specs.Faults.{IsCounted};
ghost use Rattle.zy_edge.specs.Sink.{IsWrite, write_failed};

use super::{Sink, Wrote};

/// Takes all and never fails. It keeps no bytes and tells none.
#[derive(Clone, Copy, Debug)]
pub struct CalmSink;

impl CalmSink {
    pub fn new() -> CalmSink {
        CalmSink
    }
}

impl Sink for CalmSink {
    ghost faults = { λ _. 0 };

    ghost taken = { λ _. None };

    fn write(&mut self, piece: &[u8]) -> Wrote
        requires { 0 < length piece.now }
        ensures whole { result ≡ Wrote.Took (length piece.now) }
        ensures bytes { IsWrite result piece.now None None }
        ensures count { IsCounted (write_failed result) 0 0 }
    {
        Wrote::Took(piece.len())
    }
}
