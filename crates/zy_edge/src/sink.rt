ghost use Rattle.std.specs.Prelude.{◌<◌, ℕ, Option, List, length};
ghost use Rattle.zy_edge.specs.Faults.{IsCounted};
ghost use Rattle.zy_edge.specs.Sink.{IsWrite, write_failed};

pub(crate) mod calm;
pub(crate) mod memory;
pub(crate) mod stdout;

/// What a `write` did.
#[derive(Clone, Copy, Debug, PartialEq, Eq)]
pub enum Wrote {
    /// So many bytes were taken from the front of the piece: from 1 to its length.
    Took(usize),
    /// No byte was taken.
    Failed,
}

/// Takes bytes, piece after piece.
pub trait Sink {
    /// How often a call has failed: a number that never falls, and stays at 2^64 - 1.
    ghost faults: { Self → ℕ };

    /// The bytes that were taken, where they are told.
    ghost taken: { Self → Option (List ℕ) };

    fn write(&mut self, piece: &[u8]) -> Wrote
        requires { 0 < length piece.now }
        ensures bytes { IsWrite result piece.now (taken self.old) (taken self.new) }
        ensures count { IsCounted (write_failed result) (faults self.old) (faults self.new) };
}
