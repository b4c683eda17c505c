// Standard output over a double that takes two bytes at a time, and over the real one.

ghost use Rattle.std.specs.Prelude.{◌<◌, length};

use std::cell::Cell;
use std::{fmt, io};
use zy_edge::{Sink, StdSink, Wrote};

/// An output that takes two bytes at a time, at most six, and keeps them.
#[derive(Drop)]
struct Tape {
    bytes: Cell<[u8; 6]>,
    len: Cell<usize>,
}

impl Print for Tape {
    fn print<D: fmt::Display + Drop>(&self, _value: D) -> io::Result<()> {
        Err(io::Error::from(io::ErrorKind::Unsupported))
    }

    fn println<D: fmt::Display + Drop>(&self, _value: D) -> io::Result<()> {
        Err(io::Error::from(io::ErrorKind::Unsupported))
    }

    fn write_all(&self, _bytes: &[u8]) -> io::Result<()> {
        Err(io::Error::from(io::ErrorKind::Unsupported))
    }

    fn write_some(&self, piece: &[u8]) -> io::Result<usize> {
        let mut bytes = self.bytes.get();
        let len = self.len.get();
        let more = piece.len().min(2);
        if len > 6 || more > 6 - len {
            return Err(io::Error::from(io::ErrorKind::StorageFull));
        }
        bytes[len..len + more].copy_from_slice(&piece[..more]);
        self.bytes.set(bytes);
        self.len.set(len + more);
        Ok(more)
    }
}

/// A piece that is written, what the sink answers, and what the output has taken by then.
#[derive(Clone, Copy)]
struct Step {
    piece: &'static str,
    wrote: Wrote,
    taken: &'static str,
}

const STEPS: [Step; 6] = [
    Step {
        piece: "abc",
        wrote: Wrote::Took(2),
        taken: "ab",
    },
    Step {
        piece: "c",
        wrote: Wrote::Took(1),
        taken: "abc",
    },
    Step {
        piece: "def",
        wrote: Wrote::Took(2),
        taken: "abcde",
    },
    Step {
        piece: "fg",
        wrote: Wrote::Failed,
        taken: "abcde",
    },
    Step {
        piece: "f",
        wrote: Wrote::Took(1),
        taken: "abcdef",
    },
    Step {
        piece: "g",
        wrote: Wrote::Failed,
        taken: "abcdef",
    },
];

fn has_taken(tape: &Tape, text: &str) -> bool {
    match tape.bytes.get().get(..tape.len.get()) {
        Some(bytes) => bytes == text.as_bytes(),
        None => false,
    }
}

fn goes_so(out: &mut impl Sink, tape: &Tape, step: &Step) -> bool {
    if step.piece.is_empty() {
        return false;
    }
    out.write(step.piece.as_bytes()) == step.wrote && has_taken(tape, step.taken)
}

/// How many of the steps go as they should, before the first that doesn't.
fn steps_that_go_so(out: &mut impl Sink, tape: &Tape) -> usize {
    for (number, step) in STEPS.iter().enumerate() {
        if !goes_so(out, tape, step) {
            return number;
        }
    }
    STEPS.len()
}

#[test]
fn the_sink_tells_how_much_the_output_took(rt: HostRuntime) {
    let tape = Tape {
        bytes: Cell::new([0; 6]),
        len: Cell::new(0),
    };
    let good = steps_that_go_so(&mut StdSink::new(&tape), &tape);
    assert_eq!(rt; good, STEPS.len(), "the first steps that went well");
}

/// Whether each piece is taken whole.
fn are_taken(out: &mut impl Sink, pieces: &[&str]) -> bool {
    for piece in pieces {
        if piece.is_empty() || out.write(piece.as_bytes()) != Wrote::Took(piece.len()) {
            return false;
        }
    }
    true
}

#[test]
fn the_real_output_takes_one_piece_after_another(rt: HostRuntime) {
    let good = are_taken(&mut StdSink::new(&rt), &["ab", "cde", "f"]);
    assert!(rt; good);
}
