ghost use Rattle.std.specs.Prelude.{◌≡◌, None};

use super::{Sink, Wrote};
use crate::faults::raised;
use std::io;
use std::io::Write;

/// Standard output. It tells nothing of contents.
#[derive(Drop)]
pub struct StdSink<'a, R: Print> {
    rt: &'a R,
    faults: u64,
}

impl<'a, R: Print> StdSink<'a, R> {
    pub fn new(rt: &'a R) -> StdSink<'a, R>
        ensures { ⟦<StdSink<'a, R> as Sink>⟧.faults result ≡ 0 }
    {
        StdSink { rt, faults: 0 }
    }
}

impl<R: Print> Sink for StdSink<'_, R> {
    ghost faults = { λ s. s.faults };

    ghost taken = { λ _. None };

    fn write(&mut self, piece: &[u8]) -> Wrote {
        match io::writer(self.rt).write(piece) {
            Ok(0) | Err(_) => {
                self.faults = raised(self.faults);
                Wrote::Failed
            }
            Ok(len) => Wrote::Took(len),
        }
    }
}
