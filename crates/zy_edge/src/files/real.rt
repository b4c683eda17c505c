ghost use Rattle.std.specs.Prelude.{◌≡◌, None, false, is_some};

use super::{Chosen, Files, Read};
use crate::faults::raised;
use std::{fs, io};

/// The files of the system. It tells nothing of contents.
#[derive(Drop)]
pub struct RealFiles<'a, R: std::rt::Files> {
    rt: &'a R,
    file: Option<R::File>,
    faults: u64,
}

impl<'a, R: std::rt::Files> RealFiles<'a, R> {
    /// No file is chosen yet.
    pub fn new(rt: &'a R) -> RealFiles<'a, R>
        ensures faults { ⟦<RealFiles<'a, R> as Files>⟧.faults result ≡ 0 }
        ensures none { ⟦<RealFiles<'a, R> as Files>⟧.is_chosen result ≡ false }
    {
        RealFiles {
            rt,
            file: None,
            faults: 0,
        }
    }
}

impl<R: std::rt::Files> Files for RealFiles<'_, R> {
    ghost faults = { λ f. f.faults };

    ghost held = { λ _. None };

    ghost rest = { λ _. None };

    ghost is_chosen = { λ f. is_some f.file };

    fn select(&mut self, name: &str) -> Chosen {
        match fs::open(self.rt, name) {
            Ok(file) => {
                self.file = Some(file);
                Chosen::Chosen
            }
            Err(_) => {
                self.faults = raised(self.faults);
                Chosen::Failed
            }
        }
    }

    fn read(&mut self, buf: &mut [u8]) -> Read {
        let Some(file) = &mut self.file else {
            unreachable!()
        };
        match io::Read::read(file, buf) {
            Ok(0) => Read::End,
            Ok(len) => Read::Got(len),
            Err(_) => {
                self.faults = raised(self.faults);
                Read::Failed
            }
        }
    }
}
