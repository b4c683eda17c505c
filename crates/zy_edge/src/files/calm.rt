ghost use Rattle.std.specs.Prelude.{◌≡◌, Some, None, is_some};

use super::stored::Stored;
use super::{Chosen, Files, Read};
use std::alloc::Global;
use std::marker::Model;
use zy_base::Bytes;

/// Files in memory that never fail. A name that isn't there is an empty file.
#[derive(Debug, Drop)]
pub struct CalmFiles {
    stored: Stored,
}

impl Model for CalmFiles {
    ghost use Rattle.zy_edge.specs.Memory.{Shelf};

    ghost Value = { Shelf };

    ghost view = { λ c. c.stored };
}

impl CalmFiles {
    pub fn new(_alloc: Global, files: Vec<(Bytes, Bytes)>) -> CalmFiles
        ensures { result ≡ record { held = files.items; rest = None } }
    {
        CalmFiles {
            stored: Stored::new(files),
        }
    }
}

impl Files for CalmFiles {
    ghost faults = { λ _. 0 };

    ghost held = { λ c. Some c.held };

    ghost rest = { λ c. c.rest };

    ghost is_chosen = { λ c. is_some c.rest };

    fn select(&mut self, name: &str) -> Chosen {
        self.stored.select(name);
        Chosen::Chosen
    }

    fn read(&mut self, buf: &mut [u8]) -> Read {
        match self.stored.read(buf) {
            0 => Read::End,
            len => Read::Got(len),
        }
    }
}
