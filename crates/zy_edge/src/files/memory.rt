ghost use Rattle.std.specs.Prelude.{◌≡◌, ◌<◌, ℕ, IsTrue, Some, None, is_some, length, [], min, take, drop, if◌then◌else◌, true};
ghost use Rattle.zy_edge.specs.Faults.{IsCounted};
ghost use Rattle.zy_edge.specs.Files.{IsSelected, IsRead, select_failed, read_failed};
ghost use Rattle.zy_edge.specs.Memory.{next_is_listed, select_fails, counted};

use super::stored::Stored;
use super::{Chosen, Files, Read};
use crate::calls::Calls;
use std::alloc::Global;
use std::marker::Model;
use zy_base::Bytes;

/// Files in memory, of which chosen calls fail. A call fails exactly where its number is listed, or where it is a
/// `select` of a name that isn't there. Of several files with one name the first counts.
#[derive(Debug, Drop)]
pub struct MemFiles {
    stored: Stored,
    calls: Calls,
}

impl Model for MemFiles {
    ghost use Rattle.zy_edge.specs.Memory.{MemoryFiles};

    ghost Value = { MemoryFiles };

    ghost view = { λ m. record { held = m.stored.held; rest = m.stored.rest; calls = m.calls } };
}

impl MemFiles {
    /// Takes names with contents, and the numbers of the calls that are to fail. Calls are numbered from 1, and the
    /// number stays at 2^64 - 1.
    pub fn new(_alloc: Global, files: Vec<(Bytes, Bytes)>, failing: Vec<u64>) -> MemFiles
        ensures { result ≡ record {
          held = files.items;
          rest = None;
          calls = record { failing = failing.items; made = 0; faults = 0 };
        } }
    {
        MemFiles {
            stored: Stored::new(files),
            calls: Calls::new(failing),
        }
    }
}

impl Files for MemFiles {
    ghost faults = { λ m. m.calls.faults };

    ghost held = { λ m. Some m.held };

    ghost rest = { λ m. m.rest };

    ghost is_chosen = { λ m. is_some m.rest };

    fn select(&mut self, name: &str) -> Chosen
        ensures exactly { select_failed result ≡ select_fails self.old name.now }
        ensures calls { self.new.calls ≡ counted (select_failed result) self.old.calls }
        ensures held { Some self.new.held ≡ Some self.old.held }
        ensures chosen { IsSelected result (Some self.old.held) name.now self.old.rest self.new.rest }
        ensures readable { is_some self.new.rest ≡ (if select_failed result then is_some self.old.rest else true) }
        ensures count { IsCounted (select_failed result) self.old.calls.faults self.new.calls.faults }
    {
        let failed = self.calls.next_is_listed() || !self.stored.has_file(name);
        self.calls.count(failed);
        if failed {
            return Chosen::Failed;
        }
        self.stored.select(name);
        Chosen::Chosen
    }

    fn read(&mut self, buf: &mut [u8]) -> Read
        requires readable { IsTrue (is_some self.old.rest) }
        requires room { 0 < length buf.old }
        ensures exactly { read_failed result ≡ next_is_listed self.old.calls }
        ensures calls { self.new.calls ≡ counted (read_failed result) self.old.calls }
        ensures held { Some self.new.held ≡ Some self.old.held }
        ensures bytes { IsRead result buf.new self.old.rest self.new.rest }
        ensures readable { IsTrue (is_some self.new.rest) }
        ensures count { IsCounted (read_failed result) self.old.calls.faults self.new.calls.faults }
    {
        let failed = self.calls.next_is_listed();
        self.calls.count(failed);
        if failed {
            return Read::Failed;
        }
        match self.stored.read(buf) {
            0 => Read::End,
            len => Read::Got(len),
        }
    }
}
