ghost use Rattle.std.specs.Prelude.{◌≡◌, ◌<◌, ℕ, Bool, IsTrue, Option, List, length, if◌then◌else◌, true};
ghost use Rattle.zy_edge.specs.Faults.{IsCounted};
ghost use Rattle.zy_edge.specs.Files.{Held, IsSelected, IsRead, select_failed, read_failed};

pub(crate) mod calm;
pub(crate) mod memory;
pub(crate) mod real;
pub(crate) mod stored;

/// What a `select` did.
#[derive(Clone, Copy, Debug, PartialEq, Eq)]
pub enum Chosen {
    /// The named file is the one that is read, from its first byte.
    Chosen,
    Failed,
}

/// What a `read` did.
#[derive(Clone, Copy, Debug, PartialEq, Eq)]
pub enum Read {
    /// So many bytes stand at the front of the buffer: from 1 to its length.
    Got(usize),
    /// No byte is left.
    End,
    Failed,
}

/// Files that are read one after another, each from its first byte.
pub trait Files {
    /// How often a call has failed: a number that never falls, and stays at 2^64 - 1.
    ghost faults: { Self → ℕ };

    /// The names and contents, where they are told. No call changes them.
    ghost held: { Self → Option Held };

    /// The bytes of the chosen file that are left to be read, where they are told.
    ghost rest: { Self → Option (List ℕ) };

    /// Whether a file was chosen.
    ghost is_chosen: { Self → Bool };

    /// Chooses the file with this name. After `Failed` the file from before, if any, is read on.
    fn select(&mut self, name: &str) -> Chosen
        ensures held { held self.new ≡ held self.old }
        ensures chosen { IsSelected result (held self.old) name.now (rest self.old) (rest self.new) }
        ensures readable { is_chosen self.new ≡ (if select_failed result then is_chosen self.old else true) }
        ensures count { IsCounted (select_failed result) (faults self.old) (faults self.new) };

    /// Reads the next bytes of the chosen file into the front of the buffer.
    fn read(&mut self, buf: &mut [u8]) -> Read
        requires readable { IsTrue (is_chosen self.old) }
        requires room { 0 < length buf.old }
        ensures held { held self.new ≡ held self.old }
        ensures bytes { IsRead result buf.new (rest self.old) (rest self.new) }
        ensures readable { IsTrue (is_chosen self.new) }
        ensures count { IsCounted (read_failed result) (faults self.old) (faults self.new) };
}
