ghost use Rattle.std.specs.Prelude.{◌≡◌, ◌<◌, ◌≤◌, Some, None, IsSome, IfSome, is_some, List, length, min, take, drop, nat_eq};
ghost use Rattle.std.specs.Cmp.Lexicographic.{pointwise};
ghost use Rattle.std.specs.List.{position};
ghost use Rattle.zy_edge.specs.Files.{file_named, content_of};
ghost use Rattle.zy_edge.specs.Stored.{content_at};

use std::marker::Model;
use zy_base::Bytes;

/// Files in memory, and how far the chosen one was read.
#[derive(Debug, Drop)]
pub(crate) struct Stored {
    files: Vec<(Bytes, Bytes)>,
    /// A number past the last file stands for an empty one.
    chosen: Option<usize>,
    at: usize,
}

impl Model for Stored {
    ghost use Rattle.std.specs.Prelude.{◌≤◌, length};
    ghost use Rattle.zy_edge.specs.Memory.{Shelf};
    ghost use Rattle.zy_edge.specs.Stored.{content_at, rest_at};

    ghost Value = { Shelf };

    ghost view = { λ s. record { held = s.files.items; rest = rest_at s.files.items s.chosen s.at } };

    ghost invariant = { λ s. s.at ≤ length (content_at s.files.items s.chosen) };
}

impl Stored {
    pub(crate) fn new(files: Vec<(Bytes, Bytes)>) -> Stored
        ensures { result ≡ record { held = files.items; rest = None } }
    {
        Stored {
            files,
            chosen: None,
            at: 0,
        }
    }

    /// Whether some file has the name.
    #[tactic(auto, using(crate::proofs::FirstNamed::first_named))]
    pub(crate) fn has_file(&self, name: &str) -> bool
        ensures { result ≡ is_some (file_named self.now.held name.now) }
    {
        first_named(&self.files, name.as_bytes()).is_some()
    }

    /// Puts the first byte of the first file with this name next. A name that isn't there is an empty file.
    #[tactic(auto, using(crate::proofs::FirstNamed::first_named))]
    pub(crate) fn select(&mut self, name: &str)
        ensures { self.new ≡ record self.old { rest = Some (content_of self.old.held name.now) } }
    {
        let number = first_named(&self.files, name.as_bytes());
        self.chosen = Some(number.unwrap_or(self.files.len()));
        self.at = 0;
    }

    /// Reads as many bytes as there are and fit.
    pub(crate) fn read(&mut self, buf: &mut [u8]) -> usize
        requires { IsSome self.old.rest }
        ensures held { self.new.held ≡ self.old.held }
        ensures bytes { IfSome self.old.rest (λ rest. (result ≡ min (length buf.old) (length rest))
            × (take result buf.new ≡ take result rest) × (self.new.rest ≡ Some (drop result rest))) }
    {
        let Some(chosen) = self.chosen else {
            unreachable!()
        };
        let left = &content_at(&self.files, chosen)[self.at..];
        let len = left.len().min(buf.len());
        buf[..len].copy_from_slice(&left[..len]);
        self.at += len;
        len
    }
}

/// The bytes of the file with this number, or none past the last.
fn content_at(files: &[(Bytes, Bytes)], number: usize) -> &[u8]
    ensures { result.now ≡ content_at files.now (Some number) }
{
    match files.get(number) {
        Some((_, content)) => content.as_slice(),
        None => &[],
    }
}

/// The number of the first file with the name.
fn first_named(files: &[(Bytes, Bytes)], name: &[u8]) -> Option<usize>
    ensures { result ≡ position (λ file. pointwise nat_eq file.0 name.now) files.now }
{
    files.iter().position(|file| file.0.as_slice() == name)
}
