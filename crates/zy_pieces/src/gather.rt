ghost use Rattle.std.specs.Prelude.{◌≡◌, ◌<◌, [], length, Some, OnOk, OnErr, IfOk};
ghost use Rattle.std.specs.List.{position};
ghost use Rattle.std.specs.Option.{unwrap_or};
ghost use Rattle.zy_pieces.specs.Gathering.{added, begin, is_of, judged, placed};
ghost use Rattle.zy_pieces.specs.Pieces.{IsPiece};

use crate::gathering::Gathering;
use crate::piece::{Piece, PieceFault};
use sha2::{Digest as Hasher, Sha256};
use std::alloc::Global;
use std::marker::Model;
use zy_base::{Bytes, Digest, Want};

/// What a datagram came to.
#[derive(Debug, Drop, PartialEq, Eq)]
pub enum Gathered {
    /// The frame of which it was the last missing piece.
    Whole(Bytes),
    /// Pieces of its frame are missing still, or it was there already.
    Part,
    Refused(PieceFault),
}

const MAX_FRAMES: usize = 16;

/// The frames of which some pieces have come, at most sixteen.
#[derive(Debug, Drop)]
pub struct Gather {
    frames: Vec<Gathering>,
}

impl Model for Gather {
    ghost use Rattle.std.specs.Prelude.{◌≤◌, List, length};
    ghost use Rattle.zy_pieces.specs.Gathering.{Gathering};

    ghost Value = { List Gathering };

    ghost view = { λ g. g.frames.items };

    ghost invariant = { λ g. length g.frames.items ≤ 16 };
}

impl Gather {
    /// No frames. Takes no memory.
    pub fn new(alloc: Global) -> Gather
        ensures { result ≡ [] }
    {
        Gather {
            frames: Vec::new(alloc),
        }
    }

    /// Takes one datagram, which may be any bytes. After `Want` all is as before.
    pub fn add(&mut self, datagram: &[u8]) -> Result<Gathered, Want>
        ensures ok { IfOk result (λ answer. added self.old datagram.now ≡ record { frames = self.new; answer = answer }) }
        ensures err { OnErr result (self.new ≡ self.old) }
    {
        let alloc = *self.frames.allocator();
        let piece = match Piece::read(datagram) {
            Ok(piece) => piece,
            Err(fault) => return Ok(Gathered::Refused(fault)),
        };
        if piece.count == 1 {
            return Ok(judge(&piece.digest, Bytes::from_slice(alloc, piece.payload)?));
        }
        self.place(&piece)
    }

    // Takes a piece of several.
    #[tactic(auto, using(crate::proofs::PlaceLemmas::placed_nowhere))]
    fn place(&mut self, piece: &Piece<'_>) -> Result<Gathered, Want>
        requires { IsPiece piece.now }
        ensures ok { IfOk result (λ answer. unwrap_or (placed piece.now self.old) (begin piece.now self.old) ≡ record { frames = self.new; answer = answer }) }
        ensures err { OnErr result (self.new ≡ self.old) }
    {
        match place_of(&self.frames, piece) {
            Some(at) => self.settle(at, piece),
            None => {
                self.begin(piece)?;
                Ok(Gathered::Part)
            }
        }
    }

    // The frame at this place gets its piece.
    #[tactic(auto, using(crate::proofs::PlaceLemmas::stays, crate::proofs::PlaceLemmas::takes, crate::proofs::PlaceLemmas::leaves, crate::proofs::PlaceLemmas::inside_own))]
    fn settle(&mut self, at: usize, piece: &Piece<'_>) -> Result<Gathered, Want>
        requires in_range { IsPiece piece.now }
        requires own { position (is_of piece.now) self.old ≡ Some at }
        ensures ok { IfOk result (λ answer. placed piece.now self.old ≡ Some (record { frames = self.new; answer = answer })) }
        ensures err { OnErr result (self.new ≡ self.old) }
    {
        let frame = &self.frames[at];
        if frame.is_there(piece) {
            return Ok(Gathered::Part);
        }
        if frame.lacks_only(piece) {
            let whole = frame.join(piece)?;
            self.frames.remove(at);
            return Ok(judge(&piece.digest, whole));
        }
        self.frames[at].keep(piece)?;
        Ok(Gathered::Part)
    }

    // A frame begins with the piece.
    #[tactic(auto, using(crate::proofs::PlaceLemmas::first_dropped))]
    fn begin(&mut self, piece: &Piece<'_>) -> Result<(), Want>
        requires { IsPiece piece.now }
        ensures ok { OnOk result (self.new ≡ (begin piece.now self.old).frames) }
        ensures err { OnErr result (self.new ≡ self.old) }
    {
        let gathering = Gathering::begin(*self.frames.allocator(), piece)?;
        self.frames.push(gathering)?;
        if self.frames.len() > MAX_FRAMES {
            self.frames.remove(0);
        }
        Ok(())
    }
}

// The place of the piece's frame.
fn place_of(frames: &[Gathering], piece: &Piece<'_>) -> Option<usize>
    ensures { result ≡ position (is_of piece.now) frames.now }
{
    frames.iter().position(|frame| frame.is_of(piece))
}

// Whether the frame has the digest that its pieces name.
fn judge(digest: &Digest, frame: Bytes) -> Gathered
    ensures { result ≡ judged digest.now frame }
{
    if Sha256::digest(frame.as_slice()) == digest.0 {
        Gathered::Whole(frame)
    } else {
        Gathered::Refused(PieceFault::Digest)
    }
}
