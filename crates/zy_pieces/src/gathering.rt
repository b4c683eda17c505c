ghost use Rattle.std.specs.Prelude.{◌≡◌, ◌<◌, None, false, replicate, IsTrue, length, OnOk, OnErr, IfOk};
ghost use Rattle.std.specs.List.{flat_map};
ghost use Rattle.std.specs.Option.{unwrap_or};
ghost use Rattle.zy_pieces.specs.Gathering.{is_of, is_there, is_whole, with_piece, nothing_of, begun, joined};
ghost use Rattle.zy_pieces.specs.Pieces.{IsPiece};

use crate::piece::{MAX_PAYLOAD, Piece};
use std::alloc::Global;
use std::marker::Model;
use zy_base::{Bytes, Digest, Want};

/// A frame that is being gathered: the bytes of each piece that has come, and how many are missing.
#[derive(Debug, Drop)]
pub(crate) struct Gathering {
    digest: Digest,
    slots: Vec<Option<Bytes>>,
    missing: usize,
}

impl Model for Gathering {
    ghost use Rattle.std.specs.Prelude.{◌≡◌, is_none, count_by};
    ghost use Rattle.zy_pieces.specs.Gathering.{Gathering};

    ghost Value = { Gathering };

    ghost view = { λ g. record { digest = g.digest; slots = g.slots.items } };

    ghost invariant = { λ g. g.missing ≡ count_by is_none g.slots.items };
}

impl Gathering {
    /// A frame with its first piece.
    pub(crate) fn begin(alloc: Global, piece: &Piece<'_>) -> Result<Gathering, Want>
        requires { IsPiece piece.now }
        ensures { IfOk result (λ g. g ≡ begun piece.now) }
    {
        let mut gathering = Gathering::nothing_of(alloc, piece)?;
        gathering.keep(piece)?;
        Ok(gathering)
    }

    // The piece's frame, of which none has come.
    #[tactic(auto, using(crate::proofs::SlotLemmas::all_missing))]
    fn nothing_of(alloc: Global, piece: &Piece<'_>) -> Result<Gathering, Want>
        ensures { IfOk result (λ g. g ≡ nothing_of piece.now) }
    {
        let count = piece.count as usize;
        Ok(Gathering {
            digest: piece.digest,
            slots: empty_slots(alloc, count)?,
            missing: count,
        })
    }

    pub(crate) fn is_of(&self, piece: &Piece<'_>) -> bool
        ensures { result ≡ is_of piece.now self.now }
    {
        piece.digest == self.digest && piece.count as usize == self.slots.len()
    }

    pub(crate) fn is_there(&self, piece: &Piece<'_>) -> bool
        ensures { result ≡ is_there piece.now self.now }
    {
        match self.slots.get(piece.index as usize) {
            Some(slot) => slot.is_some(),
            None => false,
        }
    }

    /// Whether the piece, which isn't there, is the last that is missing.
    #[tactic(auto, using(crate::proofs::SlotLemmas::whole_with))]
    pub(crate) fn lacks_only(&self, piece: &Piece<'_>) -> bool
        requires inside { piece.now.index < length self.now.slots }
        requires new { is_there piece.now self.now ≡ false }
        ensures { result ≡ is_whole (with_piece piece.now self.now).slots }
    {
        self.missing == 1
    }

    /// Keeps a copy of a piece that isn't there.
    #[tactic(auto, using(crate::proofs::SlotLemmas::one_less))]
    pub(crate) fn keep(&mut self, piece: &Piece<'_>) -> Result<(), Want>
        requires inside { piece.now.index < length self.old.slots }
        requires new { is_there piece.now self.old ≡ false }
        ensures ok { OnOk result (self.new ≡ with_piece piece.now self.old) }
        ensures err { OnErr result (self.new ≡ self.old) }
    {
        let payload = Bytes::from_slice(*self.slots.allocator(), piece.payload)?;
        self.slots[piece.index as usize] = Some(payload);
        self.missing -= 1;
        Ok(())
    }

    /// The frame's bytes, where the piece is the last that is missing.
    #[tactic(auto, using(crate::proofs::SlotLemmas::joined_with))]
    pub(crate) fn join(&self, last: &Piece<'_>) -> Result<Bytes, Want>
        requires inside { last.now.index < length self.now.slots }
        requires new { is_there last.now self.now ≡ false }
        requires whole { IsTrue (is_whole (with_piece last.now self.now).slots) }
        ensures { IfOk result (λ frame. frame ≡ joined (with_piece last.now self.now).slots) }
    {
        join(*self.slots.allocator(), &self.slots, last)
    }
}

#[tactic(auto, using(crate::proofs::SlotLemmas::one_empty_more))]
fn empty_slots(alloc: Global, count: usize) -> Result<Vec<Option<Bytes>>, Want>
    ensures { IfOk result (λ slots. slots.items ≡ replicate count None) }
{
    let mut slots = Vec::with_capacity(alloc, count)?;
    for _ in 0..count {
        slots.push(None)?;
    }
    Ok(slots)
}

// The bytes in the slots in order, and those of the last piece where none are.
fn join(alloc: Global, slots: &[Option<Bytes>], last: &Piece<'_>) -> Result<Bytes, Want>
    ensures { IfOk result (λ frame. frame ≡ flat_map (λ slot. unwrap_or slot last.now.payload) slots.now) }
{
    let mut frame = Vec::with_capacity(alloc, last.count as usize * MAX_PAYLOAD)?;
    for slot in slots {
        let payload = match slot {
            Some(payload) => payload.as_slice(),
            None => last.payload,
        };
        frame.extend_from_slice(payload)?;
    }
    Ok(Bytes::from(frame))
}
