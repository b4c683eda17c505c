ghost use Rattle.std.specs.Prelude.{◌≡◌, ◌+◌, ◌++◌, ◌∷◌, [], ◌↔◌, IsTrue, IfSome, IfOk, OnOk, ℕ, List, length};
ghost use Rattle.std.specs.Int.{w32, to_be_bytes};
ghost use Rattle.zy_base.specs.declared.ids.Digest.{Digest};
ghost use Rattle.zy_edge.specs.Faults.{IsCounted};
ghost use Rattle.zy_journal.specs.Disk.{LeavesOnly, StaysTold};
ghost use Rattle.zy_journal.specs.Journal.{IsPiece, IsAtEnd, IsFull, Has, HasOrNot, HandsBack, StandsFor, is_full_answer, append_failed};

use crate::put::put_behind;
use crate::{Did, Disk};
use std::alloc::Global;
use std::marker::Model;
use zy_base::{Bytes, Want};

/// The most bytes that a record may have: one, and twice as many as a frame may have.
pub const MAX_PIECE: usize = 8_388_609;

/// No gate stands above this place.
const MAX_GATE: u64 = 1 << 30;

/// A journal that was read to its end. Contracts see the place of the gate that ends it.
#[derive(Debug, Drop)]
pub struct Journal {
    gate: u64,
}

impl Model for Journal {
    ghost use Rattle.std.specs.Prelude.{ℕ};

    ghost Value = { ℕ };

    ghost view = { λ j. j.gate };
}

/// Why a record was not stored.
#[derive(Debug, Drop)]
pub enum AppendFault {
    /// The disk failed. The journal is opened again.
    Disk,
    /// The next gate would stand above 2^30.
    Full(Journal),
    /// Want of memory.
    Want(Journal),
}

impl Journal {
    pub(crate) fn at(gate: u64) -> Journal
        ensures { result ≡ gate }
    {
        Journal { gate }
    }

    /// Stores a record behind the others. After `Full` and `Want` nothing was done.
    pub fn append<D: Disk>(
        self,
        alloc: Global,
        disk: &mut D,
        piece: &[u8],
    ) -> Result<Journal, AppendFault>
        requires end { IsAtEnd (D.contents disk.old) (D.may_leave disk.old) self }
        requires piece { IsPiece piece.now }
        // The journal ends at the next gate, and the record stands behind the others.
        ensures next { IfOk result (λ journal. journal ≡ self + 5 + length piece.now) }
        ensures end { IfOk result (λ journal. IsAtEnd (D.contents disk.new) (D.may_leave disk.new) journal) }
        ensures has { OnOk result (IfSome (D.contents disk.old) (λ file. IfSome (D.contents disk.new) (Has file piece.now))) }
        // A crash at any moment leaves the records from before, with this one behind them or without it.
        ensures any_moment { IfSome (D.contents disk.old) (λ file. LeavesOnly D.moment D.left_since disk.old disk.new (HasOrNot file piece.now)) }
        ensures full { IsTrue (is_full_answer result) ↔ IsFull self piece.now }
        ensures same { HandsBack result self disk.old disk.new }
        ensures told { StaysTold (D.contents disk.old) (D.contents disk.new) }
        ensures count { IsCounted (append_failed result) (D.faults disk.old) (D.faults disk.new) }
    {
        let gate = self.gate;
        if is_full(gate, piece) {
            return Err(AppendFault::Full(self));
        }
        let Ok(block) = behind_gate(alloc, piece) else {
            return Err(AppendFault::Want(self));
        };
        match put_behind(disk, gate, block.as_slice()) {
            Did::Did => Ok(Journal {
                gate: gate + 5 + piece.len() as u64,
            }),
            Did::Failed => Err(AppendFault::Disk),
        }
    }
}

/// Whether the gate behind the record would stand too high.
fn is_full(gate: u64, piece: &[u8]) -> bool
    requires { IsPiece piece.now }
    ensures { IsTrue result ↔ IsFull gate piece.now }
{
    gate > MAX_GATE || MAX_GATE - gate < 5 + piece.len() as u64
}

/// What stands behind a record's gate: the length, the record and a gate that is shut.
fn behind_gate(alloc: Global, piece: &[u8]) -> Result<Bytes, Want>
    requires { IsPiece piece.now }
    ensures { IfOk result (λ block. block ≡ to_be_bytes w32 (length piece.now) ++ (piece.now ++ 0 ∷ [])) }
{
    let len = piece.len() as u32;
    let mut block = Vec::with_capacity(alloc, 4 + piece.len() + 1)?;
    block.extend_from_slice(&len.to_be_bytes())?;
    block.extend_from_slice(piece)?;
    block.push(0)?;
    Ok(Bytes::from(block))
}

/// What a file's bytes stand for is one list of records.
pub fn one_list()
    ensures { (identity : Digest) (image : List ℕ) (first second : List (List ℕ)) → StandsFor identity image first → StandsFor identity image second → first ≡ second }
{}
