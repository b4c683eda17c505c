ghost use Rattle.std.specs.Prelude.{◌≡◌, false, ◌⊎◌, ◌+◌, ◌<◌, ◌≤◌, ◌∷◌, [], ◌↔◌, IsTrue, IfSome, IfOk, IfErr, OnOk, IsErrOf, length};
ghost use Rattle.zy_edge.specs.Faults.{IsCounted};
ghost use Rattle.zy_journal.specs.Disk.{Only, IsOnly, LeavesOnly, Rests, StaysTold, StandsAt};
ghost use Rattle.zy_journal.specs.Finding.{IsFound, HasRoom, IsReadFault, find_failed, piece_failed};
ghost use Rattle.zy_journal.specs.Journal.{IsAtGate, IsNext, IsPlaced, StandsAtGate, Keeps, Opens, opened, is_blank, open_failed, next_failed};
ghost use Rattle.zy_journal.specs.Starting.{IsBegun};

use crate::look::{byte_at, fill, number_at, size_of};
use crate::making::{Start, begin, shut_and_begin, start_of};
use crate::{Did, Disk, Filled, Journal, MAX_PIECE};
use std::alloc::Global;
use std::marker::Model;
use zy_base::{Bytes, Digest};

/// The gate behind the head.
const FIRST_GATE: u64 = 41;

/// A journal that is read. Contracts see the place of the gate at which it stands.
#[derive(Debug, Drop)]
pub struct Reading {
    gate: u64,
}

impl Model for Reading {
    ghost use Rattle.std.specs.Prelude.{ℕ};

    ghost Value = { ℕ };

    ghost view = { λ r. r.gate };
}

/// What stood at a gate.
#[derive(Debug, Drop)]
pub enum Next {
    /// A record, and the reading at the gate behind it.
    Record(Bytes, Reading),
    /// The end of the list.
    End(Journal),
}

/// Why nothing was read.
#[derive(Clone, Copy, Debug, PartialEq, Eq)]
pub enum NextFault {
    Disk,
    /// The gate at this place is open, and its length is out of range, or the next gate lies outside the file.
    Damaged(u64),
    /// Want of memory.
    Want,
}

/// Why a journal was not opened.
#[derive(Clone, Copy, Debug, PartialEq, Eq)]
pub enum OpenFault {
    Disk,
    /// The file is another's journal, or none.
    NotJournal,
}

/// What stands at a gate, before a record is read.
#[derive(Clone, Copy, Debug)]
enum Found {
    Failed,
    Shut,
    Damaged,
    /// A record of so many bytes, all in the file.
    Record(u32),
}

impl Reading {
    /// Opens the journal of this identity, and makes one where the file is blank. It takes no memory.
    pub fn open<D: Disk>(disk: &mut D, identity: &Digest) -> Result<Reading, OpenFault>
        ensures first { IfOk result (λ gate. gate ≡ 41) }
        ensures gate { IfOk result (IsAtGate (D.contents disk.new) (D.may_leave disk.new)) }
        ensures contents { OnOk result (IfSome (D.contents disk.old) (λ file. IsOnly (opened identity.now file) (D.contents disk.new) (D.may_leave disk.new))) }
        ensures exactly { IfSome (D.contents disk.old) (λ file. Opens identity.now file result) }
        // Where the first sync failed nothing was written. From that sync on a crash at any moment leaves the records.
        ensures any_moment { (IsErrOf result OpenFault.Disk × Rests D.contents D.may_leave D.moment D.left_since disk.old disk.new)
            ⊎ ((synced : D) × Rests D.contents D.may_leave D.moment D.left_since disk.old synced
            × IfSome (D.contents disk.old) (λ file. Only file (D.may_leave synced) × LeavesOnly D.moment D.left_since synced disk.new (Keeps identity.now file))) }
        // A file that isn't blank is not written, whatever it holds.
        ensures spared { IfSome (D.contents disk.old) (λ file. is_blank file ≡ false → Rests D.contents D.may_leave D.moment D.left_since disk.old disk.new) }
        ensures told { StaysTold (D.contents disk.old) (D.contents disk.new) }
        ensures count { IsCounted (open_failed result) (D.faults disk.old) (D.faults disk.new) }
    {
        match disk.sync() {
            Did::Did => settle(disk, identity),
            Did::Failed => Err(OpenFault::Disk),
        }
    }

    /// The place of the gate at which it stands.
    pub fn gate(&self) -> u64
        ensures { result ≡ self.now }
    {
        self.gate
    }

    /// Reads what stands at the gate. It writes nothing.
    pub fn next<D: Disk>(self, alloc: Global, disk: &mut D) -> Result<Next, NextFault>
        requires { IsAtGate (D.contents disk.old) (D.may_leave disk.old) self }
        ensures found { IfSome (D.contents disk.old) (λ file. IsNext file self result) }
        ensures place { IsPlaced self result }
        ensures gate { StandsAtGate (D.contents disk.new) (D.may_leave disk.new) result }
        ensures rests { Rests D.contents D.may_leave D.moment D.left_since disk.old disk.new }
        ensures count { IsCounted (next_failed result) (D.faults disk.old) (D.faults disk.new) }
    {
        let gate = self.gate;
        match find(disk, gate) {
            Found::Failed => Err(NextFault::Disk),
            Found::Shut => Ok(Next::End(Journal::at(gate))),
            Found::Damaged => Err(NextFault::Damaged(gate)),
            Found::Record(len) => match piece_at(alloc, disk, gate + 5, len) {
                Ok(piece) => Ok(Next::Record(
                    piece,
                    Reading {
                        gate: gate + 5 + u64::from(len),
                    },
                )),
                Err(fault) => Err(fault),
            },
        }
    }
}

/// Makes the journal where the file is blank.
fn settle<D: Disk>(disk: &mut D, identity: &Digest) -> Result<Reading, OpenFault>
    requires { IfSome (D.contents disk.old) (λ file. Only file (D.may_leave disk.old)) }
    ensures first { IfOk result (λ gate. gate ≡ 41) }
    ensures contents { OnOk result (IfSome (D.contents disk.old) (λ file. IsOnly (opened identity.now file) (D.contents disk.new) (D.may_leave disk.new))) }
    ensures exactly { IfSome (D.contents disk.old) (λ file. Opens identity.now file result) }
    ensures any_moment { IfSome (D.contents disk.old) (λ file. LeavesOnly D.moment D.left_since disk.old disk.new (Keeps identity.now file)) }
    ensures spared { IfSome (D.contents disk.old) (λ file. is_blank file ≡ false → Rests D.contents D.may_leave D.moment D.left_since disk.old disk.new) }
    ensures size { OnOk result (IfSome (D.contents disk.old) (λ _. length identity.now.0 ≡ 32)) }
    ensures told { StaysTold (D.contents disk.old) (D.contents disk.new) }
    ensures count { IsCounted (open_failed result) (D.faults disk.old) (D.faults disk.new) }
{
    match start_of(disk, identity) {
        Start::Failed => Err(OpenFault::Disk),
        Start::Mine => Ok(Reading { gate: FIRST_GATE }),
        Start::Other => Err(OpenFault::NotJournal),
        Start::Shut => begun(begin(disk, identity)),
        Start::Short => begun(shut_and_begin(disk, identity)),
    }
}

fn begun(did: Did) -> Result<Reading, OpenFault>
    ensures first { IfOk result (λ gate. gate ≡ 41) }
    ensures did { IsBegun did result }
{
    match did {
        Did::Did => Ok(Reading { gate: FIRST_GATE }),
        Did::Failed => Err(OpenFault::Disk),
    }
}

/// What stands at a gate.
fn find<D: Disk>(disk: &mut D, gate: u64) -> Found
    requires { IfSome (D.contents disk.old) (λ file. gate < length file) }
    ensures found { IfSome (D.contents disk.old) (λ file. IsFound file gate result) }
    ensures room { HasRoom gate result }
    ensures rests { Rests D.contents D.may_leave D.moment D.left_since disk.old disk.new }
    ensures count { IsCounted (find_failed result) (D.faults disk.old) (D.faults disk.new) }
{
    let Some(size) = size_of(disk) else {
        return Found::Failed;
    };
    let Some(byte) = byte_at(disk, gate) else {
        return Found::Failed;
    };
    if byte != 1 {
        return Found::Shut;
    }
    measure(disk, gate, size)
}

/// What stands behind a gate that is open, in a file of this size.
fn measure<D: Disk>(disk: &mut D, gate: u64, size: u64) -> Found
    requires file { IfSome (D.contents disk.old) (λ file. (size ≡ length file) × StandsAt (1 ∷ []) gate file) }
    requires image { IfSome (D.contents disk.old) (D.may_leave disk.old) }
    ensures found { IfSome (D.contents disk.old) (λ file. IsFound file gate result) }
    ensures room { HasRoom gate result }
    ensures rests { Rests D.contents D.may_leave D.moment D.left_since disk.old disk.new }
    ensures count { IsCounted (find_failed result) (D.faults disk.old) (D.faults disk.new) }
{
    let left = size.saturating_sub(gate);
    if left < 7 {
        return Found::Damaged;
    }
    let Some(len) = number_at(disk, gate + 1) else {
        return Found::Failed;
    };
    if is_record(len, left - 5) {
        Found::Record(len)
    } else {
        Found::Damaged
    }
}

/// Whether a record may have so many bytes, and a gate still stands behind it where so many are left.
fn is_record(len: u32, left: u64) -> bool
    ensures { IsTrue result ↔ (1 ≤ len) × (len ≤ 8388609) × (len < left) }
{
    1 <= len && len as usize <= MAX_PIECE && u64::from(len) < left
}

/// The record of so many bytes that stands there.
fn piece_at<D: Disk>(alloc: Global, disk: &mut D, at: u64, len: u32) -> Result<Bytes, NextFault>
    requires inside { IfSome (D.contents disk.old) (λ file. at + len ≤ length file) }
    requires image { IfSome (D.contents disk.old) (D.may_leave disk.old) }
    ensures len { IfOk result (λ piece. length piece ≡ len) }
    ensures piece { IfOk result (λ piece. IfSome (D.contents disk.old) (λ file. StandsAt piece at file)) }
    ensures faults { IfErr result IsReadFault }
    ensures rests { Rests D.contents D.may_leave D.moment D.left_since disk.old disk.new }
    ensures count { IsCounted (piece_failed result) (D.faults disk.old) (D.faults disk.new) }
{
    let Ok(mut piece) = vec![in alloc; 0u8; len as usize] else {
        return Err(NextFault::Want);
    };
    match fill(disk, at, &mut piece) {
        Filled::Filled => Ok(Bytes::from(piece)),
        Filled::Failed => Err(NextFault::Disk),
    }
}
