ghost use Rattle.std.specs.Prelude.{◌≡◌, ◌+◌, ◌≤◌, ◌^◌, ◌∷◌, ◌++◌, [], Some, IfOk, length, vec_capacity};
ghost use Rattle.zy_edge.specs.Faults.{IsCounted};
ghost use Rattle.zy_journal.specs.Disk.{with_bytes, Torn, Follows, Narrows, Only, Elapses, StaysTold, IsWritten, IsSize, IsFilled, OnDid, did_failed, size_failed, fill_failed};
ghost use Rattle.zy_journal.specs.Memory.{contents_of, left_by, left_from, left_now, only_left, AreInside, disk_fails, write_fails, after_call, after_write, after_sync};

use super::{Did, Disk, Filled, Size};
use std::alloc::Global;
use std::marker::Model;
use zy_base::{Bytes, Want};
use zy_edge::Calls;

/// A call that changed what a crash may leave.
#[derive(Clone, Copy, Debug)]
pub(crate) enum Kept {
    /// So many bytes were written at this place.
    Wrote(usize, usize),
    Synced,
}

/// One file in memory, of which chosen calls fail, and all after so many. It tells what a crash may leave at each
/// moment. A call that fails changes nothing.
#[derive(Debug, Drop)]
pub struct MemDisk {
    first: Bytes,
    file: Vec<u8>,
    /// The bytes of all writes, behind each other.
    written: Vec<u8>,
    past: Vec<Kept>,
    left: usize,
    turns: usize,
    calls: Calls,
}

impl Model for MemDisk {
    ghost use Rattle.std.specs.Prelude.{◌≡◌, ◌+◌, ◌≤◌, length, reverse, vec_capacity};
    ghost use Rattle.zy_journal.specs.Memory.{MemoryDisk, now_of, calls_of, AreInside};

    ghost Value = { MemoryDisk };

    ghost view = { λ m. record {
      first = m.first;
      past = calls_of (reverse m.past.items) m.written.items;
      left = m.left;
      turns = m.turns;
      calls = m.calls;
    } };

    ghost invariant = { λ m.
        (m.file.items ≡ now_of m.first (calls_of (reverse m.past.items) m.written.items))
        × AreInside m.first (calls_of (reverse m.past.items) m.written.items)
        × (length m.written.items + m.left ≤ vec_capacity m.written)
        × (length m.file.items + m.left ≤ vec_capacity m.file)
        × (length m.past.items + m.turns ≤ vec_capacity m.past) };
}

impl MemDisk {
    /// The file is the image, all of it on the disk. It takes room for so many bytes that are written and for so many
    /// calls at once. The listed calls fail, all calls after so many, and a write that doesn't fit the room that is
    /// left. Calls are numbered from 1.
    pub fn new(
        alloc: Global,
        image: Bytes,
        room: u64,
        calls: u64,
        failing: Vec<u64>,
    ) -> Result<MemDisk, Want>
        requires room { room ≤ 2 ^ 30 }
        requires calls { calls ≤ 2 ^ 20 }
        ensures { IfOk result (λ disk. disk ≡ record {
          first = image;
          past = [];
          left = room;
          turns = calls;
          calls = record { failing = failing.items; made = 0; faults = 0 };
        }) }
    {
        let (left, turns) = (room as usize, calls as usize);
        let (file, written, past) = rooms(alloc, image.as_slice(), left, turns)?;
        Ok(MemDisk {
            first: image,
            file,
            written,
            past,
            left,
            turns,
            calls: Calls::new(failing),
        })
    }

    /// What a read gives.
    pub fn contents(&self) -> &[u8]
        ensures { result.now ≡ contents_of self.now }
    {
        &self.file
    }

    /// Whether the next call is to fail.
    fn fails(&self) -> bool
        ensures { result ≡ disk_fails self.now }
    {
        self.turns == 0 || self.calls.next_is_listed()
    }

    /// Counts a call that changes nothing.
    fn count(&mut self, failed: bool)
        ensures after { self.new ≡ after_call failed self.old }
        ensures inside { AreInside self.new.first self.new.past }
        ensures count { IsCounted failed self.old.calls.faults self.new.calls.faults }
    {
        self.turns = self.turns.saturating_sub(1);
        self.calls.count(failed);
    }

    /// Writes, and keeps the call.
    #[tactic(auto, using(crate::proofs::Past::kept_write))]
    fn write(&mut self, at: usize, bytes: &[u8]) -> Did
        requires { at ≤ length (contents_of self.old) }
        ensures exactly { did_failed result ≡ write_fails self.old bytes.now }
        ensures after { self.new ≡ after_write result at bytes.now self.old }
        ensures inside { AreInside self.new.first self.new.past }
        ensures count { IsCounted (did_failed result) self.old.calls.faults self.new.calls.faults }
    {
        if self.fails() || self.left < bytes.len() {
            self.count(true);
            return Did::Failed;
        }
        overwrite(&mut self.file, at, bytes);
        keep(&mut self.past, Kept::Wrote(at, bytes.len()));
        append(&mut self.written, bytes);
        self.left -= bytes.len();
        self.turns -= 1;
        self.calls.count(false);
        Did::Did
    }

    /// Keeps a sync.
    #[tactic(auto, using(crate::proofs::Past::kept_sync))]
    fn settle(&mut self) -> Did
        ensures exactly { did_failed result ≡ disk_fails self.old }
        ensures after { self.new ≡ after_sync result self.old }
        ensures inside { AreInside self.new.first self.new.past }
        ensures count { IsCounted (did_failed result) self.old.calls.faults self.new.calls.faults }
    {
        if self.fails() {
            self.count(true);
            return Did::Failed;
        }
        keep(&mut self.past, Kept::Synced);
        self.turns -= 1;
        self.calls.count(false);
        Did::Did
    }
}

/// The file, and room for what is written to it and for the calls.
fn rooms(
    alloc: Global,
    image: &[u8],
    left: usize,
    turns: usize,
) -> Result<(Vec<u8>, Vec<u8>, Vec<Kept>), Want>
    ensures file { IfOk result (λ rooms. (rooms.0.items ≡ image.now) × (length image.now + left ≤ vec_capacity rooms.0)) }
    ensures written { IfOk result (λ rooms. (rooms.1.items ≡ []) × (left ≤ vec_capacity rooms.1)) }
    ensures past { IfOk result (λ rooms. (rooms.2.items ≡ []) × (turns ≤ vec_capacity rooms.2)) }
{
    let mut file = Vec::with_capacity(alloc, image.len().checked_add(left).ok_or(Want)?)?;
    file.extend_from_slice(image)?;
    Ok((
        file,
        Vec::with_capacity(alloc, left)?,
        Vec::with_capacity(alloc, turns)?,
    ))
}

/// Writes over what stands there, and past the end, in room that was taken.
fn overwrite(file: &mut Vec<u8>, at: usize, bytes: &[u8])
    requires inside { at ≤ length file.old.items }
    requires room { length file.old.items + length bytes.now ≤ vec_capacity file.old }
    ensures bytes { file.new.items ≡ with_bytes at bytes.now file.old.items }
    ensures room { vec_capacity file.old ≤ vec_capacity file.new }
{
    let over = bytes.len().min(file.len() - at);
    file[at..at + over].copy_from_slice(&bytes[..over]);
    append(file, &bytes[over..]);
}

/// Writes behind the others, in room that was taken.
fn append(bytes: &mut Vec<u8>, more: &[u8])
    requires { length bytes.old.items + length more.now ≤ vec_capacity bytes.old }
    ensures bytes { bytes.new.items ≡ bytes.old.items ++ more.now }
    ensures room { vec_capacity bytes.old ≤ vec_capacity bytes.new }
{
    match bytes.extend_from_slice(more) {
        Ok(()) => {}
        Err(_) => unreachable!(),
    }
}

/// Keeps a call, in room that was taken.
fn keep(past: &mut Vec<Kept>, call: Kept)
    requires { length past.old.items + 1 ≤ vec_capacity past.old }
    ensures past { past.new.items ≡ past.old.items ++ call ∷ [] }
    ensures room { vec_capacity past.old ≤ vec_capacity past.new }
{
    match past.push(call) {
        Ok(()) => {}
        Err(_) => unreachable!(),
    }
}

impl Disk for MemDisk {
    ghost faults = { λ m. m.calls.faults };

    ghost contents = { λ m. Some (contents_of m) };

    ghost may_leave = { λ m image. left_by m.first m.past image };

    ghost moment = { λ m. length m.past };

    ghost left_since = { λ m t image. left_from m.first m.past t image };

    ghost counts_now = { λ m t image late left. left_now m.first m.past t image left };

    ghost only_now = { λ m image left. only_left m.first m.past image left };

    #[tactic(auto, using(crate::proofs::Past::call_steps))]
    fn open(&mut self, _name: &str) -> Did
        ensures exactly { did_failed result ≡ disk_fails self.old }
        ensures after { self.new ≡ after_call (did_failed result) self.old }
        ensures contents { Some (contents_of self.new) ≡ Some (contents_of self.old) }
        ensures crash { Narrows (left_by self.old.first self.old.past) (left_by self.new.first self.new.past) }
        ensures time { Elapses (length self.old.past) (length self.new.past) (left_from self.old.first self.old.past) (left_from self.new.first self.new.past) (left_by self.new.first self.new.past) }
        ensures image { left_by self.new.first self.new.past (contents_of self.new) }
        ensures count { IsCounted (did_failed result) self.old.calls.faults self.new.calls.faults }
    {
        let failed = self.fails();
        self.count(failed);
        if failed { Did::Failed } else { Did::Did }
    }

    #[tactic(auto, using(crate::proofs::Past::call_steps))]
    fn len(&mut self) -> Size
        ensures exactly { size_failed result ≡ disk_fails self.old }
        ensures after { self.new ≡ after_call (size_failed result) self.old }
        ensures size { IsSize result (Some (contents_of self.old)) }
        ensures contents { Some (contents_of self.new) ≡ Some (contents_of self.old) }
        ensures crash { Narrows (left_by self.old.first self.old.past) (left_by self.new.first self.new.past) }
        ensures time { Elapses (length self.old.past) (length self.new.past) (left_from self.old.first self.old.past) (left_from self.new.first self.new.past) (left_by self.new.first self.new.past) }
        ensures image { left_by self.new.first self.new.past (contents_of self.new) }
        ensures count { IsCounted (size_failed result) self.old.calls.faults self.new.calls.faults }
    {
        let failed = self.fails();
        self.count(failed);
        if failed {
            Size::Failed
        } else {
            Size::Is(self.file.len() as u64)
        }
    }

    #[tactic(auto, using(crate::proofs::Past::call_steps))]
    fn read_at(&mut self, at: u64, buf: &mut [u8]) -> Filled
        requires { at + length buf.old ≤ length (contents_of self.old) }
        ensures exactly { fill_failed result ≡ disk_fails self.old }
        ensures after { self.new ≡ after_call (fill_failed result) self.old }
        ensures bytes { IsFilled result at buf.new (Some (contents_of self.old)) }
        ensures contents { Some (contents_of self.new) ≡ Some (contents_of self.old) }
        ensures crash { Narrows (left_by self.old.first self.old.past) (left_by self.new.first self.new.past) }
        ensures time { Elapses (length self.old.past) (length self.new.past) (left_from self.old.first self.old.past) (left_from self.new.first self.new.past) (left_by self.new.first self.new.past) }
        ensures image { left_by self.new.first self.new.past (contents_of self.new) }
        ensures count { IsCounted (fill_failed result) self.old.calls.faults self.new.calls.faults }
    {
        let failed = self.fails();
        self.count(failed);
        if failed {
            return Filled::Failed;
        }
        let at = at as usize;
        buf.copy_from_slice(&self.contents()[at..at + buf.len()]);
        Filled::Filled
    }

    #[tactic(auto, using(crate::proofs::Past::write_steps))]
    fn write_at(&mut self, at: u64, bytes: &[u8]) -> Did
        requires { at ≤ length (contents_of self.old) }
        ensures exactly { did_failed result ≡ write_fails self.old bytes.now }
        ensures after { self.new ≡ after_write result at bytes.now self.old }
        ensures written { OnDid result (IsWritten at bytes.now (Some (contents_of self.old)) (Some (contents_of self.new))) }
        ensures told { StaysTold (Some (contents_of self.old)) (Some (contents_of self.new)) }
        ensures crash { Follows (Torn at (length bytes.now)) (left_by self.old.first self.old.past) (left_by self.new.first self.new.past) }
        ensures time { Elapses (length self.old.past) (length self.new.past) (left_from self.old.first self.old.past) (left_from self.new.first self.new.past) (left_by self.new.first self.new.past) }
        ensures image { left_by self.new.first self.new.past (contents_of self.new) }
        ensures count { IsCounted (did_failed result) self.old.calls.faults self.new.calls.faults }
    {
        self.write(at as usize, bytes)
    }

    #[tactic(auto, using(crate::proofs::Past::sync_steps))]
    fn sync(&mut self) -> Did
        ensures exactly { did_failed result ≡ disk_fails self.old }
        ensures after { self.new ≡ after_sync result self.old }
        ensures durable { OnDid result (Only (contents_of self.old) (left_by self.new.first self.new.past)) }
        ensures contents { Some (contents_of self.new) ≡ Some (contents_of self.old) }
        ensures crash { Narrows (left_by self.old.first self.old.past) (left_by self.new.first self.new.past) }
        ensures time { Elapses (length self.old.past) (length self.new.past) (left_from self.old.first self.old.past) (left_from self.new.first self.new.past) (left_by self.new.first self.new.past) }
        ensures image { left_by self.new.first self.new.past (contents_of self.new) }
        ensures count { IsCounted (did_failed result) self.old.calls.faults self.new.calls.faults }
    {
        self.settle()
    }
}
