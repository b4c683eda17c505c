// What a node, an ask or the whole program works on: files, a sink, a link that hears nothing, a clock and a disk, all in
// memory, of which chosen calls fail.

use crate::texts::text_bytes;
use std::alloc::{AllocError, Global};
use zy_base::{Bytes, Want};
use zy_edge::{MemClock, MemFiles, MemLink, MemSink};
use zy_journal::MemDisk;

#[derive(Drop)]
pub(crate) struct Outside {
    pub(crate) files: MemFiles,
    pub(crate) out: MemSink,
    pub(crate) link: MemLink,
    pub(crate) clock: MemClock,
    pub(crate) disk: MemDisk,
}

/// The numbers of the calls that fail, and the room of the sink.
#[derive(Clone, Copy)]
pub(crate) struct Faults<'a> {
    pub(crate) files: &'a [u64],
    pub(crate) sink: &'a [u64],
    pub(crate) link: &'a [u64],
    pub(crate) disk: &'a [u64],
    pub(crate) room: u32,
}

/// Nothing fails, and the sink has room for a short report.
pub(crate) const NO_FAULTS: Faults<'static> = Faults {
    files: &[],
    sink: &[],
    link: &[],
    disk: &[],
    room: 1_000,
};

/// The names and texts of two files.
pub(crate) fn two_files(
    alloc: Global,
    first: (&str, Bytes),
    second: (&str, Bytes),
) -> Result<Vec<(Bytes, Bytes)>, Want> {
    let mut held = Vec::new(alloc);
    held.push((text_bytes(alloc, first.0)?, first.1))?;
    held.push((text_bytes(alloc, second.0)?, second.1))?;
    Ok(held)
}

fn sink_of(alloc: Global, faults: Faults<'_>) -> Result<MemSink, Want> {
    let room = u64::from(faults.room.min(1_000_000));
    MemSink::new(alloc, Vec::from_slice(alloc, faults.sink)?, room)
}

fn link_of(alloc: Global, faults: Faults<'_>) -> Result<MemLink, Want> {
    let failing = Vec::from_slice(alloc, faults.link)?;
    MemLink::new(alloc, Vec::new(alloc), failing, 4)
}

fn clock_of(alloc: Global) -> Result<MemClock, AllocError> {
    Ok(MemClock::new(alloc, Vec::from_slice(alloc, &[0])?))
}

/// A disk with an empty file, and room for some calls.
pub(crate) fn disk_of(alloc: Global, failing: &[u64]) -> Result<MemDisk, Want> {
    let failing = Vec::from_slice(alloc, failing)?;
    MemDisk::new(alloc, Bytes::new(alloc), 10_000, 100, failing)
}

/// A file system of these files, and the rest.
pub(crate) fn outside_of(
    alloc: Global,
    held: Vec<(Bytes, Bytes)>,
    faults: Faults<'_>,
) -> Result<Outside, Want> {
    let files = MemFiles::new(alloc, held, Vec::from_slice(alloc, faults.files)?);
    let out = sink_of(alloc, faults)?;
    let link = link_of(alloc, faults)?;
    let clock = clock_of(alloc)?;
    let disk = disk_of(alloc, faults.disk)?;
    Ok(Outside {
        files,
        out,
        link,
        clock,
        disk,
    })
}
