// The whole program over files that never fail, and a sink that takes all.

use crate::outside::disk_of;
use crate::texts::{repeated, strings, text_bytes};
use std::alloc::Global;
use std::test::Fail;
use std::thread::Threads;
use zy_base::{Bytes, Want};
use zy_edge::{CalmFiles, CalmSink, MemClock, MemLink};
use zy_top::zyzzyva;
use zy_top_words::Exit;

/// The most lines of sixteen bytes that a file may have.
const MOST: u32 = 1_048_576;

/// A file named `script` of so many lines of sixteen bytes.
fn script_of(alloc: Global, lines: u32) -> Result<Vec<(Bytes, Bytes)>, Want> {
    let text = repeated(alloc, "# sixteen bytes\n", lines)?;
    let mut held = Vec::new(alloc);
    held.push((text_bytes(alloc, "script")?, text))?;
    Ok(held)
}

/// How the script with this name ends.
fn script_exit<R: Threads + Sync>(
    rt: &R,
    alloc: Global,
    mut files: CalmFiles,
    name: &str,
) -> Result<Exit, Want> {
    let words = strings(alloc, &["space", name])?;
    let mut link = MemLink::new(alloc, Vec::new(alloc), Vec::new(alloc), 0)?;
    let mut clock = MemClock::new(alloc, Vec::from_slice(alloc, &[0])?);
    let mut out = CalmSink::new();
    let mut disk = disk_of(alloc, &[])?;
    Ok(zyzzyva(
        rt, alloc, &words, &mut files, &mut out, &mut link, &mut clock, &mut disk,
    ))
}

#[test]
fn a_calm_file_that_is_missing_is_empty(rt: HostRuntime) -> Result<(), Fail> {
    let files = CalmFiles::new(rt.alloc(), Vec::new(rt.alloc()));
    let exit = script_exit(&rt, rt.alloc(), files, "other")?;
    assert_eq!(rt; exit, Exit::Done);
    Ok(())
}

#[test]
fn a_file_of_the_greatest_length_is_read(rt: HostRuntime) -> Result<(), Fail> {
    let files = CalmFiles::new(rt.alloc(), script_of(rt.alloc(), MOST)?);
    let exit = script_exit(&rt, rt.alloc(), files, "script")?;
    assert_eq!(rt; exit, Exit::Done);
    Ok(())
}

#[test]
fn a_longer_file_is_too_long(rt: HostRuntime) -> Result<(), Fail> {
    let files = CalmFiles::new(rt.alloc(), script_of(rt.alloc(), MOST + 1)?);
    let exit = script_exit(&rt, rt.alloc(), files, "script")?;
    assert_eq!(rt; exit, Exit::TooLong);
    Ok(())
}
