// A file of the system that is written at any place.

use crate::real_files::own_path;
use std::alloc::{AllocError, Global};
use std::fs;
use std::fs::File;
use std::rt::Files;
use std::test::Fail;
use zy_journal::{Did, Disk, Filled, RealDisk, Size};

/// What calls answer in a row: `x` for a failure, `.` for what was done, and what was read.
fn answers<R: Files<File = File>>(
    alloc: Global,
    disk: &mut RealDisk<'_, R>,
    name: &str,
) -> Result<Vec<u8>, AllocError> {
    let mut log = Vec::new(alloc);
    log.push(mark(disk.sync()))?;
    log.push(mark(disk.open(name)))?;
    log.push(mark(disk.write_at(0, b"hello")))?;
    log.push(mark(disk.write_at(2, b"LLOW")))?;
    log.push(mark(disk.sync()))?;
    log.push(digit(disk.len()))?;
    log.extend_from_slice(&read(disk, 1))?;
    log.extend_from_slice(&read(disk, 4))?;
    Ok(log)
}

fn mark(did: Did) -> u8 {
    match did {
        Did::Did => b'.',
        Did::Failed => b'x',
    }
}

/// A length below ten as its digit.
fn digit(size: Size) -> u8 {
    match size {
        Size::Is(len) if len < 10 => b'0' + len as u8,
        _ => b'x',
    }
}

/// Three bytes from this place on.
fn read<R: Files<File = File>>(disk: &mut RealDisk<'_, R>, at: u64) -> [u8; 3] {
    let mut buf = [0; 3];
    match disk.read_at(at, &mut buf) {
        Filled::Filled => buf,
        Filled::Failed => *b"xxx",
    }
}

#[test]
fn a_file_is_made_and_written_at_places_and_read_back(rt: HostRuntime) -> Result<(), Fail> {
    let path = own_path(&rt, rt.alloc())?;
    let log = answers(rt.alloc(), &mut RealDisk::new(&rt), path.as_str())?;
    fs::remove_file(&rt, path.as_str())?;
    assert_eq!(rt; log.as_slice(), b"x....6eLLxxx".as_slice());
    Ok(())
}
