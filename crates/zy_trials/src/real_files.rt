// Files of the system. Each test runs in a process of its own, so that its number makes a name.

ghost use Rattle.std.specs.Prelude.{◌≡◌, ◌<◌, IsTrue, length};

use std::alloc::{AllocError, Global};
use std::test::Fail;
use std::{env, fs, process};
use zy_edge::{Chosen, Files, Read, RealFiles};

/// The answers to four reads of three bytes, with a space behind each: `x` for a failure, `.` for the end.
fn four_pieces<F: Files>(alloc: Global, files: &mut F) -> Result<Vec<u8>, AllocError>
    requires { IsTrue (F.is_chosen files.old) }
{
    let mut log = Vec::new(alloc);
    for _ in 0..4 {
        let mut buf = [0u8; 3];
        match files.read(&mut buf) {
            Read::Got(len) => log.extend_from_slice(&buf[..len])?,
            Read::End => log.push(b'.')?,
            Read::Failed => log.push(b'x')?,
        }
        log.push(b' ')?;
    }
    Ok(log)
}

/// The answers to a `select` and to four reads: `x` alone where it can't be chosen.
fn answers<F: Files>(alloc: Global, files: &mut F, name: &str) -> Result<Vec<u8>, AllocError> {
    match files.select(name) {
        Chosen::Failed => Vec::from_slice(alloc, b"x"),
        Chosen::Chosen => four_pieces(alloc, files),
    }
}

/// The path of a file of this process alone.
pub(crate) fn own_path(rt: &HostRuntime, alloc: Global) -> Result<String, Fail> {
    let folder = env::temp_dir(rt)?;
    let number = process::id(rt.process());
    Ok(format!(in alloc; "{}/zy_trials_{}", folder.display(), number)?)
}

#[test]
fn a_file_is_read_in_pieces_to_its_end(rt: HostRuntime) -> Result<(), Fail> {
    let path = own_path(&rt, rt.alloc())?;
    fs::write(&rt, path.as_str(), "hello")?;
    let log = answers(rt.alloc(), &mut RealFiles::new(&rt), path.as_str())?;
    fs::remove_file(&rt, path.as_str())?;
    assert_eq!(rt; log.as_slice(), b"hel lo . . ".as_slice());
    Ok(())
}

#[test]
fn a_file_is_read_from_its_start_after_another_failed(rt: HostRuntime) -> Result<(), Fail> {
    let path = own_path(&rt, rt.alloc())?;
    fs::write(&rt, path.as_str(), "hello")?;
    let log = answers_behind_a_folder(rt.alloc(), &mut RealFiles::new(&rt), path.as_str())?;
    fs::remove_file(&rt, path.as_str())?;
    assert_eq!(rt; log.as_slice(), b"hel lo . . ".as_slice());
    Ok(())
}

fn answers_behind_a_folder<F: Files>(
    alloc: Global,
    files: &mut F,
    name: &str,
) -> Result<Vec<u8>, AllocError> {
    answers(alloc, files, "/")?;
    answers(alloc, files, name)
}

#[test]
fn a_missing_file_is_not_chosen(rt: HostRuntime) -> Result<(), Fail> {
    let log = answers(rt.alloc(), &mut RealFiles::new(&rt), "/no such file")?;
    assert_eq!(rt; log.as_slice(), b"x".as_slice());
    Ok(())
}

#[test]
fn a_folder_fails_at_each_read(rt: HostRuntime) -> Result<(), Fail> {
    let log = answers(rt.alloc(), &mut RealFiles::new(&rt), "/")?;
    assert_eq!(rt; log.as_slice(), b"x x x x ".as_slice());
    Ok(())
}
