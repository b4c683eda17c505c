ghost use Rattle.std.specs.Prelude.{◌≡◌, None};

use super::{Did, Disk, Filled, Size};
use std::fs::File;
use std::io;
use std::io::{Error, ErrorKind};
use std::os::unix::fs::FileExt;
use zy_edge::raised;

/// A file of the system. It tells nothing of contents.
#[derive(Drop)]
pub struct RealDisk<'a, R: std::rt::Files<File = File>> {
    rt: &'a R,
    file: Option<File>,
    faults: u64,
}

impl<'a, R: std::rt::Files<File = File>> RealDisk<'a, R> {
    /// No file is open yet: until one is, all other calls fail.
    pub fn new(rt: &'a R) -> RealDisk<'a, R>
        ensures { ⟦<RealDisk<'a, R> as Disk>⟧.faults result ≡ 0 }
    {
        RealDisk {
            rt,
            file: None,
            faults: 0,
        }
    }
}

impl<R: std::rt::Files<File = File>> Disk for RealDisk<'_, R> {
    ghost faults = { λ d. d.faults };

    ghost contents = { λ _. None };

    ghost may_leave = { λ _ _. ⊥ };

    ghost moment = { λ _. 0 };

    ghost left_since = { λ _ _ _. ⊥ };

    ghost counts_now = { λ d t image late left. left };

    ghost only_now = { λ d image left. left };

    fn open(&mut self, name: &str) -> Did {
        match open_file(self.rt, name) {
            Ok(file) => {
                self.file = Some(file);
                Did::Did
            }
            Err(_) => {
                self.faults = raised(self.faults);
                Did::Failed
            }
        }
    }

    fn len(&mut self) -> Size {
        match size_of(&self.file) {
            Ok(size) => Size::Is(size),
            Err(_) => {
                self.faults = raised(self.faults);
                Size::Failed
            }
        }
    }

    fn read_at(&mut self, at: u64, buf: &mut [u8]) -> Filled {
        match read_from(&self.file, at, buf) {
            Ok(()) => Filled::Filled,
            Err(_) => {
                self.faults = raised(self.faults);
                Filled::Failed
            }
        }
    }

    fn write_at(&mut self, at: u64, bytes: &[u8]) -> Did {
        match write_to(&self.file, at, bytes) {
            Ok(()) => Did::Did,
            Err(_) => {
                self.faults = raised(self.faults);
                Did::Failed
            }
        }
    }

    fn sync(&mut self) -> Did {
        match sync_of(&self.file) {
            Ok(()) => Did::Did,
            Err(_) => {
                self.faults = raised(self.faults);
                Did::Failed
            }
        }
    }
}

/// Opens a file, and syncs its folder, so that a crash doesn't take away the name of one that is new.
fn open_file<R: std::rt::Files<File = File>>(rt: &R, name: &str) -> io::Result<File> {
    let file = File::options()
        .read(true)
        .write(true)
        .create(true)
        .open(rt, name)?;
    File::open(rt, folder_of(name))?.sync_all()?;
    Ok(file)
}

fn folder_of(name: &str) -> &str {
    match name.rsplit_once('/') {
        Some(("", _)) => "/",
        Some((folder, _)) => folder,
        None => ".",
    }
}

fn opened(file: &Option<File>) -> io::Result<&File> {
    match file {
        Some(file) => Ok(file),
        None => Err(Error::from(ErrorKind::NotFound)),
    }
}

fn size_of(file: &Option<File>) -> io::Result<u64> {
    Ok(opened(file)?.metadata()?.len())
}

fn read_from(file: &Option<File>, at: u64, buf: &mut [u8]) -> io::Result<()> {
    opened(file)?.read_exact_at(buf, at)
}

fn write_to(file: &Option<File>, at: u64, bytes: &[u8]) -> io::Result<()> {
    opened(file)?.write_all_at(bytes, at)
}

fn sync_of(file: &Option<File>) -> io::Result<()> {
    opened(file)?.sync_all()
}
