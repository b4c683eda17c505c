use std::io;
use std::io::ErrorKind;
use zy_base::Want;

/// The fault of a line that can't be read.
pub fn not_a_line() -> io::Error {
    io::Error::from(ErrorKind::InvalidInput)
}

/// The fault of a call that wants memory.
pub fn lacking(_: Want) -> io::Error {
    io::Error::from(ErrorKind::OutOfMemory)
}
