//! The tables of frames that are cut into datagrams, and of those that are gathered from them.

use crate::cases::Scene;
use crate::text::{ok_text, sha_text};
use crate::words::Row;
use std::alloc::Global;
use std::io;
use zy_base::Bytes;
use zy_pieces::{Gather, Gathered, cut};
use zy_rows::{Hex, lacking, not_a_line};
use zy_wire::MAX_FRAME;

/// The bytes before the payload of a datagram.
const HEADER_LEN: usize = 37;

/// One of the datagrams of a frame.
pub(crate) fn datagram(alloc: Global, row: &Row) -> io::Result<String> {
    let index = row.number("index")?;
    let frame = row.bytes("frame")?;
    if frame.is_empty() || frame.len() > MAX_FRAME {
        return Err(not_a_line());
    }
    match cut(alloc, frame) {
        Ok(datagrams) => datagram_text(alloc, &datagrams, index as usize),
        Err(want) => Err(lacking(want)),
    }
}

fn datagram_text(alloc: Global, datagrams: &[Bytes], index: usize) -> io::Result<String> {
    let count = datagrams.len();
    let datagram = datagrams.get(index).ok_or_else(not_a_line)?.as_slice();
    let header = datagram.get(..HEADER_LEN).ok_or_else(not_a_line)?;
    let sha = sha_text(alloc, datagram)?;
    let len = datagram.len();
    Ok(format!(in alloc;
        "of {count} length {len} sha256 {sha} header {}",
        Hex(header)
    )?)
}

impl Scene for Gather {
    fn step(&mut self, alloc: Global, row: &Row) -> io::Result<String> {
        match row.call()? {
            "begin" => {
                *self = Gather::new(alloc);
                ok_text(alloc)
            }
            "add" => {
                let gathered = self.add(row.bytes("datagram")?).map_err(lacking)?;
                gathered_text(alloc, &gathered)
            }
            _ => Err(not_a_line()),
        }
    }
}

fn gathered_text(alloc: Global, gathered: &Gathered) -> io::Result<String> {
    match gathered {
        Gathered::Whole(frame) => {
            let sha = sha_text(alloc, frame.as_slice())?;
            Ok(format!(in alloc; "Whole length {} sha256 {sha}", frame.len())?)
        }
        Gathered::Part => Ok(String::from_str(alloc, "Part")?),
        Gathered::Refused(fault) => Ok(format!(in alloc; "Refused {fault:?}")?),
    }
}
