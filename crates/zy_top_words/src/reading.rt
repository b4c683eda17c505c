// A whole file in a vector.
ghost use Rattle.std.specs.Prelude.{◌≡◌, ◌<◌, IsTrue, IfOk, length, option_map};
ghost use Rattle.zy_edge.specs.Faults.{IsCounted};
ghost use Rattle.zy_edge.specs.Files.{content_of};
ghost use Rattle.zy_top_words.specs.Calls.{IsFileRead, stops_reading};

use crate::Exit;
use std::alloc::{AllocError, Global};
use zy_edge::{Chosen, Files, Read};

/// The most bytes that a file may have.
const FILE_LIMIT: usize = 16_777_216;

/// How many bytes are asked for at a time.
const PIECE: usize = 65_536;

/// The file with this name, read to its end.
pub fn read_file<F: Files>(alloc: Global, files: &mut F, name: &str) -> Result<Vec<u8>, Exit>
    ensures held { F.held files.new ≡ F.held files.old }
    ensures bytes { IsFileRead (option_map (λ held. content_of held name.now) (F.held files.old)) result }
    ensures count { IsCounted (stops_reading result) (F.faults files.old) (F.faults files.new) }
{
    match files.select(name) {
        Chosen::Chosen => {
            let mut piece = zeros(alloc, PIECE)?;
            read_chosen(alloc, files, &mut piece)
        }
        Chosen::Failed => Err(Exit::ReadFault),
    }
}

/// So many zeros.
fn zeros(alloc: Global, len: usize) -> Result<Vec<u8>, AllocError>
    ensures { IfOk result (λ zeros. length zeros.items ≡ len) }
{
    vec![in alloc; 0u8; len]
}

/// What is left of the chosen file, read by way of a buffer.
fn read_chosen<F: Files>(alloc: Global, files: &mut F, piece: &mut [u8]) -> Result<Vec<u8>, Exit>
    requires readable { IsTrue (F.is_chosen files.old) }
    requires room { 0 < length piece.old }
    ensures held { F.held files.new ≡ F.held files.old }
    ensures bytes { IsFileRead (F.rest files.old) result }
    ensures count { IsCounted (stops_reading result) (F.faults files.old) (F.faults files.new) }
{
    let mut text = Vec::new(alloc);
    'pieces: loop {
        match files.read(piece) {
            Read::Got(len) => {
                if len > FILE_LIMIT - text.len() {
                    return Err(Exit::TooLong);
                }
                text.extend_from_slice(&piece[..len])?;
            }
            Read::End => return Ok(text),
            Read::Failed => return Err(Exit::ReadFault),
        }
    }
}
