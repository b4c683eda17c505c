//! The table `texts`: a book of texts. Its rows are steps of one book.

use crate::cases::Scene;
use crate::text::ok_text;
use crate::values::digest;
use crate::words::Row;
use std::alloc::Global;
use std::io;
use zy_base::Want;
use zy_book::{Book, KeepFault};
use zy_rows::{Hex, lacking, not_a_line};

impl Scene for Book {
    fn step(&mut self, alloc: Global, row: &Row) -> io::Result<String> {
        match row.call()? {
            "begin" => begin(alloc, self),
            "keep" => keep(alloc, self, row),
            "text" => found_text(alloc, self.text(&digest(row, "digest")?)),
            _ => Err(not_a_line()),
        }
    }
}

fn begin(alloc: Global, book: &mut Book) -> io::Result<String> {
    *book = Book::new(alloc);
    ok_text(alloc)
}

/// Keeps the text of two pieces under a digest.
fn keep(alloc: Global, book: &mut Book, row: &Row) -> io::Result<String> {
    let front = row.bytes("front")?;
    let rest = row.bytes("rest")?;
    match book.keep(digest(row, "digest")?, front, rest) {
        Ok(()) => ok_text(alloc),
        Err(KeepFault::Clash) => Ok(String::from_str(alloc, "Err Clash")?),
        Err(KeepFault::Want) => Err(lacking(Want)),
    }
}

/// A text that was looked up.
pub(crate) fn found_text(alloc: Global, text: Option<&[u8]>) -> io::Result<String> {
    match text {
        Some([]) => Ok(String::from_str(alloc, "empty")?),
        Some(text) => Ok(format!(in alloc; "{}", Hex(text))?),
        None => Ok(String::from_str(alloc, "-")?),
    }
}
