// Texts as bytes, and words.

use std::alloc::{AllocError, Global};
use zy_base::{Bytes, Want};

pub(crate) fn text_bytes(alloc: Global, text: &str) -> Result<Bytes, Want> {
    Bytes::from_slice(alloc, text.as_bytes())
}

/// These lines, and a text behind them.
pub(crate) fn lines_and(alloc: Global, lines: &[&str], last: &str) -> Result<Bytes, Want> {
    let mut text = Vec::new(alloc);
    for line in lines {
        text.extend_from_slice(line.as_bytes())?;
    }
    text.extend_from_slice(last.as_bytes())?;
    Ok(Bytes::from(text))
}

/// So many times this line.
pub(crate) fn repeated(alloc: Global, line: &str, count: u32) -> Result<Bytes, AllocError> {
    let mut text = Vec::new(alloc);
    for _ in 0..count {
        text.extend_from_slice(line.as_bytes())?;
    }
    Ok(Bytes::from(text))
}

/// The words of a command line.
pub(crate) fn strings(alloc: Global, words: &[&str]) -> Result<Vec<String>, AllocError> {
    let mut strings = Vec::new(alloc);
    for word in words {
        strings.push(String::from_str(alloc, word)?)?;
    }
    Ok(strings)
}
