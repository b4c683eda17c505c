use crate::names::Meaning;
use crate::{Hex, Names, not_a_line};
use std::alloc::Global;
use std::fmt::Write;
use std::io;

/// A wanted answer. In it `$NAME` is a word that stands for the hex digits of named bytes, or for a named text.
pub fn wanted(alloc: Global, names: &Names, want: &str) -> io::Result<String> {
    let mut text = String::new(alloc);
    for (place, word) in want.split(' ').enumerate() {
        if place > 0 {
            text.push(' ')?;
        }
        put_word(names, &mut text, word)?;
    }
    Ok(text)
}

fn put_word(names: &Names, text: &mut String, word: &str) -> io::Result<()> {
    match word.strip_prefix('$') {
        Some(name) => put_meaning(names, text, name),
        None => Ok(text.push_str(word)?),
    }
}

fn put_meaning(names: &Names, text: &mut String, name: &str) -> io::Result<()> {
    match names.meaning(name) {
        Some(Meaning::Bytes(bytes)) => Ok(write!(text, "{}", Hex(bytes))?),
        Some(Meaning::Text(meant)) => Ok(text.push_str(meant.as_str())?),
        None => Err(not_a_line()),
    }
}
