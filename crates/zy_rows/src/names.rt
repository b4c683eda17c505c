use crate::not_a_line;
use std::alloc::Global;
use std::io;

/// What a name stands for: bytes, which are hex digits in an answer, or the text of an answer.
#[derive(Drop)]
pub(crate) enum Meaning {
    Bytes(Vec<u8>),
    Text(String),
}

#[derive(Drop)]
struct Named {
    name: String,
    meaning: Meaning,
}

/// What was named so far. A name stands for what was given it last.
#[derive(Drop)]
pub struct Names {
    alloc: Global,
    named: Vec<Named>,
}

impl Names {
    pub fn new(alloc: Global) -> Names {
        Names {
            alloc,
            named: Vec::new(alloc),
        }
    }

    /// From here on a name stands for bytes.
    pub fn keep_bytes(&mut self, name: &str, bytes: Vec<u8>) -> io::Result<()> {
        self.keep(name, Meaning::Bytes(bytes))
    }

    /// From here on a name stands for the text of an answer.
    pub fn keep_text(&mut self, name: &str, text: String) -> io::Result<()> {
        self.keep(name, Meaning::Text(text))
    }

    fn keep(&mut self, name: &str, meaning: Meaning) -> io::Result<()> {
        let name = String::from_str(self.alloc, name)?;
        Ok(self.named.push(Named { name, meaning })?)
    }

    /// Whether a name stands for something.
    pub fn has(&self, name: &str) -> bool {
        self.meaning(name).is_some()
    }

    /// The bytes that a name stands for.
    pub fn bytes(&self, name: &str) -> io::Result<&[u8]> {
        match self.meaning(name) {
            Some(Meaning::Bytes(bytes)) => Ok(bytes),
            Some(Meaning::Text(_)) | None => Err(not_a_line()),
        }
    }

    pub(crate) fn meaning(&self, name: &str) -> Option<&Meaning> {
        let named = self
            .named
            .iter()
            .rev()
            .find(|named| named.name.as_str() == name)?;
        Some(&named.meaning)
    }
}
