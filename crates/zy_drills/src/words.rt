//! How a table is written.
//!
//! A line has words with tabs between. `#` begins a remark, and empty lines are passed over. These lines name what later
//! lines speak of:
//!
//! | line | what it names |
//! |---|---|
//! | `key PARTY leaf:N PUBLIC SIGNED PATH` | nothing: from here on all sign by this leaf of this party's first lower key |
//! | `let NAME VALUE` | the bytes |
//! | `say NAME PARTY KIND FIELDS` | a statement with its signature |
//! | `say NAME PARTY KIND FIELDS as PARTY` | the same with a signature on the text of the other party |
//! | `sent NAME length:N DIGEST` | a frame that is sent, by its length and its SHA-256 (FIPS 180-4) |
//!
//! A key is that of its party in a group whose seed is zero. Its public key is given, what stands in a signature before the lower
//! one (RFC 8554, section 6.2: the number of signed keys, the first of the top key's signatures, and the lower public key), and the
//! path of the leaf behind the LMS type (section 5.4).
//!
//! These begin anew, with a replica of a group of four or with a client of it, whose own key is the one of the last `key`
//! and signs next with the number that is given:
//!
//! | line | who begins |
//! |---|---|
//! | `begin rN apart:N leaf:N` | a replica, whose snapshots are so many places apart |
//! | `begin cN leaf:N` | a client |
//!
//! The others are rows, whose last word is the wanted answer (`text.rt`):
//!
//! | row | what comes |
//! |---|---|
//! | `hear BYTES WANT` | these bytes |
//! | `cuts BYTES WANT` | one after another all beginnings of these bytes, each with this answer |
//! | `timer NAME WANT` | a timer runs out: `request`, `change` or `answer` |
//! | `ask OPERATION WANT` | a client is to ask for this |
//!
//! Bytes are parts with `+` between:
//!
//! | part | the bytes |
//! |---|---|
//! | `hex:0a1b` | these, two digits each |
//! | `rep:N:0a` | N times this one |
//! | `count:N` | of this number, two of them |
//! | `client:N` | of this number, four of them |
//! | `view:N`, `place:N`, `stamp:N` | of this number, eight of them |
//! | `frame:KIND` | of the version and of the kind, with which a frame begins |
//! | `$NAME` | of a named value |
//!
//! In a wanted answer `$NAME` stands for the hex digits of the named value, or for the length and digest of a frame that
//! is sent.

use crate::text::Hex;
use std::alloc::Global;
use std::fmt::Write;
use std::io;
use std::io::ErrorKind;
use zy_base::{ClientId, Party, ReplicaId, Want};

/// The kinds of frames, whose numbers begin with 1.
const FRAMES: [&str; 16] = [
    "request",
    "order",
    "spec-response",
    "commit",
    "local-commit",
    "confirm-request",
    "fill-hole",
    "hate",
    "pom",
    "checkpoint",
    "view-change",
    "new-view",
    "view-confirm",
    "view-cert",
    "fetch",
    "state",
];

/// A value with its name.
#[derive(Drop)]
struct Named<T> {
    name: String,
    value: T,
}

/// What was named so far: bytes, and frames that are sent, as answers write them.
#[derive(Drop)]
pub(crate) struct Names {
    bytes: Vec<Named<Vec<u8>>>,
    texts: Vec<Named<String>>,
}

impl Names {
    pub(crate) fn new(alloc: Global) -> Names {
        Names {
            bytes: Vec::new(alloc),
            texts: Vec::new(alloc),
        }
    }

    pub(crate) fn keep_bytes(
        &mut self,
        alloc: Global,
        name: &str,
        value: Vec<u8>,
    ) -> io::Result<()> {
        let name = String::from_str(alloc, name)?;
        Ok(self.bytes.push(Named { name, value })?)
    }

    pub(crate) fn keep_text(&mut self, alloc: Global, name: &str, value: String) -> io::Result<()> {
        let name = String::from_str(alloc, name)?;
        Ok(self.texts.push(Named { name, value })?)
    }

    fn bytes(&self, name: &str) -> Option<&Vec<u8>> {
        last_named(&self.bytes, name)
    }

    fn text(&self, name: &str) -> Option<&String> {
        last_named(&self.texts, name)
    }
}

/// What was given this name last.
fn last_named<'a, T>(all: &'a [Named<T>], name: &str) -> Option<&'a T> {
    let named = all.iter().rev().find(|named| named.name.as_str() == name)?;
    Some(&named.value)
}

/// The bytes that a value stands for.
pub(crate) fn value(alloc: Global, names: &Names, text: &str) -> io::Result<Vec<u8>> {
    let mut bytes = Vec::new(alloc);
    for part in text.split('+') {
        put(alloc, names, &mut bytes, part)?;
    }
    Ok(bytes)
}

/// Puts a part behind those before it.
fn put(alloc: Global, names: &Names, bytes: &mut Vec<u8>, part: &str) -> io::Result<()> {
    match part.strip_prefix('$') {
        Some(name) => put_named(names, bytes, name),
        None => put_spelled(alloc, bytes, part),
    }
}

fn put_named(names: &Names, bytes: &mut Vec<u8>, name: &str) -> io::Result<()> {
    match names.bytes(name) {
        Some(value) => Ok(bytes.extend_from_slice(value)?),
        None => Err(not_a_line()),
    }
}

fn put_spelled(alloc: Global, bytes: &mut Vec<u8>, part: &str) -> io::Result<()> {
    let (kind, rest) = part.split_once(':').ok_or_else(not_a_line)?;
    match kind {
        "hex" => put_hex(alloc, bytes, rest),
        "rep" => put_rep(bytes, rest),
        "count" => put_number(bytes, rest, 2),
        "client" => put_number(bytes, rest, 4),
        "view" | "place" | "stamp" => put_number(bytes, rest, 8),
        "frame" => put_frame(bytes, rest),
        _ => Err(not_a_line()),
    }
}

/// The version of frames, and a kind.
fn put_frame(bytes: &mut Vec<u8>, kind: &str) -> io::Result<()> {
    let number = number_of(&FRAMES, kind)?;
    Ok(bytes.extend_from_slice(&[2, number])?)
}

fn put_hex(alloc: Global, bytes: &mut Vec<u8>, digits: &str) -> io::Result<()> {
    match hex::decode(alloc, digits) {
        Ok(decoded) => Ok(bytes.extend_from_slice(&decoded)?),
        Err(_) => Err(not_a_line()),
    }
}

fn put_rep(bytes: &mut Vec<u8>, part: &str) -> io::Result<()> {
    let (times, byte) = times_and_byte(part)?;
    for _ in 0..times {
        bytes.push(byte)?;
    }
    Ok(())
}

fn times_and_byte(part: &str) -> io::Result<(u64, u8)> {
    let (times, byte) = part.split_once(':').ok_or_else(not_a_line)?;
    match u8::from_str_radix(byte, 16) {
        Ok(byte) => Ok((number(times)?, byte)),
        Err(_) => Err(not_a_line()),
    }
}

fn put_number(bytes: &mut Vec<u8>, digits: &str, len: usize) -> io::Result<()> {
    let number = number(digits)?.to_be_bytes();
    match number.split_at_checked(8usize.saturating_sub(len)) {
        Some((front, back)) if front.iter().all(|byte| *byte == 0) => {
            Ok(bytes.extend_from_slice(back)?)
        }
        _ => Err(not_a_line()),
    }
}

/// The number of a kind, from 1 on.
pub(crate) fn number_of(kinds: &[&str], word: &str) -> io::Result<u8> {
    let mut number = 1u8;
    for kind in kinds {
        if *kind == word {
            return Ok(number);
        }
        number = number.saturating_add(1);
    }
    Err(not_a_line())
}

/// A number in decimal digits.
pub(crate) fn number(digits: &str) -> io::Result<u64> {
    digits.parse::<u64>().map_err(|_| not_a_line())
}

/// The number that stands behind this label.
pub(crate) fn labelled(word: &str, label: &str) -> io::Result<u64> {
    let (is, digits) = word.split_once(':').ok_or_else(not_a_line)?;
    if is == label {
        number(digits)
    } else {
        Err(not_a_line())
    }
}

/// A party: `r1` is replica 1, `c0` is client 0.
pub(crate) fn party(word: &str) -> io::Result<Party> {
    match word.strip_prefix('r') {
        Some(id) => Ok(Party::Replica(ReplicaId(id.parse::<u8>().map_err(|_| not_a_line())?))),
        None => client(word),
    }
}

fn client(word: &str) -> io::Result<Party> {
    let id = word.strip_prefix('c').ok_or_else(not_a_line)?;
    match id.parse::<u32>() {
        Ok(id) => Ok(Party::Client(ClientId(id))),
        Err(_) => Err(not_a_line()),
    }
}

/// The first word, and what stands behind its tab.
pub(crate) fn word_of(text: &str) -> io::Result<(&str, &str)> {
    text.split_once('\t').ok_or_else(not_a_line)
}

/// A wanted answer, with what its names stand for.
pub(crate) fn wanted(alloc: Global, names: &Names, want: &str) -> io::Result<String> {
    let mut text = String::new(alloc);
    put_words(names, &mut text, want)?;
    Ok(text)
}

fn put_words(names: &Names, text: &mut String, want: &str) -> io::Result<()> {
    for word in want.split(' ') {
        put_space(text)?;
        put_word(names, text, word)?;
    }
    Ok(())
}

fn put_space(text: &mut String) -> io::Result<()> {
    if !text.is_empty() {
        text.push(' ')?;
    }
    Ok(())
}

fn put_word(names: &Names, text: &mut String, word: &str) -> io::Result<()> {
    match word.strip_prefix('$') {
        Some(name) => put_meant(names, text, name),
        None => Ok(text.push_str(word)?),
    }
}

/// What a name stands for in an answer.
fn put_meant(names: &Names, text: &mut String, name: &str) -> io::Result<()> {
    match names.text(name) {
        Some(sent) => Ok(text.push_str(sent.as_str())?),
        None => put_digits(names, text, name),
    }
}

fn put_digits(names: &Names, text: &mut String, name: &str) -> io::Result<()> {
    match names.bytes(name) {
        Some(bytes) => Ok(write!(text, "{}", Hex(bytes))?),
        None => Err(not_a_line()),
    }
}

/// The fault of a line that can't be read.
pub(crate) fn not_a_line() -> io::Error {
    io::Error::from(ErrorKind::InvalidInput)
}

/// The fault of a call that wants memory.
pub(crate) fn lacking(_: Want) -> io::Error {
    io::Error::from(ErrorKind::OutOfMemory)
}
