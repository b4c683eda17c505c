//! Bytes as parts with `+` between:
//!
//! | part | the bytes |
//! |---|---|
//! | `hex:0a1b` | these, two digits each |
//! | `text:abc` | of this text, which has no `+` |
//! | `rep:N:0a` | N times this one |
//! | `ramp:N` | N, each its place modulo 251, from 0 on |
//! | `u8:N`, `u16:N`, `u32:N`, `u64:N` | of this number, the highest first |
//! | `count:N`, `client:N` | the same as `u16:N`, `u32:N` |
//! | `view:N`, `place:N`, `stamp:N` | the same as `u64:N` |
//! | `frame:KIND` | of the version and of the kind, with which a frame begins |
//! | `$NAME` | that a name stands for |
//! | `cut:N` | the first N of those before it alone |
//! | `set:N:0a` | those before it, with this one N bytes behind the first |
//! | `flip:N` | those before it, with the lowest bit turned N bytes behind the first |

use crate::{Names, not_a_line};
use std::alloc::Global;
use std::io;

/// The kinds of frames, whose numbers begin with 1.
const FRAMES: [&str; 16] = [
    "request",
    "order",
    "spec-response",
    "commit",
    "local-commit",
    "confirm-request",
    "fill-hole",
    "hate",
    "pom",
    "checkpoint",
    "view-change",
    "new-view",
    "view-confirm",
    "view-cert",
    "fetch",
    "state",
];

/// The bytes that parts spell.
pub fn value_bytes(alloc: Global, names: &Names, value: &str) -> io::Result<Vec<u8>> {
    let mut bytes = Vec::new(alloc);
    for part in value.split('+') {
        put(alloc, names, &mut bytes, part)?;
    }
    Ok(bytes)
}

/// Puts a part behind those before it.
fn put(alloc: Global, names: &Names, bytes: &mut Vec<u8>, part: &str) -> io::Result<()> {
    match part.strip_prefix('$') {
        Some(name) => Ok(bytes.extend_from_slice(names.bytes(name)?)?),
        None => put_spelled(alloc, bytes, part),
    }
}

fn put_spelled(alloc: Global, bytes: &mut Vec<u8>, part: &str) -> io::Result<()> {
    let (kind, rest) = part.split_once(':').ok_or_else(not_a_line)?;
    match kind {
        "hex" => put_hex(alloc, bytes, rest),
        "text" => Ok(bytes.extend_from_slice(rest.as_bytes())?),
        "rep" => put_rep(bytes, rest),
        "ramp" => put_ramp(bytes, rest),
        "u8" => put_number(bytes, rest, 1),
        "u16" | "count" => put_number(bytes, rest, 2),
        "u32" | "client" => put_number(bytes, rest, 4),
        "u64" | "view" | "place" | "stamp" => put_number(bytes, rest, 8),
        "frame" => put_frame(bytes, rest),
        "cut" => cut(bytes, rest),
        "set" => set(bytes, rest),
        "flip" => flip(bytes, rest),
        _ => Err(not_a_line()),
    }
}

fn put_hex(alloc: Global, bytes: &mut Vec<u8>, digits: &str) -> io::Result<()> {
    match hex::decode(alloc, digits) {
        Ok(decoded) => Ok(bytes.extend_from_slice(&decoded)?),
        Err(_) => Err(not_a_line()),
    }
}

fn put_rep(bytes: &mut Vec<u8>, part: &str) -> io::Result<()> {
    let (times, byte) = place_and_byte(part)?;
    for _ in 0..times {
        bytes.push(byte)?;
    }
    Ok(())
}

fn put_ramp(bytes: &mut Vec<u8>, len: &str) -> io::Result<()> {
    for place in 0..number(len)? {
        bytes.push((place % 251) as u8)?;
    }
    Ok(())
}

fn put_number(bytes: &mut Vec<u8>, digits: &str, len: usize) -> io::Result<()> {
    let number = number(digits)?.to_be_bytes();
    match number.split_at_checked(8usize.saturating_sub(len)) {
        Some((front, back)) if front.iter().all(|byte| *byte == 0) => {
            Ok(bytes.extend_from_slice(back)?)
        }
        _ => Err(not_a_line()),
    }
}

/// The version of frames, and a kind.
fn put_frame(bytes: &mut Vec<u8>, kind: &str) -> io::Result<()> {
    let number = number_of(&FRAMES, kind)?;
    Ok(bytes.extend_from_slice(&[1, number])?)
}

fn cut(bytes: &mut Vec<u8>, len: &str) -> io::Result<()> {
    let len = number(len)? as usize;
    if len > bytes.len() {
        return Err(not_a_line());
    }
    bytes.truncate(len);
    Ok(())
}

fn set(bytes: &mut Vec<u8>, part: &str) -> io::Result<()> {
    let (place, byte) = place_and_byte(part)?;
    *bytes.get_mut(place).ok_or_else(not_a_line)? = byte;
    Ok(())
}

fn flip(bytes: &mut Vec<u8>, place: &str) -> io::Result<()> {
    let place = number(place)? as usize;
    *bytes.get_mut(place).ok_or_else(not_a_line)? ^= 1;
    Ok(())
}

/// A number and a byte in two hex digits, with `:` between.
fn place_and_byte(part: &str) -> io::Result<(usize, u8)> {
    let (digits, byte) = part.split_once(':').ok_or_else(not_a_line)?;
    match u8::from_str_radix(byte, 16) {
        Ok(byte) => Ok((number(digits)? as usize, byte)),
        Err(_) => Err(not_a_line()),
    }
}

/// A number of 64 bits in decimal digits.
pub fn number(digits: &str) -> io::Result<u64> {
    digits.parse::<u64>().map_err(|_| not_a_line())
}

/// The number of a word among these, from 1 on.
pub fn number_of(kinds: &[&str], word: &str) -> io::Result<u8> {
    let mut number = 1u8;
    for kind in kinds {
        if *kind == word {
            return Ok(number);
        }
        number = number.saturating_add(1);
    }
    Err(not_a_line())
}
