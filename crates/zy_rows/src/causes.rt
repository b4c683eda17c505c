use crate::Hex;
use std::fmt::Write;
use std::io;
use zy_base::{Cause, Digest};

/// A cause by its name, and its values, each with a space before it.
pub fn put_cause(text: &mut String, cause: &Cause) -> io::Result<()> {
    text.push_str(cause.name())?;
    match cause {
        Cause::NotFrame(fault) => Ok(write!(text, " {fault:?}")?),
        Cause::WindowFull(place) | Cause::Behind(place) => put_number(text, place.0),
        Cause::TooFew(number) => put_number(text, *number),
        Cause::BadReport(rule) => put_number(text, u64::from(*rule)),
        Cause::Waiting(stamp) => put_number(text, stamp.0),
        Cause::AnchorClash(own, other)
        | Cause::OtherHistory(own, other)
        | Cause::BelowStable(own, other)
        | Cause::WrongState(own, other) => put_digests(text, own, other),
        _ => Ok(()),
    }
}

fn put_number(text: &mut String, number: u64) -> io::Result<()> {
    Ok(write!(text, " {number}")?)
}

fn put_digests(text: &mut String, own: &Digest, other: &Digest) -> io::Result<()> {
    Ok(write!(text, " {} {}", Hex(&own.0), Hex(&other.0))?)
}
