//! The tables of keys of two levels, which sign by one leaf after another of one lower key after another, and of their signatures.

use crate::cases::Scene;
use crate::lms;
use crate::lms::height;
use crate::ots::ots_type;
use crate::text::{fault_text, plain_text, sha_text};
use crate::words::Row;
use std::alloc::Global;
use std::io;
use zy_base::Bytes;
use zy_lms::{HssKey, hss_verify};
use zy_rows::{Hex, lacking, not_a_line};

/// Whether a signature verifies.
pub(crate) fn verified(alloc: Global, row: &Row) -> io::Result<String> {
    let public = row.array("public")?;
    let message = row.bytes("message")?;
    plain_text(
        alloc,
        &hss_verify(&public, message, row.bytes("signature")?),
    )
}

/// The key that signs.
#[derive(Drop)]
pub(crate) struct HssKeys {
    key: Option<HssKey>,
}

impl HssKeys {
    pub(crate) fn new() -> HssKeys {
        HssKeys { key: None }
    }

    fn begin(&mut self, alloc: Global, key: HssKey) -> io::Result<String> {
        let text = key_text(alloc, &key);
        self.key = Some(key);
        text
    }
}

impl Scene for HssKeys {
    fn step(&mut self, alloc: Global, row: &Row) -> io::Result<String> {
        match row.call()? {
            "begin" => self.begin(alloc, key_of(alloc, row)?),
            "migrate" => self.begin(alloc, migrated(alloc, row)?),
            call => match &mut self.key {
                Some(key) => signed(alloc, key, call, row.bytes("message")?),
                None => Err(not_a_line()),
            },
        }
    }
}

/// The key that the words `seed`, `id`, `height`, `type` and `number` make.
pub(crate) fn key_of(alloc: Global, row: &Row) -> io::Result<HssKey> {
    let seed = row.array("seed")?;
    let id = row.array("id")?;
    let (height, ots) = (height(row)?, ots_type(row)?);
    let number = row.number32("number")?;
    if number > height.signature_count() {
        return Err(not_a_line());
    }
    HssKey::make(alloc, &seed, &id, height, ots, number).map_err(lacking)
}

/// The same of an LMS key at the word `leaf`.
fn migrated(alloc: Global, row: &Row) -> io::Result<HssKey> {
    match HssKey::migrate(lms::key_of(alloc, row)?) {
        Ok(key) => Ok(key),
        Err((_, want)) => Err(lacking(want)),
    }
}

fn key_text(alloc: Global, key: &HssKey) -> io::Result<String> {
    let public = key.public();
    let (next, left) = (key.next_leaf(), key.left());
    Ok(format!(in alloc; "next {next} left {left} public {}", Hex(&public))?)
}

fn signed(alloc: Global, key: &mut HssKey, call: &str, message: &[u8]) -> io::Result<String> {
    match call {
        "sign" => sign(alloc, key, message),
        "sign-all" => sign_all(alloc, key, message),
        _ => Err(not_a_line()),
    }
}

/// The number of the next signature and how many are left, after the key has signed, and the signature's length and SHA-256, and
/// whether it verifies.
fn sign(alloc: Global, key: &mut HssKey, message: &[u8]) -> io::Result<String> {
    let public = key.public();
    let text = match key.sign(message) {
        Ok(signature) => signed_text(alloc, &public, message, &signature)?,
        Err(fault) => fault_text(alloc, &fault)?,
    };
    let (next, left) = (key.next_leaf(), key.left());
    Ok(format!(in alloc; "next {next} left {left} {text}")?)
}

/// The same after each signature that is left was given, each of which verifies.
fn sign_all(alloc: Global, key: &mut HssKey, message: &[u8]) -> io::Result<String> {
    let public = key.public();
    for _ in 0..key.left() {
        let signature = key.sign(message).map_err(|_| not_a_line())?;
        if !hss_verify(&public, message, signature.as_slice()) {
            return Err(not_a_line());
        }
    }
    sign(alloc, key, message)
}

fn signed_text(
    alloc: Global,
    public: &[u8; 60],
    message: &[u8],
    signature: &Bytes,
) -> io::Result<String> {
    let verifies = hss_verify(public, message, signature.as_slice());
    let sha = sha_text(alloc, signature.as_slice())?;
    let len = signature.len();
    Ok(format!(in alloc; "length {len} sha256 {sha} verifies {verifies}")?)
}
