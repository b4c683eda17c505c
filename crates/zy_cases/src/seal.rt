//! The table of parties that sign statements, and of the directory by which these are checked.

use crate::cases::Scene;
use crate::hss::key_of;
use crate::ots::signature_text;
use crate::text::{PartyText, fault_text};
use crate::words::Row;
use std::alloc::{AllocError, Global};
use std::io;
use zy_base::{Party, ReplicaId, View};
use zy_parts::Hate;
use zy_rows::not_a_line;
use zy_seal::{Directory, Sealer, check};

/// The party that signs.
#[derive(Drop)]
pub(crate) struct Seals {
    sealer: Option<Sealer>,
}

impl Seals {
    pub(crate) fn new() -> Seals {
        Seals { sealer: None }
    }

    fn begin(&mut self, alloc: Global, row: &Row) -> io::Result<String> {
        let party = row.party("party")?;
        let sealer = Sealer::new(alloc, party, key_of(alloc, row)?);
        let text = sealer_text(alloc, &sealer);
        self.sealer = Some(sealer);
        text
    }
}

impl Scene for Seals {
    fn step(&mut self, alloc: Global, row: &Row) -> io::Result<String> {
        match row.call()? {
            "begin" => self.begin(alloc, row),
            "seal" => match &mut self.sealer {
                Some(sealer) => seal(alloc, sealer, View(row.number("hated-view")?)),
                None => Err(not_a_line()),
            },
            "check" => checked(alloc, &directory(alloc, row)?, row),
            "check-by-copy" => checked(alloc, &directory(alloc, row)?.clone()?, row),
            "check-again" => checked(alloc, &knowing(alloc, row)?.clone()?, row),
            _ => Err(not_a_line()),
        }
    }
}

fn sealer_text(alloc: Global, sealer: &Sealer) -> io::Result<String> {
    let (next, left) = (sealer.next_leaf(), sealer.left());
    Ok(format!(in alloc;
        "party {} next {next} left {left}",
        PartyText(sealer.party())
    )?)
}

/// The number of the next signature and how many are left, after the statement is sealed, and the signature's length and SHA-256.
fn seal(alloc: Global, sealer: &mut Sealer, view: View) -> io::Result<String> {
    if view.0 >= 1 << 62 {
        return Err(not_a_line());
    }
    let text = match sealer.seal(Hate { view }) {
        Ok(signed) => signature_text(alloc, signed.sig.as_slice())?,
        Err(fault) => fault_text(alloc, &fault)?,
    };
    let (next, left) = (sealer.next_leaf(), sealer.left());
    Ok(format!(in alloc; "next {next} left {left} {text}")?)
}

/// The directory that has one key for its one replica and its one client.
fn directory(alloc: Global, row: &Row) -> io::Result<Directory> {
    let key = row.array("key")?;
    let replicas = one_key(alloc, key)?;
    Ok(Directory::new(alloc, replicas, one_key(alloc, key)?))
}

/// The same beside a store that keeps what the replica 0 signed, if that verifies.
fn knowing(alloc: Global, row: &Row) -> io::Result<Directory> {
    let directory = directory(alloc, row)?.with_store();
    let signer = Party::Replica(ReplicaId(0));
    check(
        &directory,
        signer,
        row.bytes("known-text")?,
        row.bytes("known-signature")?,
    );
    directory.take_in();
    Ok(directory)
}

fn one_key(alloc: Global, key: [u8; 60]) -> Result<Vec<[u8; 60]>, AllocError> {
    Ok(vec![in alloc; key]?)
}

fn checked(alloc: Global, directory: &Directory, row: &Row) -> io::Result<String> {
    let by = row.party("by")?;
    let text = row.bytes("text")?;
    let answer = check(directory, by, text, row.bytes("signature")?);
    Ok(format!(in alloc; "{answer:?}")?)
}
