//! The table `adoptions`: how a replica takes up the history with which a view begins. The own history is an execution as in the
//! table `execution`, and the other one is run in a tuple space too.

ghost use Rattle.std.specs.Prelude.{◌≡◌, Some, All, IfOk, IsTrue};
ghost use Rattle.zy_chain.specs.Entries.{IsEntryInRange, IsOfClients};
ghost use Rattle.zy_chain.specs.Stretch.{head_in};
ghost use Rattle.zy_evidence.specs.Reading.{stretch_of};
ghost use Rattle.zy_parts.specs.Reports.{IsToldInRange};

use crate::cases::Scene;
use crate::history::{begun, range};
use crate::statements::{next, spelled};
use crate::text::cause_text;
use crate::values::MaybeHex;
use crate::words::Row;
use sha2::{Digest as Hasher, Sha256};
use std::alloc::Global;
use std::io;
use zy_base::{Bytes, Digest, Items, Place, ReplicaId, View};
use zy_chain::{EMPTY_HEAD, Entry};
use zy_evidence::read;
use zy_exec::Exec;
use zy_parts::{Check, Told};
use zy_replica_adopt::{judge, take_over, verdicts};
use zy_rows::{Hex, lacking, not_a_line};
use zy_space::Space;
use zy_table::{Gains, Got, Verdict};
use zy_wire::Cut;

/// The own history, and what was gained last.
#[derive(Drop)]
pub(crate) struct Histories {
    exec: Exec<Space>,
    gains: Gains,
}

/// What came of a report: its history is taken up from a place on, or isn't.
#[derive(Drop)]
enum Taking {
    Taken(Place, Gains),
    Not(Verdict),
}

impl Histories {
    pub(crate) fn new(alloc: Global) -> io::Result<Histories> {
        Ok(Histories {
            gains: Items::new(alloc),
            exec: begun(alloc)?,
        })
    }

    /// Begins anew: runs some entries, and settles a place.
    fn begin(&mut self, alloc: Global, row: &Row) -> io::Result<String> {
        let settled = Place(row.number("settled")?);
        self.exec = begun(alloc)?;
        run_all(alloc, &mut self.exec, row.bytes("entries")?)?;
        if settled < self.exec.base() || settled > self.exec.end() {
            return Err(not_a_line());
        }
        self.exec.settle(settled);
        range(alloc, &self.exec)
    }

    /// Takes up what a report gives up to a place, where it can be taken up.
    fn adopt(&mut self, alloc: Global, row: &Row) -> io::Result<String> {
        let place = Place(row.number("place")?);
        let stable = stable_of(&self.exec, Digest(row.array("state")?));
        let told = spelled::<Told>(alloc, row.bytes("told")?)?;
        let taking = take(alloc, &mut self.exec, &stable, &told, place)?;
        self.taken(alloc, taking)
    }

    fn taken(&mut self, alloc: Global, taking: Taking) -> io::Result<String> {
        match taking {
            Taking::Not(verdict) => verdict_text(alloc, &verdict),
            Taking::Taken(common, gains) => {
                self.gains = gains;
                Ok(format!(in alloc; "Take common {} gained {}", common.0, self.gains.len())?)
            }
        }
    }

    fn gained(&self, alloc: Global, number: u64) -> io::Result<String> {
        match self.gains.as_slice().get(number as usize) {
            None => Ok(String::from_str(alloc, "none")?),
            Some(got) => got_text(alloc, got),
        }
    }
}

impl Scene for Histories {
    fn step(&mut self, alloc: Global, row: &Row) -> io::Result<String> {
        match row.call()? {
            "begin" => self.begin(alloc, row),
            "adopt" => self.adopt(alloc, row),
            "gained" => self.gained(alloc, row.number("number")?),
            "stands" => range(alloc, &self.exec),
            _ => Err(not_a_line()),
        }
    }
}

fn run_all(alloc: Global, exec: &mut Exec<Space>, bytes: &[u8]) -> io::Result<()> {
    let mut cut = Cut::new(bytes);
    for _ in 0..bytes.len() {
        if cut.end().is_ok() {
            break;
        }
        run(exec, next::<Entry>(alloc, &mut cut)?)?;
    }
    Ok(())
}

fn run(exec: &mut Exec<Space>, entry: Entry) -> io::Result<()>
    requires { IsEntryInRange entry }
{
    if entry.client.0 >= 64 || exec.end().0 >= (1 << 62) - 1 {
        return Err(not_a_line());
    }
    match exec.run(entry) {
        Ok(_) => Ok(()),
        Err((_, want)) => Err(lacking(want)),
    }
}

/// The own stable checkpoint, whose snapshot has this digest.
fn stable_of(exec: &Exec<Space>, state: Digest) -> Check
    ensures place { result.place.0 ≡ exec.now.base.place }
    ensures head { result.head ≡ exec.now.base.head }
{
    let place = exec.base();
    Check {
        view: View(0),
        place,
        head: exec.head_at(place).unwrap_or(EMPTY_HEAD),
        state,
    }
}

fn take(
    alloc: Global,
    exec: &mut Exec<Space>,
    stable: &Check,
    told: &Told,
    place: Place,
) -> io::Result<Taking>
    requires told { IsToldInRange told.now }
    requires place { stable.now.place.0 ≡ exec.old.base.place }
    requires head { stable.now.head ≡ exec.old.base.head }
{
    verdicts::<Space>();
    let head = head_told(alloc, told, place)?;
    if place.0 >= 1 << 62 || !has_clients(told) {
        return Err(not_a_line());
    }
    match judge(exec, stable, told, place, &head) {
        Verdict::Take => {
            let (common, gains) = take_over(alloc, exec, told, place).map_err(lacking)?;
            Ok(Taking::Taken(common, gains))
        }
        verdict => Ok(Taking::Not(verdict)),
    }
}

/// The report's head at a place.
fn head_told(alloc: Global, told: &Told, place: Place) -> io::Result<Digest>
    requires { IsToldInRange told.now }
    ensures { IfOk result (λ head. head_in (stretch_of told.now) place.0 ≡ Some head) }
{
    match read(alloc, ReplicaId(0), told) {
        Err(want) => Err(lacking(want)),
        Ok(report) => match report.spine.head_at(place) {
            None => Err(not_a_line()),
            Some(head) => Ok(head),
        },
    }
}

fn has_clients(told: &Told) -> bool
    ensures { IsTrue result → All IsOfClients told.now.entries }
{
    told.entries.as_slice().iter().all(|e| e.client.0 < 64)
}

fn verdict_text(alloc: Global, verdict: &Verdict) -> io::Result<String> {
    match verdict {
        Verdict::Take => Ok(String::from_str(alloc, "Take")?),
        Verdict::Wait => Ok(String::from_str(alloc, "Wait")?),
        Verdict::Refuse(cause) => cause_text(alloc, cause),
    }
}

/// An entry that was executed: its place, the heads before and after it, its reply, and the digest of the snapshot there.
fn got_text(alloc: Global, got: &Got) -> io::Result<String> {
    let snapshot = got.snapshot.as_ref().map(digest_of);
    let snapshot = MaybeHex(snapshot.as_ref().map(|digest| digest.as_slice()));
    Ok(format!(in alloc;
        "place {} before {} client {} stamp {} op {} head {} reply {} snapshot {}",
        got.place.0,
        Hex(&got.before.0),
        got.entry.client.0,
        got.entry.stamp.0,
        Hex(got.entry.op.as_slice()),
        Hex(&got.head.0),
        Hex(got.reply.as_slice()),
        snapshot
    )?)
}

fn digest_of(bytes: &Bytes) -> [u8; 32] {
    Sha256::digest(bytes.as_slice())
}
