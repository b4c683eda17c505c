//! Runs the cases of the lower crates, which stand as lines in the files of `data/`, and prints for each table how many of its
//! rows agree. A row that doesn't is printed before, and then `stdout` differs, so that the gate fails.
//!
//! `words.rt` says how a table is written, `text.rt` how answers are. To add a table write its file into `data/`, its name into
//! `TABLES`, its last line into `stdout`, and one arm into `answer`; where its rows are steps that follow each other, one arm into
//! `run_table` in its place.
//!
//! A word on the command line names the one table that runs. To try it without any proof, in this folder:
//! `rt try --seconds 600 $(for t in $(ls data); do echo --data $t=data/$t; done) -- TABLE`.
#![tactic(auto)]

mod adoptions;
mod beginnings;
mod book;
mod cases;
mod certs;
mod chain;
mod changes;
mod checkpoints;
mod choices;
mod edge;
mod evidence;
mod frames;
mod group_files;
mod groups;
mod guard;
mod history;
mod hss;
mod journal;
mod kept_texts;
mod liars;
mod links;
mod lms;
mod orders;
mod ots;
mod owed;
mod parts;
mod pieces;
mod report;
mod schedule;
mod schedule_lines;
mod seal;
mod slots;
mod snapshots;
mod space;
mod statements;
mod text;
mod tuple;
mod values;
mod wide;
mod wire;
mod words;

use adoptions::Histories;
use cases::{Scene, run};
use changes::Machines;
use checkpoints::Board;
use choices::Reports;
use frames::Kinds;
use hss::HssKeys;
use lms::Keys;
use orders::Orders;
use seal::Seals;
use std::alloc::Global;
use std::io::ErrorKind;
use std::{env, io};
use words::Row;
use zy_base::{Digest, Machine};
use zy_book::Book;
use zy_cert::Votes;
use zy_guard::Guard;
use zy_parts::Local;
use zy_pieces::Gather;
use zy_rows::lacking;
use zy_space::Space;
use zy_world_setup::KeptTexts;

/// The files of `data/`, in the order in which they run.
const TABLES: [&str; 54] = [
    "group-numbers",
    "lists",
    "fields",
    "unlinked-values",
    "datagrams",
    "gathered-frames",
    "one-time-signatures",
    "keys",
    "verification",
    "seals",
    "entries-and-heads",
    "stretches",
    "operation-lines",
    "operation-bytes",
    "reply-lines",
    "reply-bytes",
    "templates",
    "signed-texts",
    "frames",
    "view-frames",
    "votes",
    "certificates",
    "misbehaviour",
    "checkpoints",
    "choices",
    "reports",
    "orders",
    "view-changes",
    "view-beginnings",
    "adoptions",
    "files-in-memory",
    "sinks-in-memory",
    "links-in-memory",
    "clocks",
    "space",
    "execution",
    "schedules",
    "long-schedules",
    "scripts",
    "made-schedules",
    "report-lines",
    "group-files",
    "secret-files",
    "texts",
    "frames-of-liars",
    "kept-texts",
    "journals",
    "two-level-keys",
    "two-level-verification",
    "wide-numbers",
    "calm-schedules",
    "guard-lines",
    "guard-replies",
    "guarded-space",
];

fn main(rt: HostRuntime) -> io::Result<()> {
    let only = env::args(&rt)?.nth(1);
    for table in TABLES {
        if is_wanted(&only, table) {
            run_table(&rt, table)?;
        }
    }
    Ok(())
}

/// Whether a table runs: each does where no word names one.
fn is_wanted(only: &Option<String>, table: &str) -> bool {
    match only {
        Some(name) => name.as_str() == table,
        None => true,
    }
}

/// Runs a table with what its rows share.
fn run_table(rt: &HostRuntime, table: &'static str) -> io::Result<()> {
    match table {
        "gathered-frames" => run(rt, table, Gather::new(rt.alloc())),
        "keys" => run(rt, table, Keys::new()),
        "seals" => run(rt, table, Seals::new()),
        "votes" => run(rt, table, Votes::<Local>::new(rt.alloc(), 0)),
        "checkpoints" => run(rt, table, Board::new(rt.alloc(), Digest([0; 32]))),
        "choices" => run(rt, table, Reports::new(rt.alloc())?),
        "orders" => run(rt, table, Orders::new(rt.alloc())),
        "view-changes" | "view-beginnings" => run(rt, table, Machines::new(rt.alloc())?),
        "adoptions" => run(rt, table, Histories::new(rt.alloc())?),
        "links-in-memory" => run(rt, table, links::silent(rt.alloc())?),
        "space" => run(rt, table, Space::empty(rt.alloc()).map_err(lacking)?),
        "guarded-space" => run(rt, table, Guard::empty(rt.alloc()).map_err(lacking)?),
        "execution" => run(rt, table, history::begun(rt.alloc())?),
        "frames-of-liars" => run(rt, table, liars::keyring(rt.alloc())?),
        "kept-texts" => run(rt, table, KeptTexts::new(rt.alloc()).map_err(lacking)?),
        "texts" => run(rt, table, Book::new(rt.alloc())),
        "two-level-keys" => run(rt, table, HssKeys::new()),
        _ => run(rt, table, Calls(table)),
    }
}

/// A table whose rows are calls apart from each other.
#[derive(Drop)]
struct Calls(&'static str);

impl Scene for Calls {
    fn step(&mut self, alloc: Global, row: &Row) -> io::Result<String> {
        answer(alloc, self.0, row)
    }
}

/// What the call of a row answers.
fn answer(alloc: Global, table: &str, row: &Row) -> io::Result<String> {
    match table {
        "group-numbers" => groups::numbers(alloc, row),
        "lists" => groups::lists(alloc, row),
        "fields" => wire::fields(alloc, row),
        "unlinked-values" => slots::steps(alloc, row),
        "datagrams" => pieces::datagram(alloc, row),
        "one-time-signatures" => ots::signatures(alloc, row),
        "verification" => lms::verified(alloc, row),
        "entries-and-heads" => chain::entries(alloc, row),
        "stretches" => chain::stretches(alloc, row),
        "operation-lines" => tuple::op_line(alloc, row),
        "operation-bytes" => tuple::op_spelling(alloc, row),
        "reply-lines" => tuple::reply_line(alloc, row),
        "reply-bytes" => tuple::reply_spelling(alloc, row),
        "templates" => tuple::template(alloc, row),
        "signed-texts" => parts::text(alloc, row),
        "frames" => frames::answer(alloc, Kinds::Plain, row),
        "view-frames" => frames::answer(alloc, Kinds::Views, row),
        "certificates" => certs::certificate(alloc, row),
        "misbehaviour" => certs::misbehaviour(alloc, row),
        "reports" => evidence::judged(alloc, row),
        "files-in-memory" => edge::files(alloc, row),
        "sinks-in-memory" => edge::sinks(alloc, row),
        "clocks" => edge::clocks(alloc, row),
        "schedules" => schedule::schedules(alloc, row),
        "long-schedules" => schedule::long_schedules(alloc, row),
        "scripts" => schedule::scripts(alloc, row),
        "made-schedules" => schedule::made(alloc, row),
        "report-lines" => report::lines(alloc, row),
        "group-files" => group_files::groups(alloc, row),
        "secret-files" => group_files::secrets(alloc, row),
        "journals" => journal::journal(alloc, row),
        "two-level-verification" => hss::verified(alloc, row),
        "wide-numbers" => wide::numbers(alloc, row),
        "calm-schedules" => wide::schedule(alloc, row),
        "guard-lines" => guard::line(alloc, row),
        "guard-replies" => guard::reply(alloc, row.bytes("bytes")?),
        _ => Err(io::Error::from(ErrorKind::NotFound)),
    }
}
