//! The program that tells what a run did, event by event: what was delivered, what was answered, signed and sent, and where the
//! party stands then.
#![tactic(auto)]

mod lines;
mod parts;
mod run;
mod statement;
mod telling;
mod tracing;
mod words;

use std::process::ExitCode;
use tracing::run_trace;
use zy_edge::{RealFiles, StdSink};
use zy_top_words::{Exit, ending, line_words};

fn main(rt: HostRuntime) -> ExitCode {
    let exit = match line_words(&rt, rt.alloc()) {
        Ok(words) => run_trace(
            rt.alloc(),
            &words,
            &mut RealFiles::new(&rt),
            &mut StdSink::new(&rt),
        ),
        Err(want) => Exit::from(want),
    };
    let (status, line) = ending(exit);
    if let Some(line) = line {
        // Where standard error fails too, the status alone tells.
        let _ = eprintln!(rt; "{line}");
    }
    ExitCode::from(status)
}
