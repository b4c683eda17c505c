//! The program: the real files, standard output, loopback, the clock and a disk for the top call, which has the theorem.
#![tactic(auto)]

use std::process::ExitCode;
use zy_edge::{RealClock, RealFiles, StdSink, UdpLink};
use zy_journal::RealDisk;
use zy_top::zyzzyva;
use zy_top_words::{Exit, ending, line_words};

fn main(rt: HostRuntime) -> ExitCode {
    let exit = match line_words(&rt, rt.alloc()) {
        Ok(words) => zyzzyva(
            &rt,
            rt.alloc(),
            &words,
            &mut RealFiles::new(&rt),
            &mut StdSink::new(&rt),
            &mut UdpLink::new(&rt),
            &mut RealClock::new(&rt),
            &mut RealDisk::new(&rt),
        ),
        Err(want) => Exit::from(want),
    };
    let (status, line) = ending(exit);
    if let Some(line) = line {
        // Where standard error fails too, the status alone tells.
        let _ = eprintln!(rt; "{line}");
    }
    ExitCode::from(status)
}
