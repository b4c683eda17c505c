//! The outside as the program sees it: files that are read, a sink that is written to, a link on which datagrams come and
//! go, and a clock. Each object counts its own faults, and a call answers `Failed` only where that count rose in the call.
#![tactic(auto)]

mod calls;
mod clock;
mod faults;
mod files;
mod link;
mod sink;

pub use calls::Calls;
pub use clock::Clock;
pub use clock::memory::MemClock;
pub use clock::real::RealClock;
pub use faults::raised;
pub use files::calm::CalmFiles;
pub use files::memory::MemFiles;
pub use files::real::RealFiles;
pub use files::{Chosen, Files, Read};
pub use link::binding::{Address, Binding};
pub use link::memory::{MAX_PARCEL, MemLink};
pub use link::udp::UdpLink;
pub use link::{Bound, Heard, Link, Sent};
pub use sink::calm::CalmSink;
pub use sink::memory::MemSink;
pub use sink::stdout::StdSink;
pub use sink::{Sink, Wrote};
