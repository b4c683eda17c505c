//! The numbers, names and bytes that every crate of Zyzzyva speaks of.
#![tactic(auto)]

mod bytes;
mod cause;
mod counts;
mod frame_fault;
mod ids;
mod items;
mod machine;
mod restore_fault;
mod step;
mod steps;
mod want;

pub use bytes::Bytes;
pub use cause::Cause;
pub use counts::Counts;
pub use frame_fault::FrameFault;
pub use ids::{ClientId, Digest, Party, Place, ReplicaId, Stamp, View};
pub use items::Items;
pub use machine::Machine;
pub use restore_fault::RestoreFault;
pub use step::{Answer, Event, Mode, Outgoing, Said, Spoken, Stood, TimerKind, Timers};
pub use steps::Steps;
pub use want::Want;
