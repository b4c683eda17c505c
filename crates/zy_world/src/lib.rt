//! The world of a replay: all parties by their cores, the frames that were sent, the texts that are kept, and what each event
//! of a schedule makes of them.
#![tactic(auto)]

mod agreed;
mod bag;
mod batch;
mod events;
mod fault;
mod flow;
mod going;
mod hands;
mod liars;
mod lying;
mod marks;
mod mutes;
mod readers;
mod seat;
mod seats;
mod start;
mod step;
mod tale;
mod world;

pub use bag::Mail;
pub use events::WorldStepped;
pub use fault::WorldFault;
pub use flow::{FlowFault, Flowed};
pub use hands::{Hands, PlainHands};
pub use world::World;
pub use zy_replica::Replica;
