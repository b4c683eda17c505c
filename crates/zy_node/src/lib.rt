//! A core on the network: what a replica or a client sends and hears as datagrams over any link, and when its timers run
//! out by any clock.
#![tactic(auto)]

mod asker;
mod asking;
mod cores;
mod due;
mod fault;
mod host;
mod keeping;
mod kept;
mod laws;
mod node;
mod owing;
mod records;
mod recovering;
mod sending;

pub use asker::{Asked, Asker, Begun};
pub use asking::ask_over;
pub use cores::{Core, Moved};
pub use due::Due;
pub use fault::{AskFault, GiveFault, NodeFault, RecoverFault, TakeFault};
pub use host::Host;
pub use kept::{KeptNode, Unsent};
pub use laws::{stored_before_sent, stored_events};
pub use node::Node;
