//! The replica: bytes or a timer go in, an answer and the frames to send come out, and each step is that of the answer
//! table.
#![tactic(auto)]

mod asking;
mod changes;
mod hates;
mod judging;
mod misbehaviour;
mod outcome;
mod own_hate;
mod replica;
mod roles;
mod step;
mod timers;

pub use replica::{Replica, Stepped};
pub use zy_table::{Gains, Got};
