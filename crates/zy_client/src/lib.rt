//! The client's core: it asks, keeps the replicas' responses, and decides from them when its request is complete.
#![tactic(auto)]

mod asking;
mod client;
mod commits;
mod laws;
mod misbehaviour;
mod moved;
mod responses;
mod step;

pub use client::{Client, ClientStepped};
pub use laws::held_responses;
pub use zy_table::{Done, Path};
