//! The wide profile: with 5f + 1 replicas a client completes at once though f of them are silent. Its numbers, and the lines of a
//! calm schedule, in which some replicas are silent and a client puts one job after another in.
#![tactic(auto)]

mod lines;
mod numbers;

pub use lines::calm;
pub use numbers::wide;
