//! Calm runs: a short schedule under a correct primary, with some replicas silent and nothing lost, serves every request in order, unless
//! two texts share a digest. The crate has no code: its functions are laws, which have no argument and do nothing.
#![tactic(auto)]

mod example;
mod runs;
mod wide;

pub use example::a_calm_schedule;
pub use runs::calm_runs;
pub use wide::wide_schedules;
