//! What each row of the answer tables comes to in a calm run: the primary is correct, nothing is lost, and what is asked for next is
//! ordered next. The crate has no code: its functions are laws, which have no argument and do nothing.
#![tactic(auto)]

mod client;
mod heard;
mod replica;

pub use client::{calm_asks, calm_locals, calm_responses, calm_timers, late_answers};
pub use heard::frames_heard;
pub use replica::{calm_commits, calm_orders, calm_requests};
