//! Each step of a replica, in every view, is what the law allows, and what it says can be spelled, so that it is read back out of its text. The
//! crate has no code: its functions are laws, which have no argument and do nothing, and whose contracts speak of all worlds and all replicas.
#![tactic(auto)]

mod entries;
mod frames;
mod passed_on;
mod said;
mod same;
mod start;
mod steps;
mod ties;
mod whole;

pub use entries::working_rows;
pub use frames::leaving_refuses;
pub use passed_on::{
    clients_keep_what_was_said, clients_pass_on, replicas_keep_what_was_said, replicas_pass_on,
    statements_are_parts,
};
pub use said::said_back;
pub use same::same_keys;
pub use start::spelled_start;
pub use steps::spelled_steps;
pub use ties::works_begin;
pub use whole::{gained_entries, whole_steps};
