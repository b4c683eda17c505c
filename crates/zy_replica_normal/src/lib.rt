//! Normal operation: what a replica that is active in its view makes of each frame, row by row of the answer table, and what that does to it
//! in several changes: an order is run, and what is kept at the multiples of the checkpoint interval is looked through.
#![tactic(auto)]

mod checkpoints;
mod commits;
mod confirms;
mod gathering;
mod holes;
mod orders;
mod requests;
mod rows;
mod running;

pub use orders::{judge, order_as};
pub use requests::hear_request;
pub use rows::{
    checkpoint_in_view, commit_in_view, confirm_in_view, hole_in_view, response_in_view,
};
