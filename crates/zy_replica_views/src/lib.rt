//! A change of view at one replica: how it leaves its view, how a step ends that can make a view begin, and how the next view begins, with the
//! history that was chosen or with the wait for the snapshot on which that history stands. What a step owes is carried out, and that is what the
//! answer table says.
#![tactic(auto)]

mod adopting;
mod beginning;
mod confirming;
mod copies;
mod ending;
mod ending_laws;
mod fetching;
mod judging;
mod judging_laws;
mod leaving;
mod leaving_laws;
mod responding;
mod waiting;

pub use confirming::{confirmation, new_view, view_certificate};
pub use ending::carry;
pub use fetching::{fetch, state_transfer};
pub use judging::{Ending, judge_owed};
