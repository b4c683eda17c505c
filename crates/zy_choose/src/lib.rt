//! The choice of the history with which a new view begins, out of the reports of those that left the views before.
#![tactic(auto)]

mod choice;
mod furthest;
mod laws;
mod report;
mod rules;

pub use choice::{Choice, choose};
pub use laws::one_answer;
pub use report::{Report, ReportRule};
pub use rules::well_formed;
