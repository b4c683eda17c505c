//! What a replica's report must prove as it leaves a view, judged, and read for the choice of the new view's history.
#![tactic(auto)]

mod judging;
mod laws;
mod proven;
mod reading;
mod rule;

pub use judging::report_in;
pub use laws::well_formed_reports;
pub use reading::read;
pub use rule::{ReportFault, Rule};
