//! The machine of view changes: what a replica hears and keeps of hates, reports, new views and confirmations, when it leaves its
//! view and when it begins the next, and what each of these owes. It signs nothing.
#![tactic(auto)]

mod ahead;
mod beginning;
mod entering;
mod giving;
mod judging;
mod kept;
mod laws;
mod machine;
mod owed;
mod owing;
mod slots;
mod telling;

pub use entering::{began, new_view, view_cert};
pub use kept::{Accepted, Certificate, Chosen, Waiting};
pub use laws::{certificates, providers, true_reports};
pub use machine::ViewMachine;
pub use owed::{Adoption, Owed};
pub use owing::adoption;
