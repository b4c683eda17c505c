//! Changes of view are lawful: what a replica that leaves a view, hears another's report, begins a view or installs a snapshot does is what
//! the law allows. The crate has no code: its functions are laws, which have no argument and do nothing, and whose contracts speak of all worlds
//! and all replicas.
#![tactic(auto)]

mod adopt;
mod adopted;
mod begin;
mod begins;
mod blameless;
mod blaming;
mod example;
mod frames;
mod heard;
mod held;
mod honest;
mod leaving;
mod resting;
mod rows;
mod speech;
mod states;
mod steps;
mod views;

pub use adopt::{never_refused, taking_over};
pub use adopted::installed_states;
pub use begin::{beginning_views, grounded_views, running_on};
pub use begins::{installing_states, taking_up};
pub use blameless::blame;
pub use blaming::{beginnings_blame_nobody, leaves_blame_nobody};
pub use example::{a_change_back, a_change_of_view, a_state_installed};
pub use frames::honest_frames;
pub use heard::{beginning_rows, fetched_states};
pub use held::held_certificates;
pub use honest::{held_reports, honest_news};
pub use leaving::{finished_rows, finished_timers};
pub use resting::resting_rows;
pub use rows::{heard_rows, leaving_rows};
pub use speech::{asking, speaking};
pub use states::transfer_rows;
pub use steps::{keeping, running, ties_begin};
pub use views::{confirming_views, giving_views, leaving_views};
