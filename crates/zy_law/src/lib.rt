//! Safety over all views, for every world in which the correct replicas keep the rules of lawful conduct. Each function
//! here is a law: it has no argument and does nothing, and its contract speaks of all worlds.
#![tactic(auto)]

mod agreement;
mod conduct;
mod example;
mod results;
mod steps;

pub use agreement::{choice_extends, fixed_for_good, no_clash, one_view, quorums, views};
pub use conduct::stays_conduct;
pub use example::a_lawful_world;
pub use results::{completions, histories, proven_states};
pub use steps::stays_lawful;
