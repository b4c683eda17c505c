//! What the laws of steps share: a step's deeds as acts of the law, and what the rows of normal operation can come to. The crate has no code: its
//! functions are laws, which have no argument and do nothing, and whose contracts speak of all worlds and all replicas.
#![tactic(auto)]

mod example;
mod ties;

pub use example::a_first_request;
pub use ties::acts_told;
