//! The commands `node`, `serve` and `ask`: a replica, one whose events a journal keeps, or a client with one request, over any
//! files, any sink, any link and any clock, and any disk.
#![tactic(auto)]

mod ask;
mod files;
mod node;
mod seat;
mod serving;
mod telling;

pub use ask::run_ask;
pub use node::run_node;
pub use serving::run_serve;
pub use telling::completion_line;
