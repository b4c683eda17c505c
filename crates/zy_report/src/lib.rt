//! The lines that a run of the program writes.
#![tactic(auto)]

mod events;
mod key_file;
mod parts;
mod replicas;
mod replies;
mod summary;

pub use events::{done_line, refused_line};
pub use key_file::{key_line, key_lines};
pub use replicas::{agreed_line, replica_line};
pub use replies::reply_line;
pub use summary::summary_line;
