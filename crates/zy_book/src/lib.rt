//! The book of texts: one under each digest.
#![tactic(auto)]

mod book;
mod fault;
mod joined;

pub use book::Book;
pub use fault::KeepFault;
