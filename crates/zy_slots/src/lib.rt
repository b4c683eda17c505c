//! Values in a vector of linked slots: in the order of their insertion, and in 64 chains. What is unlinked goes back to
//! its old place where its neighbours stand as they did (Knuth, Dancing Links, 2000).
#![tactic(auto)]

mod cells;
mod index;
mod link;
mod ring;
mod slot;
mod slots;

pub use slots::{SlotId, Slots};
