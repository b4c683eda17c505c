//! Frames as datagrams: a frame is cut into pieces, and gathered again from pieces that come in any order.
#![tactic(auto)]

mod cutting;
mod gather;
mod gathering;
mod order;
mod piece;

pub use cutting::cut;
pub use gather::{Gather, Gathered};
pub use order::any_order;
pub use piece::{MAX_DATAGRAM, MAX_PAYLOAD, MAX_PIECES, PieceFault};
