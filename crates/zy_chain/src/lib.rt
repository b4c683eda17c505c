//! Histories: entries as bytes, their digests, and the heads of lists of them.
#![tactic(auto)]

mod answers;
mod entry;
mod fields;
mod spine;

pub use answers::answers_digest;
pub use entry::{EMPTY_HEAD, Entry, entry_bytes, entry_digest, next_head, request_digest};
pub use spine::Spine;
