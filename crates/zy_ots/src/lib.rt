//! One-time signatures LM-OTS over SHA-256 (RFC 8554, section 4): the types of width 4 and 8.
//!
//! A key is named by its identifier, its leaf number and a secret seed. It must sign one message
//! alone, which the layer above sees to.
#![tactic(auto)]

mod chain_block;
mod digits;
mod one_time;
mod ots_type;

pub use digits::{checksum, coef, u32_at};
pub use one_time::{ots_public, ots_recover, ots_sign, ots_sign_onto, prefix_hasher};
pub use ots_type::OtsType;
