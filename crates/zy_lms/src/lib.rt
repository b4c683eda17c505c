//! Hash-based signatures LMS over SHA-256 (RFC 8554, section 5), with trees of height 5 and 10, and HSS of two levels of
//! them (section 6).
//!
//! A key signs by one leaf after another and never by one leaf twice.
#![tactic(auto)]

mod derived;
mod height;
mod hss;
mod hss_verification;
mod key;
mod laws;
mod lower;
mod tree;
mod verification;

pub use height::Height;
pub use hss::HssKey;
pub use hss_verification::hss_verify;
pub use key::{LmsKey, SignFault};
pub use laws::{hss_signatures, signatures};
pub use verification::verify;
