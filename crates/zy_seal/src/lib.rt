//! Signed statements: a party signs with its own key of two levels of LMS keys (RFC 8554), and anyone checks by a directory of public keys.
#![tactic(auto)]

mod derived;
mod directory;
mod known;
mod laws;
mod screening;
mod sealer;
mod sizes;
mod store;

pub use derived::{party_id, party_seed};
pub use directory::{Directory, SealAnswer, check};
pub use laws::seals;
pub use screening::screen_parts;
pub use sealer::{SealFault, Sealer};
pub use sizes::{signature_count, signature_len, signature_number};
