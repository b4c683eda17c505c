//! Statements that several replicas sign alike: votes that are counted, certificates that are checked, and two orders that
//! prove a primary's misbehaviour.
#![tactic(auto)]

mod certificate;
mod laws;
mod located;
mod matching;
mod misbehaviour;
mod signers;
mod votes;

pub use certificate::check_cert;
pub use laws::{certificates, conflicts, equal_votes, signers_and_statements};
pub use located::Located;
pub use matching::Matching;
pub use misbehaviour::pom;
pub use signers::{has_repeat, has_signer};
pub use votes::{Vote, Votes};
