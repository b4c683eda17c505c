//! What a replica keeps of the others' responses and checkpoints at the multiples of the checkpoint interval, and the
//! checkpoint that is stable, with its proof.
#![tactic(auto)]

mod checkpoints;
mod judging;
mod kept;
mod laws;
mod round;
mod states;
mod tally;
mod votes;

pub use checkpoints::Checkpoints;
pub use kept::Kept;
pub use laws::{boards, kept_votes, stays};
pub use states::{StateFault, take_state};
