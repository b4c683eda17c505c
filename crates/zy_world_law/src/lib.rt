//! The world of a replay and its law: what each event of a schedule makes of all parties, the frames and the kept texts, as
//! definitions; that every run is safe, that what correct parties keep in it is backed, and that no correct replica is blamed in one. The functions here are laws, which have no
//! argument and do nothing.
#![tactic(auto)]

mod backed;
mod blame;
mod event;
mod example;
mod faithful;
mod honest;
mod note;
mod runs;

pub use backed::what_is_kept_is_backed;
pub use blame::no_correct_replica_is_blamed;
pub use event::WorldEvent;
pub use example::a_small_run;
pub use faithful::no_run_is_forged;
pub use honest::honest_keeps;
pub use note::Note;
pub use runs::runs_are_safe;
