//! What a world begins with and what it keeps: how many parties there are and which of them lie, the keys of all of them, the frames that liars
//! sign, one text under each SHA-256 value, and the texts that each correct party signed.
#![tactic(auto)]

mod fault;
mod frames;
mod gains;
mod joined;
mod kept;
mod keyring;
mod liar;
mod reading;
mod reports;
mod said;
mod setup;
mod tellable;
mod text_set;

pub use fault::TextFault;
pub use frames::request_in;
pub use kept::KeptTexts;
pub use keyring::{Keyring, sealer_at};
pub use liar::{order_frame, spec_frame};
pub use reading::read_frame;
pub use said::SaidTexts;
pub use setup::Setup;
pub use tellable::{Tellable, read_statement};
