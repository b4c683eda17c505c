//! The six frames of a view change, decoded, encoded, and taken apart into what was signed.
#![tactic(auto)]

mod coding;
mod frame;
mod framed;
mod laws;
mod part_list;

pub use coding::{decode, encode};
pub use frame::{ViewCert, ViewFrame};
pub use laws::view_frames;
pub use part_list::parts;
pub use zy_wire::{EncodeFault, GetFault as DecodeFault};
