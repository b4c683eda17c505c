//! What the tables of cases have in common: bytes and answers as words, causes by their names, and how many rows agree.
#![tactic(auto)]

mod answers;
mod causes;
mod digits;
mod faults;
mod names;
mod parts;
mod tables;

pub use answers::wanted;
pub use causes::put_cause;
pub use digits::Hex;
pub use faults::{lacking, not_a_line};
pub use names::Names;
pub use parts::{number, number_of, value_bytes};
pub use tables::{Answered, Table, run_table};
