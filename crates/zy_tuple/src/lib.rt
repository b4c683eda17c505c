//! Tuples, templates, operations and replies of the tuple space (DepSpace, EuroSys 2008), and their texts.
#![tactic(auto)]

mod fault;
mod matching;
mod parties;
mod reading;
mod spelling;
mod values;
mod writing;

pub use fault::{LineFault, OpFault, ReplyFault};
pub use matching::matches;
pub use parties::{party_text_put, party_text_read};
pub use reading::{numeral, op_text_read, reply_text_read};
pub use spelling::{op_bytes, op_read, reply_bytes, reply_read, tuple_get, tuple_put};
pub use values::{Field, Op, Reply, Slot, Template, Tuple};
pub use writing::{op_text, reply_text, reply_text_put};
