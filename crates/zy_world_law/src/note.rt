use zy_base::{Cause, ClientId, Party};
use zy_table::Done;

/// What is told of an event.
#[derive(Debug, Drop)]
pub enum Note {
    Quiet,
    /// A request of this client became complete.
    Done(ClientId, Done),
    /// A party refused it, or the world did.
    Refused(Option<Party>, Cause),
}
