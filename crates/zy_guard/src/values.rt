//! What a guarded space holds, and its operations and replies.

use zy_base::ClientId;
use zy_tuple::{Reply, Template, Tuple};

/// A set of clients from 0 to 63: bit i stands for client i.
#[derive(Clone, Copy, Debug)]
pub struct ClientSet(pub u64);

/// Who may read a tuple, and who may take it.
#[derive(Clone, Copy, Debug)]
pub struct Access {
    pub readers: ClientSet,
    pub takers: ClientSet,
}

/// A tuple in the space, and the client that put it there.
#[derive(Debug, Drop)]
pub struct Owned {
    pub owner: ClientId,
    pub access: Access,
    pub tuple: Tuple,
}

/// An operation of the guarded space. It concerns the tuples alone that its client may read.
#[derive(Debug, Drop)]
pub enum GuardOp {
    /// Puts a tuple at the end.
    Out(Access, Tuple),
    /// Reads the oldest match.
    Rdp(Template),
    /// Takes the oldest match out.
    Inp(Template),
    /// Puts the tuple at the end where none matches the template.
    Cas(Template, Access, Tuple),
}

/// Why an operation was denied.
#[derive(Clone, Copy, Debug)]
pub enum Denial {
    /// The client isn't one of the 64.
    UnknownClient,
    /// The client may not read the tuple that it puts in.
    OwnerNotReader,
    /// A taker of the tuple that is put in is none of its readers.
    TakerNotReader,
    /// The client may read the oldest match, and may not take it.
    NotTaker,
}

/// What the guarded space answers.
#[derive(Debug, Drop)]
pub enum GuardReply {
    /// What the tuple space answers as well.
    Plain(Reply),
    Denied(Denial),
}
