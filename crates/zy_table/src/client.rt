use zy_base::{Bytes, Digest, Place, Stamp, View};
use zy_cert::Votes;
use zy_parts::{Local, Order, Signed, Spec};

/// How a request became complete: on matching responses alone, or on local commits of a commit certificate.
#[derive(Clone, Copy, Debug, PartialEq, Eq)]
pub enum Path {
    Fast,
    Slow,
}

/// A request that is complete: its stamp, where it stands, and its reply.
#[derive(Clone, Debug, Drop)]
pub struct Done {
    pub stamp: Stamp,
    pub view: View,
    pub place: Place,
    pub head: Digest,
    pub path: Path,
    pub reply: Bytes,
}

/// A replica's speculative response as a client keeps it.
#[derive(Clone, Debug, Drop)]
pub struct Response {
    pub spec: Signed<Spec>,
    pub reply: Bytes,
    pub order: Option<Signed<Order>>,
}

/// The commit certificate that a client sent: what its responses say, the reply of the first of them, and the local
/// commits to it.
#[derive(Debug, Drop)]
pub struct Commit {
    pub spec: Spec,
    pub reply: Bytes,
    pub locals: Votes<Local>,
}
