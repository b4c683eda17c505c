ghost use Rattle.std.specs.Prelude.{◌≡◌};
ghost use Rattle.zy_base.specs.Step.{view_of};

use crate::{Bytes, Cause, Digest, Items, Party, Place, View};

/// What a step of a replica or a client answers to.
#[derive(Debug, Drop)]
pub enum Event {
    /// The bytes of a frame came.
    Heard(Bytes),
    /// A timer ran out.
    Timer(TimerKind),
}

/// The timers of a replica, `Request` and `Change`, and of a client, `Answer`.
#[derive(Clone, Copy, Debug, PartialEq, Eq)]
pub enum TimerKind {
    /// A request waits to be executed, or a hole to be filled.
    Request,
    /// A view change waits for its view to begin.
    Change,
    /// A client waits for its answer.
    Answer,
}

/// What a step made of its event.
#[derive(Clone, Copy, Debug, PartialEq, Eq)]
pub enum Answer {
    /// It took effect.
    Taken,
    /// It was kept for later.
    Held,
    /// It was refused, for the first cause that holds, and nothing changed.
    Refused(Cause),
}

/// Whether a replica takes part in its view, or has left the one before and waits for this one to begin.
#[derive(Clone, Copy, Debug, PartialEq, Eq)]
pub enum Mode {
    Active(View),
    Leaving(View),
}

impl Mode {
    /// The replica's own view.
    pub fn view(&self) -> View
        ensures { result ≡ view_of self.now }
    {
        match self {
            Mode::Active(view) => *view,
            Mode::Leaving(view) => *view,
        }
    }
}

/// The timers that are to run after a step.
#[derive(Clone, Copy, Debug, PartialEq, Eq)]
pub struct Timers {
    pub request: bool,
    pub change: bool,
    pub answer: bool,
}

/// Where a replica stood when it signed a statement: its mode, and the length and head of its history.
#[derive(Clone, Copy, Debug, PartialEq, Eq)]
pub struct Stood {
    pub mode: Mode,
    pub length: Place,
    pub head: Digest,
}

/// A statement of a step, by the text that was signed.
#[derive(Debug, Drop)]
pub struct Spoken {
    pub text: Bytes,
    /// Where a replica stood then; a client has no history.
    pub stood: Option<Stood>,
    /// By how many pairs of view and history the step had gone on by then.
    pub pairs: u64,
}

/// The frames that a step sends, in order: to whom, and its bytes.
pub type Outgoing = Items<(Party, Bytes)>;

/// The statements that a step signed, in order.
pub type Said = Items<Spoken>;
