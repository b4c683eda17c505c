ghost use Rattle.std.specs.Prelude.{◌≡◌};
ghost use Rattle.zy_base.specs.Cause.{number_of, name_of};

use crate::{Digest, FrameFault, Place, Stamp};
use std::fmt;

/// Why a frame, a timer or a request was refused.
#[derive(Clone, Copy, PartialEq, Eq)]
pub enum Cause {
    /// The bytes are no frame, and why.
    NotFrame(FrameFault),
    /// A part of the frame is signed by a party outside the group.
    UnknownParty,
    /// A part's signature doesn't verify under its signer's key.
    BadSignature,
    /// The signer or the receiver may not say or hear this.
    WrongRole,
    /// The view is below the own one.
    OldView,
    /// The view is above the own one.
    NewerView,
    /// The replica has left its view and has not begun the next one.
    NotActive,
    /// The place is settled, or nothing is kept for it any more.
    OldPlace,
    /// The order's history isn't the own one with one entry more.
    WrongHead,
    /// The client's stamp is below one that was heard from it.
    OldStamp,
    /// The place is past the last one that may be ordered, which is given.
    WindowFull(Place),
    /// It was heard already.
    Repeat,
    /// The list has only so many statements.
    TooFew(u64),
    /// The statements of the list differ, or are too many.
    Mixed,
    /// It belongs to nothing that is kept or waited for.
    Unmatched,
    /// The two orders don't contradict each other.
    NoConflict,
    /// Two heads stand at the furthest proven place.
    AnchorClash(Digest, Digest),
    /// A view-change report breaks the rule with this number.
    BadReport(u8),
    /// The own head, or another one, stands at that place: the own and the other.
    OtherHistory(Digest, Digest),
    /// The replica has not come to the place.
    Behind(Place),
    /// The choice goes below the stable place, or past another head there: the own and the other.
    BelowStable(Digest, Digest),
    /// The digest of the state differs: the wanted and the other.
    WrongState(Digest, Digest),
    /// The step would sign more statements than the key has leaves left.
    KeySpent,
    /// No request is waited for.
    Finished,
    /// The bytes are no snapshot.
    NotState,
    /// An earlier request, with this stamp, still waits.
    Waiting(Stamp),
    /// The event speaks of a frame or a party that isn't there.
    NoSubject,
}

impl Cause {
    /// Its number in reports, from 1 to 27.
    pub fn number(&self) -> u8
        ensures { result ≡ number_of self.now }
    {
        match self {
            Cause::NotFrame(..) => 1,
            Cause::UnknownParty => 2,
            Cause::BadSignature => 3,
            Cause::WrongRole => 4,
            Cause::OldView => 5,
            Cause::NewerView => 6,
            Cause::NotActive => 7,
            Cause::OldPlace => 8,
            Cause::WrongHead => 9,
            Cause::OldStamp => 10,
            Cause::WindowFull(..) => 11,
            Cause::Repeat => 12,
            Cause::TooFew(..) => 13,
            Cause::Mixed => 14,
            Cause::Unmatched => 15,
            Cause::NoConflict => 16,
            Cause::AnchorClash(..) => 17,
            Cause::BadReport(..) => 18,
            Cause::OtherHistory(..) => 19,
            Cause::Behind(..) => 20,
            Cause::BelowStable(..) => 21,
            Cause::WrongState(..) => 22,
            Cause::KeySpent => 23,
            Cause::Finished => 24,
            Cause::NotState => 25,
            Cause::Waiting(..) => 26,
            Cause::NoSubject => 27,
        }
    }

    /// Its name in reports.
    pub fn name(&self) -> &'static str
        ensures { result.now ≡ name_of self.now }
    {
        match self {
            Cause::NotFrame(..) => "NotFrame",
            Cause::UnknownParty => "UnknownParty",
            Cause::BadSignature => "BadSignature",
            Cause::WrongRole => "WrongRole",
            Cause::OldView => "OldView",
            Cause::NewerView => "NewerView",
            Cause::NotActive => "NotActive",
            Cause::OldPlace => "OldPlace",
            Cause::WrongHead => "WrongHead",
            Cause::OldStamp => "OldStamp",
            Cause::WindowFull(..) => "WindowFull",
            Cause::Repeat => "Repeat",
            Cause::TooFew(..) => "TooFew",
            Cause::Mixed => "Mixed",
            Cause::Unmatched => "Unmatched",
            Cause::NoConflict => "NoConflict",
            Cause::AnchorClash(..) => "AnchorClash",
            Cause::BadReport(..) => "BadReport",
            Cause::OtherHistory(..) => "OtherHistory",
            Cause::Behind(..) => "Behind",
            Cause::BelowStable(..) => "BelowStable",
            Cause::WrongState(..) => "WrongState",
            Cause::KeySpent => "KeySpent",
            Cause::Finished => "Finished",
            Cause::NotState => "NotState",
            Cause::Waiting(..) => "Waiting",
            Cause::NoSubject => "NoSubject",
        }
    }
}

impl fmt::Debug for Cause {
    fn fmt<W: fmt::Write>(&self, f: &mut fmt::Formatter<W>) -> fmt::Result {
        f.write_str(self.name())
    }
}
