use zy_base::{Bytes, Items, Place};
use zy_parts::{Began, Change, Fetch, New, Signed};

/// A view certificate: a new view's reports, and from 1 to 16 confirmations of the choice out of them.
#[derive(Clone, Debug, Drop)]
pub struct ViewCert {
    pub new: Signed<New>,
    pub begans: Items<Signed<Began>>,
}

/// What replicas send to leave a view and to begin the next one, by the kinds 11 to 16.
#[derive(Clone, Debug, Drop)]
pub enum ViewFrame {
    /// A replica leaves its view, with its report.
    ViewChange(Signed<Change>),
    /// The new view's primary gives the reports from which its history is chosen.
    NewView(Signed<New>),
    /// A replica confirms the choice.
    ViewConfirm(Signed<Began>),
    /// The view has begun.
    ViewCert(ViewCert),
    /// A replica asks for the snapshot at a place.
    Fetch(Signed<Fetch>),
    /// The snapshot at a place, of fewer than 2^32 bytes.
    State { place: Place, snapshot: Bytes },
}
