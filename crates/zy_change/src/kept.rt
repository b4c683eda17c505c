ghost use Rattle.std.specs.Prelude.{◌≡◌};
ghost use Rattle.zy_change.specs.Views as views;

use zy_base::{Digest, Items, Place};
use zy_parts::{Began, New, Signed, Spec};
use zy_vframes::ViewCert;

/// The choice of a new view's history: the report that gives its entries, by its index among the new view's reports,
/// and the place and the head with which the view begins.
#[derive(Clone, Copy, Debug, PartialEq, Eq)]
pub struct Chosen {
    pub provider: usize,
    pub place: Place,
    pub head: Digest,
}

/// A new view that was confirmed, and the choice out of its reports.
#[derive(Drop)]
pub struct Accepted {
    pub new: Signed<New>,
    pub chosen: Chosen,
}

impl Accepted {
    /// The confirmation of its choice.
    pub fn began(&self) -> Began
        ensures { result ≡ views.began_for self.now.new.stmt.view self.now.chosen }
    {
        Began {
            view: self.new.stmt.view,
            place: self.chosen.place,
            head: self.chosen.head,
        }
    }
}

/// A view certificate that waits for a snapshot, and the choice out of its reports.
#[derive(Drop)]
pub struct Waiting {
    pub cert: ViewCert,
    pub chosen: Chosen,
}

/// A commit certificate: equal signed responses of different replicas, and the place that they name.
#[derive(Drop)]
pub struct Certificate {
    pub place: Place,
    pub specs: Items<Signed<Spec>>,
}
