ghost use Rattle.std.specs.Prelude.{◌≡◌, ◌==◌};
ghost use Rattle.zy_choose.specs.Marks.{has_mark, link, mark_of};

use std::marker::Model;
use zy_base::{Digest, Place, ReplicaId, View};
use zy_chain::Spine;

/// What a replica reports as it leaves a view. The spine stands on the stable place with its head. Contracts see the
/// marks as such.
#[derive(Debug, Drop)]
pub struct Report {
    /// Who reports.
    pub by: ReplicaId,
    /// The last view in which it was active.
    pub last_view: View,
    /// Where that view began.
    pub began: (Place, Digest),
    /// The place and head of its longest certificate of speculative responses in that view.
    pub cc: Option<(Place, Digest)>,
    /// The view, place, head and snapshot's digest of its stable proof.
    pub stable: (View, Place, Digest, Digest),
    /// The entries above the stable place.
    pub spine: Spine,
}

impl Model for Report {
    ghost use Rattle.std.specs.Prelude.{◌≡◌, option_map};
    ghost use Rattle.zy_chain.specs.Stretch.{Mark};
    ghost use Rattle.zy_choose.specs.Marks.{mark_of};
    ghost use Rattle.zy_choose.specs.Reports.{PlainReport};

    ghost Value = { PlainReport };

    ghost view = { λ r. record { by = r.by.0; last_view = r.last_view.0; began = mark_of r.began; spec = option_map mark_of r.cc; stable_view = r.stable.0.0; state = r.stable.3; stretch = r.spine } };

    ghost invariant = { λ r. r.spine.base ≡ record { place = r.stable.1.0; head = r.stable.2 } };
}

/// The rules of a report that it keeps or breaks by itself, with their numbers.
#[derive(Clone, Copy, Debug, PartialEq, Eq)]
pub enum ReportRule {
    /// The stable proof is of a view after the last one, or of a place that is no multiple of the interval between
    /// snapshots.
    Stable = 6,
    /// There are more entries than two intervals, one of a client that isn't below 64, or the end isn't below 2^62.
    Entries = 7,
    /// The place where the last view began is past the end, or has another head in the spine.
    Began = 8,
    /// The same of the certificate of speculative responses.
    Spec = 9,
}

impl Report {
    /// Whether this is the last view.
    pub fn is_of(&self, view: View) -> bool
        ensures { result ≡ (self.now.last_view == view.0) }
    {
        self.last_view == view
    }

    /// The stable place with its head.
    pub fn stable_mark(&self) -> (Place, Digest)
        ensures { mark_of result ≡ self.now.stretch.base }
    {
        (self.stable.1, self.stable.2)
    }

    /// Whether the history up to a mark stands in the report.
    pub fn has(&self, mark: &(Place, Digest)) -> bool
        ensures { result ≡ has_mark link self.now.stretch (mark_of mark.now) }
    {
        self.spine.head_at(mark.0) == Some(mark.1)
    }
}
