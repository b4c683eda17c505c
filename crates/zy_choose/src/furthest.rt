ghost use Rattle.std.specs.Prelude.{List, [], ◌∷◌, ◌++◌};
ghost use Rattle.std.specs.List.{flat_map};
ghost use Rattle.zy_chain.specs.Stretch.{Mark};
ghost use Rattle.zy_choose.specs.Choice.{last_in};
ghost use Rattle.zy_choose.specs.Furthest.{IsFurthest};
ghost use Rattle.zy_choose.specs.Marks.{mark_of};
ghost use Rattle.zy_choose.specs.Reports.{proven};

use crate::Report;
use zy_base::{Digest, Place, View};

/// What is the furthest of the marks that were seen so far.
#[derive(Clone, Copy, Debug)]
pub enum Furthest {
    Nothing,
    /// One head stands at the furthest place.
    One(Place, Digest),
    /// More than one does: the first two.
    Two(Place, Digest, Digest),
}

impl Furthest {
    /// With one mark more.
    fn and(self, mark: &(Place, Digest)) -> Furthest
        ensures { (marks : List Mark) → IsFurthest self marks → IsFurthest result (marks ++ mark_of mark.now ∷ []) }
    {
        match self {
            Furthest::Nothing => Furthest::One(mark.0, mark.1),
            Furthest::One(place, head) => {
                if place < mark.0 {
                    Furthest::One(mark.0, mark.1)
                } else if place == mark.0 && head != mark.1 {
                    Furthest::Two(place, head, mark.1)
                } else {
                    self
                }
            }
            Furthest::Two(place, _, _) => {
                if place < mark.0 {
                    Furthest::One(mark.0, mark.1)
                } else {
                    self
                }
            }
        }
    }

    /// With the marks that a report proves.
    fn and_proven(self, report: &Report) -> Furthest
        ensures { (marks : List Mark) → IsFurthest self marks → IsFurthest result (marks ++ proven report.now) }
    {
        let seen = self.and(&report.stable_mark()).and(&report.began);
        match &report.cc {
            Some(mark) => seen.and(mark),
            None => seen,
        }
    }
}

/// The furthest of the marks that the reports with this last view prove.
pub fn furthest_proven(view: View, reports: &[Report]) -> Furthest
    ensures { IsFurthest result (flat_map proven (last_in view.0 reports.now)) }
{
    let mut seen = Furthest::Nothing;
    for report in reports {
        if report.is_of(view) {
            seen = seen.and_proven(report);
        }
    }
    seen
}
