ghost use Rattle.std.specs.Prelude.{◌≡◌, ℕ, ◌<◌, ◌≤◌, ◌&&◌, All, IfSome, IfNone, count_by, length};
ghost use Rattle.zy_chain.specs.Stretch.{Mark, end_of};
ghost use Rattle.zy_choose.specs.Answer.{IsAnswer};
ghost use Rattle.zy_choose.specs.Choice.{IsAgreed, IsAnchor, IsGreatestView, IsOnlyAnchor, IsPicked, last_in, provider_of};
ghost use Rattle.zy_choose.specs.Marks.{has_mark, link, mark_of};
ghost use Rattle.zy_choose.specs.Rules.{Fits};

use crate::Report;
use crate::furthest::{Furthest, furthest_proven};
use zy_base::{Counts, Digest, Place, View};

/// What a choice over reports answers.
#[derive(Clone, Copy, Debug, PartialEq, Eq)]
pub enum Choice {
    /// The first report, by its index in the list, that has the history; and the history's place and head.
    Chosen {
        provider: usize,
        place: Place,
        head: Digest,
    },
    /// Two heads stand at the furthest place that a report proves: the first two of the list.
    AnchorClash(Digest, Digest),
}

/// The choice over reports. Takes no memory.
pub fn choose(counts: &Counts, reports: &[Report]) -> Choice
    requires many { length reports.now ≡ counts.now.change }
    requires began { All (λ r. Fits r.stretch r.began) reports.now }
    requires spec { All (λ r. IfSome r.spec (Fits r.stretch)) reports.now }
    ensures { IsAnswer counts.now.agree reports.now result }
{
    let view = greatest_view(reports);
    match furthest_proven(view, reports) {
        Furthest::Nothing => unreachable!(),
        Furthest::One(place, head) => chosen(counts.agree, view, reports, (place, head)),
        Furthest::Two(_, first, second) => Choice::AnchorClash(first, second),
    }
}

// The choice past an anchor.
fn chosen(agree: u64, view: View, reports: &[Report], anchor: (Place, Digest)) -> Choice
    requires some { 0 < agree }
    requires greatest { IsGreatestView reports.now view.0 }
    requires anchored { IsAnchor (last_in view.0 reports.now) (mark_of anchor) }
    requires only { IsOnlyAnchor (last_in view.0 reports.now) (mark_of anchor) }
    requires began { All (λ r. Fits r.stretch r.began) reports.now }
    requires spec { All (λ r. IfSome r.spec (Fits r.stretch)) reports.now }
    ensures { IsAnswer agree reports.now result }
{
    let mark = pick(agree, view, reports, anchor);
    match provider(view, reports, &mark) {
        Some(provider) => Choice::Chosen {
            provider,
            place: mark.0,
            head: mark.1,
        },
        None => unreachable!(),
    }
}

fn greatest_view(reports: &[Report]) -> View
    requires { 0 < length reports.now }
    ensures { IsGreatestView reports.now result.0 }
{
    let first = &reports[0];
    let mut view = first.last_view;
    for report in reports {
        if view < report.last_view {
            view = report.last_view;
        }
    }
    view
}

// The furthest end of the reports with this last view.
fn furthest_end(view: View, reports: &[Report]) -> Place
    ensures { All (λ r. r.last_view ≡ view.0 → end_of r.stretch ≤ result.0) reports.now }
{
    let mut end = Place(0);
    for report in reports {
        if report.is_of(view) {
            end = end.max(report.spine.end());
        }
    }
    end
}

// How many of the reports with this last view have both marks.
fn supporters(
    view: View,
    reports: &[Report],
    anchor: &(Place, Digest),
    mark: &(Place, Digest),
) -> usize
    ensures { result ≡ count_by (λ r. has_mark link r.stretch (mark_of anchor.now) && has_mark link r.stretch (mark_of mark.now)) (last_in view.0 reports.now) }
{
    reports
        .iter()
        .filter(|report| report.is_of(view))
        .filter(|report| report.has(anchor) && report.has(mark))
        .count()
}

// The head at a place past the anchor that enough of the reports have.
fn agreed_at(
    agree: u64,
    view: View,
    reports: &[Report],
    anchor: &(Place, Digest),
    place: Place,
) -> Option<Digest>
    requires some { 0 < agree }
    requires past { anchor.now.0.0 < place.0 }
    ensures agreed { IfSome result (λ head. IsAgreed link agree (last_in view.0 reports.now) (mark_of anchor.now) (record { place = place.0; head = head })) }
    ensures none { IfNone result ((m : Mark) → m.place ≡ place.0 → IsAgreed link agree (last_in view.0 reports.now) (mark_of anchor.now) m → ⊥) }
{
    for report in reports {
        if report.is_of(view)
            && let Some(head) = report.spine.head_at(place)
            && supporters(view, reports, anchor, &(place, head)) as u64 >= agree
        {
            return Some(head);
        }
    }
    None
}

// The furthest mark past the anchor that enough of the reports have.
fn agreed(
    agree: u64,
    view: View,
    reports: &[Report],
    anchor: &(Place, Digest),
) -> Option<(Place, Digest)>
    requires { 0 < agree }
    ensures agreed { IfSome result (λ m. IsAgreed link agree (last_in view.0 reports.now) (mark_of anchor.now) (mark_of m)) }
    ensures furthest { IfSome result (λ m. (other : Mark) → IsAgreed link agree (last_in view.0 reports.now) (mark_of anchor.now) other → other.place ≤ m.0.0) }
    ensures none { IfNone result ((other : Mark) → IsAgreed link agree (last_in view.0 reports.now) (mark_of anchor.now) other → ⊥) }
{
    let end = furthest_end(view, reports);
    for below in (anchor.0.0..end.0).rev() {
        let place = Place(below + 1);
        if let Some(head) = agreed_at(agree, view, reports, anchor, place) {
            return Some((place, head));
        }
    }
    None
}

fn pick(agree: u64, view: View, reports: &[Report], anchor: (Place, Digest)) -> (Place, Digest)
    requires { 0 < agree }
    ensures { IsPicked link agree (last_in view.0 reports.now) (mark_of anchor) (mark_of result) }
{
    match agreed(agree, view, reports, &anchor) {
        Some(mark) => mark,
        None => anchor,
    }
}

fn provider(view: View, reports: &[Report], mark: &(Place, Digest)) -> Option<usize>
    ensures { result ≡ provider_of link view.0 (mark_of mark.now) reports.now }
{
    reports
        .iter()
        .position(|report| report.is_of(view) && report.has(mark))
}
