ghost use Rattle.std.specs.Prelude.{◌≡◌, ℕ, ◌<◌, ◌^◌, length, All, IfSome, IfOk};
ghost use Rattle.zy_parts.specs.Reports.{IsNewInRange, IsChangeInRange};
ghost use Rattle.zy_parts.specs.Signing.{IsSignedInRange};
ghost use Rattle.zy_evidence.specs.Reading.{IsReplica};
ghost use Rattle.zy_evidence.specs.Rules as rules;
ghost use Rattle.zy_choose.specs.Rules.{Fits, IsWellFormed};
ghost use Rattle.zy_change.specs.Ahead.{IsChoiceInRange};
ghost use Rattle.zy_change.specs.Choosing.{choice_of};
ghost use Rattle.zy_change.specs.Judging as judging;

use crate::kept::Chosen;
use crate::machine::ViewMachine;
use std::alloc::Global;
use zy_base::{Cause, Counts, Items, View, Want};
use zy_cert::has_repeat;
use zy_choose::{Choice, Report, choose};
use zy_evidence::{ReportFault, Rule, report_in};
use zy_parts::{Change, New, Signed};

// What is chosen out of a new view's reports, or why nothing is.
pub(crate) fn chosen_in(
    alloc: Global,
    machine: &ViewMachine,
    new: &New,
) -> Result<Result<Chosen, Cause>, Want>
    requires signers { All (λ c. IsReplica c.by) new.now.changes }
    requires in_range { IsNewInRange new.now }
    ensures chosen { IfOk result (λ r. r ≡ judging.chosen_in machine.now.counts machine.now.interval new.now) }
    ensures place { IfOk result (λ r. IfOk r (λ chosen. chosen.place.0 < 2 ^ 62)) }
{
    let changes = new.changes.as_slice();
    let count = machine.counts().change;
    let len = changes.len() as u64;
    if len < count {
        return Ok(Err(Cause::TooFew(len)));
    }
    if len > count {
        return Ok(Err(Cause::Mixed));
    }
    if has_repeat(changes) {
        return Ok(Err(Cause::Repeat));
    }
    if is_for_other(new.view, changes) {
        return Ok(Err(Cause::Mixed));
    }
    match reports_in(alloc, machine, changes)? {
        Err(rule) => Ok(Err(Cause::BadReport(rule.number()))),
        Ok(reports) => Ok(chosen_by(choice_of(machine.counts(), reports.as_slice()))),
    }
}

// One of the reports is for another view.
fn is_for_other(view: View, changes: &[Signed<Change>]) -> bool
    ensures { result ≡ judging.is_for_other view changes.now }
{
    changes.iter().any(|change| change.stmt.view != view)
}

// The reports as they are read, or the first rule that is broken.
fn reports_in(
    alloc: Global,
    machine: &ViewMachine,
    changes: &[Signed<Change>],
) -> Result<Result<Items<Report>, Rule>, Want>
    requires signers { All (λ c. IsReplica c.by) changes.now }
    requires in_range { All (IsSignedInRange IsChangeInRange) changes.now }
    ensures { IfOk result (λ r. r ≡ judging.read_unless (judging.first_broken machine.now.counts machine.now.interval changes.now) changes.now) }
{
    let mut reports = Items::new(alloc);
    for change in changes {
        match report_by(alloc, machine, change)? {
            Err(rule) => return Ok(Err(rule)),
            Ok(report) => reports.push(report)?,
        }
    }
    Ok(Ok(reports))
}

// The report as it is read, or the first rule that it breaks.
fn report_by(
    alloc: Global,
    machine: &ViewMachine,
    change: &Signed<Change>,
) -> Result<Result<Report, Rule>, Want>
    requires signer { IsReplica change.now.by }
    requires in_range { IsChangeInRange change.now.stmt }
    ensures { IfOk result (λ r. r ≡ rules.judged machine.now.counts machine.now.interval change.now) }
{
    let interval = machine.interval();
    match report_in(alloc, machine.counts(), interval, change) {
        Ok(report) => Ok(Ok(report)),
        Err(ReportFault::Broken(rule)) => Ok(Err(rule)),
        Err(ReportFault::Want) => Err(Want),
    }
}

// What is chosen out of them.
fn choice_of(counts: &Counts, reports: &[Report]) -> Choice
    requires many { length reports.now ≡ counts.now.change }
    requires began { All (λ r. Fits r.stretch r.began) reports.now }
    requires spec { All (λ r. IfSome r.spec (Fits r.stretch)) reports.now }
    ensures choice { result ≡ choice_of counts.now.agree reports.now }
    ensures in_range { (interval : ℕ) → All (IsWellFormed interval) reports.now → IsChoiceInRange result }
{
    choose(counts, reports)
}

fn chosen_by(choice: Choice) -> Result<Chosen, Cause>
    ensures chosen { result ≡ judging.chosen_by choice }
    ensures place { IsChoiceInRange choice → IfOk result (λ chosen. chosen.place.0 < 2 ^ 62) }
{
    match choice {
        Choice::AnchorClash(first, second) => Err(Cause::AnchorClash(first, second)),
        Choice::Chosen {
            provider,
            place,
            head,
        } => Ok(Chosen {
            provider,
            place,
            head,
        }),
    }
}
