ghost use Rattle.std.specs.Prelude.{◌≡◌, ◌<◌, ◌^◌};
ghost use Rattle.zy_base.specs.declared.ids.Party.TheVariants as parties;
ghost use Rattle.zy_parts.specs.Reports.{IsChangeInRange};
ghost use Rattle.zy_evidence.specs.Reading.{IsReplica};
ghost use Rattle.zy_evidence.specs.Rules.{rule_of_proofs, judged, Judges};

use crate::proven::{is_began_proven, is_spec_proven, is_stable_proven};
use crate::reading::read;
use crate::{ReportFault, Rule};
use std::alloc::Global;
use zy_base::{Counts, Party, ReplicaId};
use zy_choose::{Report, well_formed};
use zy_parts::{Change, Signed};

/// The report of a replica that leaves its view for a new one, as the choice reads it; or the first rule that it
/// breaks, under an interval between checkpoints. Its entries are copied, and nothing else is. No signature is checked.
pub fn report_in(
    alloc: Global,
    counts: &Counts,
    interval: u64,
    change: &Signed<Change>,
) -> Result<Report, ReportFault>
    requires signer { IsReplica change.now.by }
    requires in_range { IsChangeInRange change.now.stmt }
    requires least { 0 < interval }
    requires most { interval < 2 ^ 62 }
    ensures { Judges result (judged counts.now interval change.now) }
{
    match rule_of_proofs(counts, &change.stmt) {
        Some(rule) => Err(ReportFault::Broken(rule)),
        None => {
            let report = read(alloc, reporter(change.by), &change.stmt.told)?;
            match well_formed(&report, interval) {
                Ok(()) => Ok(report),
                Err(rule) => Err(ReportFault::Broken(Rule::Itself(rule))),
            }
        }
    }
}

fn reporter(by: Party) -> ReplicaId
    requires { IsReplica by }
    ensures { by ≡ parties.Replica result }
{
    match by {
        Party::Replica(id) => id,
        Party::Client(_) => unreachable!(),
    }
}

// The first rule that is broken on what the report must prove by the statements of others.
fn rule_of_proofs(counts: &Counts, change: &Change) -> Option<Rule>
    ensures { result ≡ rule_of_proofs counts.now change.now }
{
    let told = &change.told;
    if told.last_view >= change.view {
        return Some(Rule::LastView);
    }
    if !is_began_proven(counts, told) {
        return Some(Rule::Began);
    }
    if !is_spec_proven(counts, told) {
        return Some(Rule::Spec);
    }
    if !is_stable_proven(counts, told) {
        return Some(Rule::Stable);
    }
    None
}
