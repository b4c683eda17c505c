ghost use Rattle.std.specs.Prelude.{◌≡◌, ◌+◌, ◌^◌, ◌<◌, ◌≤◌, nat_lt, length, min, option_copied, Option, Some, None, IfOk};
ghost use Rattle.zy_parts.specs.Signing.{IsSignedInRange};
ghost use Rattle.zy_parts.specs.Reports.{IsChangeInRange};
ghost use Rattle.zy_evidence.specs.Reading.{number_of_party, IsReplica};
ghost use Rattle.zy_evidence.specs.Rules.{rule_of, judged_by, IsFaultOf};
ghost use Rattle.zy_evidence.specs.declared.rule.Rule.{Rule};
ghost use Rattle.zy_parts.specs.declared.signed.Signed.{Signed};
ghost use Rattle.zy_parts.specs.declared.reports.Change.{Change};
ghost use Rattle.std.specs.List.{reduce};
ghost use Rattle.zy_change.specs.Ahead as forms;
ghost use Rattle.zy_change.specs.Ahead.{IsHeard, IsOwn, IsReport, IsOwedInRange};
ghost use Rattle.zy_change.specs.Fit.{IsFit, IsTrueReport};
ghost use Rattle.zy_change.specs.Owing.{Pens};
ghost use Rattle.zy_change.specs.Owing as owing;
ghost use Rattle.zy_change.specs.Views as views;

use crate::kept::Chosen;
use crate::machine::{ViewMachine, index_of};
use crate::owed::{Adoption, Owed};
use zy_base::{Cause, Mode, Party, ReplicaId, View, Want};
use zy_choose::Choice;
use zy_evidence::{ReportFault, Rule, report_in};
use zy_parts::{Began, Change, Hate, Signed, Told};

// The first number that no view has.
const VIEWS: u64 = 1 << 62;

// What the rows owe.
impl ViewMachine {
    /// What the hate of a replica of the group owes, where this is the own report of the last view. `OldView` and
    /// `NewerView` where it isn't of the own view; `Repeat` where that replica's is counted; `NewerView` where it makes
    /// the replica leave for view 2^62; `AnchorClash` where the replica leads the next view and the reports clash.
    pub fn hate(&self, vote: &Signed<Hate>, told: &Told) -> Result<Owed, Want>
        requires signer { number_of_party vote.now.by < self.now.counts.n }
        requires told { IsTrueReport self.now told.now }
        ensures owed { (pens : Pens) → IfOk result (λ o. o ≡ owing.hate_owes self.now vote.now told.now pens) }
        ensures in_range { IfOk result IsOwedInRange }
    {
        self.hate_owes(vote.by, vote.stmt.view, told)
    }

    // The hate of a view, by its signer.
    fn hate_owes(&self, by: Party, view: View, told: &Told) -> Result<Owed, Want>
        requires member { number_of_party by < self.now.counts.n }
        requires told { IsTrueReport self.now told.now }
        ensures owed { IfOk result (λ o. o ≡ forms.hate_ahead self.now by view told.now) }
        ensures in_range { IfOk result IsOwedInRange }
        ensures fit { IsFit self.now }
    {
        let own = self.view();
        if view < own {
            return Ok(Owed::refused(Cause::OldView));
        }
        if view > own {
            return Ok(Owed::refused(Cause::NewerView));
        }
        if self.is_hated_by(by) {
            return Ok(Owed::refused(Cause::Repeat));
        }
        if self.is_hated_enough() {
            return self.leave_owes(View(own.0 + 1), None, told);
        }
        Ok(Owed::nothing())
    }

    fn is_hated_by(&self, by: Party) -> bool
        requires { number_of_party by < self.now.counts.n }
        ensures { result ≡ views.is_hated_by self.now by }
    {
        self.hated[index_of(by)]
    }

    // With one hate more it leaves.
    fn is_hated_enough(&self) -> bool
        ensures { result ≡ forms.is_hated_enough self.now }
    {
        self.haters() >= self.counts.f
    }

    /// What a leave for a view above the own one owes, with the reports that are collected for it, where this is the own
    /// report of the last view.
    pub fn leaving(&self, view: View, told: &Told) -> Result<Owed, Want>
        requires above { views.own_view self.now < view.0 }
        requires told { IsTrueReport self.now told.now }
        ensures owed { (pens : Pens) → IfOk result (λ o. o ≡ owing.leaving_owes self.now view told.now pens) }
        ensures in_range { IfOk result IsOwedInRange }
    {
        self.leave_owes(view, None, told)
    }

    /// What a report owes that comes from a replica of the group, where this is the own report of the last view. `OldView`
    /// where it is for an earlier view; `Repeat` where one of its signer for this view or a later one is kept; `BadReport`
    /// with the first rule that it breaks; then `NewerView` and `AnchorClash` where it makes the replica leave for view
    /// 2^62, or give a new view of which the reports clash. No signature is checked.
    pub fn change(&self, vote: &Signed<Change>, told: &Told) -> Result<Owed, Want>
        requires signer { IsReplica vote.now.by }
        requires member { number_of_party vote.now.by < self.now.counts.n }
        requires in_range { IsSignedInRange IsChangeInRange vote.now }
        requires told { IsTrueReport self.now told.now }
        ensures owed { (pens : Pens) → IfOk result (λ o. o ≡ owing.change_owes self.now vote.now told.now pens) }
        ensures in_range { IfOk result IsOwedInRange }
    {
        self.change_owes(vote, told)
    }

    fn change_owes(&self, vote: &Signed<Change>, told: &Told) -> Result<Owed, Want>
        requires signer { IsReplica vote.now.by }
        requires member { number_of_party vote.now.by < self.now.counts.n }
        requires in_range { IsSignedInRange IsChangeInRange vote.now }
        requires told { IsTrueReport self.now told.now }
        ensures owed { IfOk result (λ o. o ≡ forms.change_ahead self.now vote.now told.now) }
        ensures in_range { IfOk result IsOwedInRange }
        ensures fit { IsFit self.now }
    {
        if vote.stmt.view < self.view() {
            return Ok(Owed::refused(Cause::OldView));
        }
        if self.has_begun(vote.stmt.view) {
            return Ok(sends_to(vote.by));
        }
        if self.is_kept_from(vote) {
            return Ok(Owed::refused(Cause::Repeat));
        }
        match self.broken_rule(vote)? {
            Some(rule) => Ok(Owed::refused(Cause::BadReport(rule.number()))),
            None => self.kept_owes(vote, told),
        }
    }

    // It is active in this view.
    fn has_begun(&self, view: View) -> bool
        ensures { result ≡ views.has_begun self.now.mode view.0 }
    {
        match self.mode {
            Mode::Active(own) => view == own,
            Mode::Leaving(_) => false,
        }
    }

    // A report of its signer for this view or a later one is kept.
    fn is_kept_from(&self, vote: &Signed<Change>) -> bool
        ensures { result ≡ views.is_from vote.now.stmt.view.0 (views.slot_of vote.now.by self.now.changes) }
    {
        match self.changes.get(index_of(vote.by)) {
            Some(Some(kept)) => kept.stmt.view >= vote.stmt.view,
            _ => false,
        }
    }

    // The first rule that a report breaks.
    pub(crate) fn broken_rule(&self, vote: &Signed<Change>) -> Result<Option<Rule>, Want>
        requires signer { IsReplica vote.now.by }
        requires in_range { IsChangeInRange vote.now.stmt }
        ensures { IfOk result (λ o. o ≡ rule_of self.now.counts self.now.interval vote.now.stmt) }
    {
        match report_in(self.alloc, &self.counts, self.interval, vote) {
            Ok(report) => {
                drop(report);
                Ok(None)
            }
            Err(fault) => rule_in(fault),
        }
    }

    // The report breaks no rule, and is put in.
    fn kept_owes(&self, vote: &Signed<Change>, told: &Told) -> Result<Owed, Want>
        requires heard { IsHeard self.now (Some vote.now) }
        requires told { IsTrueReport self.now told.now }
        ensures owed { IfOk result (λ o. o ≡ forms.kept_ahead self.now vote.now told.now) }
        ensures in_range { IfOk result IsOwedInRange }
    {
        if self.count_above(vote) > self.counts.f {
            return self.leave_owes(self.least_above(vote), Some(vote), told);
        }
        if vote.stmt.view == self.view() {
            return self.collect_owes(Owed::nothing(), vote.stmt.view, Some(vote), None);
        }
        Ok(Owed::nothing())
    }

    // How many reports for views above the own one are there.
    fn count_above(&self, vote: &Signed<Change>) -> u64
        ensures { result ≡ length (forms.aboves_ahead self.now vote.now) }
    {
        (0..self.counts.n as usize)
            .filter_map(|id| self.above_by(vote, id))
            .count() as u64
    }

    // The least of their views.
    fn least_above(&self, vote: &Signed<Change>) -> View
        requires { 0 < length (forms.aboves_ahead self.now vote.now) }
        ensures value { result ≡ forms.least_ahead self.now vote.now }
        ensures above { views.own_view self.now < result.0 }
    {
        View(self.lowest_above(vote).unwrap_or(0))
    }

    fn lowest_above(&self, vote: &Signed<Change>) -> Option<u64>
        ensures { result ≡ reduce min (forms.aboves_ahead self.now vote.now) }
    {
        (0..self.counts.n as usize)
            .filter_map(|id| self.above_by(vote, id))
            .min()
    }

    fn above_by(&self, vote: &Signed<Change>, id: usize) -> Option<u64>
        ensures { result ≡ forms.above_ahead self.now vote.now id }
    {
        match self.heard_change(Some(vote), id) {
            Some(change) if change.stmt.view > self.view() => Some(change.stmt.view.0),
            _ => None,
        }
    }

    fn leave_owes(
        &self,
        view: View,
        heard: Option<&Signed<Change>>,
        told: &Told,
    ) -> Result<Owed, Want>
        requires above { views.own_view self.now < view.0 }
        requires heard { IsHeard self.now (option_copied heard) }
        requires told { IsTrueReport self.now told.now }
        ensures owed { IfOk result (λ o. o ≡ forms.leave_ahead self.now view (option_copied heard.entry) told.now) }
        ensures in_range { IfOk result IsOwedInRange }
        ensures fit { IsFit self.now }
    {
        let above = self.view() < view;
        prove!(above);
        if !is_in_frames(view) {
            return Ok(Owed::refused(Cause::NewerView));
        }
        self.collect_owes(Owed::leaving(view), view, heard, Some(told))
    }

    #[tactic(auto, unfolding(crate::specs::Ahead::collect_ahead))]
    fn collect_owes(
        &self,
        owed: Owed,
        view: View,
        heard: Option<&Signed<Change>>,
        own: Option<&Told>,
    ) -> Result<Owed, Want>
        requires heard { IsHeard self.now (option_copied heard) }
        requires own { IsOwn self.now view (option_copied own) }
        requires small { owed.signs ≤ 1 }
        requires in_range { IsOwedInRange owed }
        ensures owed { IfOk result (λ o. o ≡ forms.collect_ahead self.now view (option_copied heard.entry) (option_copied own.entry) owed) }
        ensures in_range { IfOk result IsOwedInRange }
    {
        if !self.gathers(view, heard, own) {
            return Ok(owed);
        }
        match self.choice(view, heard, own)? {
            Choice::AnchorClash(first, second) => {
                Ok(Owed::refused(Cause::AnchorClash(first, second)))
            }
            Choice::Chosen {
                provider,
                place,
                head,
            } => {
                let chosen = Chosen {
                    provider,
                    place,
                    head,
                };
                self.adopt_owes(confirming(view, chosen, owed), view, heard, own, chosen)
            }
        }
    }

    // The replica gives the new view: it leads it, gave none yet, and enough reports are there.
    fn gathers(&self, view: View, heard: Option<&Signed<Change>>, own: Option<&Told>) -> bool
        ensures { result ≡ forms.gathers_ahead self.now view (option_copied heard.entry) (option_copied own.entry) }
    {
        self.leads(view)
            && !self.is_given(view, own)
            && self.reporters(view, heard, own) >= self.counts.change
    }

    /// The replica is the primary of a view.
    pub fn leads(&self, view: View) -> bool
        ensures { result ≡ views.leads self.now view.0 }
    {
        self.counts.primary(view).0 == self.me.0
    }

    fn is_given(&self, view: View, own: Option<&Told>) -> bool
        ensures { result ≡ forms.is_given self.now view (option_copied own.entry) }
    {
        match (own, &self.accepted) {
            (None, Some(accepted)) => accepted.new.stmt.view == view,
            _ => false,
        }
    }

    // Once its confirmation is kept, enough may be.
    fn adopt_owes(
        &self,
        owed: Owed,
        view: View,
        heard: Option<&Signed<Change>>,
        own: Option<&Told>,
        chosen: Chosen,
    ) -> Result<Owed, Want>
        ensures owed { IfOk result (λ o. o ≡ forms.adopting_ahead self.now view (option_copied heard.entry) (option_copied own.entry) chosen owed) }
        ensures confirm { IfOk result (λ o. o.confirm ≡ owed.confirm) }
    {
        if self.confirmers(self.me.0 as usize, &began_for(view, chosen)) < self.counts.cert {
            return Ok(owed);
        }
        let told = self.told_at(view, heard, own, chosen.provider);
        Ok(Owed {
            adopt: adoption(view, chosen, told)?,
            ..owed
        })
    }

    // How many hates of the own view are counted.
    fn haters(&self) -> u64
        ensures { result ≡ forms.haters self.now }
    {
        self.hated.iter().filter(|hated| **hated).count() as u64
    }
}

// A frame can name the view.
fn is_in_frames(view: View) -> bool
    ensures { result ≡ nat_lt view.0 (2 ^ 62) }
{
    view.0 < VIEWS
}

fn rule_in(fault: ReportFault) -> Result<Option<Rule>, Want>
    ensures { (rule : Option Rule) (c : Signed Change) → IsFaultOf (judged_by rule c) fault → IfOk result (λ o. o ≡ rule) }
{
    match fault {
        ReportFault::Broken(rule) => Ok(Some(rule)),
        ReportFault::Want => Err(Want),
    }
}

// Who is behind gets the view certificate.
fn sends_to(by: Party) -> Owed
    requires { IsReplica by }
    ensures { result ≡ owing.sends_to by }
{
    Owed {
        send: replica_in(by),
        ..Owed::nothing()
    }
}

fn replica_in(by: Party) -> Option<ReplicaId>
    requires { IsReplica by }
    ensures { result ≡ Some (record { 0 = number_of_party by }) }
{
    match by {
        Party::Replica(id) => Some(id),
        Party::Client(_) => unreachable!(),
    }
}

fn began_for(view: View, chosen: Chosen) -> Began
    ensures { result ≡ views.began_for view chosen }
{
    Began {
        view,
        place: chosen.place,
        head: chosen.head,
    }
}

// The primary signs the new view and its confirmation.
fn confirming(view: View, chosen: Chosen, owed: Owed) -> Owed
    requires { owed.signs ≤ 1 }
    ensures { result ≡ forms.confirming view chosen owed }
{
    Owed {
        gather: Some(view),
        confirm: Some(chosen),
        signs: owed.signs + 2,
        ..owed
    }
}

/// What is adopted as a view begins, where a report gives it. The report is copied.
pub fn adoption(view: View, chosen: Chosen, told: Option<&Told>) -> Result<Option<Adoption>, Want>
    ensures { IfOk result (λ o. o ≡ forms.adoption_ahead view chosen (option_copied told.entry)) }
{
    match told {
        None => Ok(None),
        Some(told) => Ok(Some(Adoption {
            view,
            chosen,
            told: told_copy(told)?,
        })),
    }
}

pub(crate) fn told_copy(told: &Told) -> Result<Told, Want>
    ensures { IfOk result (λ copy. copy ≡ told.now) }
{
    Ok(told.clone()?)
}
