ghost use Rattle.std.specs.Prelude.{◌≡◌, ◌<◌, ◌≤◌, length, option_copied, IfOk, OnOk, take, slice_get, ◌++◌, option_to_list};
ghost use Rattle.zy_change.specs.Ahead as forms;
ghost use Rattle.zy_change.specs.Ahead.{IsHeard, IsOwn};
ghost use Rattle.zy_change.specs.Choosing.{choice_of};

use crate::machine::{ViewMachine, index_of};
use zy_base::{Items, ReplicaId, View, Want};
use zy_choose::{Choice, Report, choose};
use zy_evidence::read;
use zy_parts::{Began, Change, Signed, Told};

// What is kept of each replica, with a report put in that is heard, and the own one where the replica leaves.
impl ViewMachine {
    pub(crate) fn kept_change(&self, id: usize) -> Option<&Signed<Change>>
        ensures { option_copied result ≡ forms.kept_change self.now id }
    {
        match self.changes.get(id) {
            None => None,
            Some(slot) => slot.as_ref(),
        }
    }

    pub(crate) fn heard_change<'a>(
        &'a self,
        heard: Option<&'a Signed<Change>>,
        id: usize,
    ) -> Option<&'a Signed<Change>>
        ensures { option_copied result ≡ forms.heard_change self.now (option_copied heard.entry) id }
    {
        match heard {
            Some(change) if index_of(change.by) == id => Some(change),
            _ => self.kept_change(id),
        }
    }

    // What a replica tells as it leaves for a view.
    fn told_by<'a>(
        &'a self,
        view: View,
        heard: Option<&'a Signed<Change>>,
        own: Option<&'a Told>,
        id: usize,
    ) -> Option<&'a Told>
        ensures { option_copied result ≡ forms.told_ahead self.now view (option_copied heard.entry) (option_copied own.entry) id }
    {
        match own {
            Some(told) if self.me.0 as usize == id => Some(told),
            _ => told_for(view, self.heard_change(heard, id)),
        }
    }

    // How many replicas tell something as they leave for it.
    pub(crate) fn reporters(
        &self,
        view: View,
        heard: Option<&Signed<Change>>,
        own: Option<&Told>,
    ) -> u64
        ensures { result ≡ length (forms.reporters self.now view (option_copied heard.entry) (option_copied own.entry)) }
    {
        (0..self.counts.n as usize)
            .filter(|id| self.told_by(view, heard, own, *id).is_some())
            .count() as u64
    }

    // What is told in the report at an index among those that are given.
    pub(crate) fn told_at<'a>(
        &'a self,
        view: View,
        heard: Option<&'a Signed<Change>>,
        own: Option<&'a Told>,
        index: usize,
    ) -> Option<&'a Told>
        ensures { option_copied result ≡ forms.told_nth self.now view (option_copied heard.entry) (option_copied own.entry) index }
    {
        if index as u64 >= self.counts.change {
            return None;
        }
        match self.reporter_at(view, heard, own, index) {
            None => None,
            Some(id) => self.told_by(view, heard, own, id),
        }
    }

    fn reporter_at(
        &self,
        view: View,
        heard: Option<&Signed<Change>>,
        own: Option<&Told>,
        index: usize,
    ) -> Option<usize>
        ensures { result ≡ slice_get (forms.reporters self.now view (option_copied heard.entry) (option_copied own.entry)) index }
    {
        (0..self.counts.n as usize)
            .filter(|id| self.told_by(view, heard, own, *id).is_some())
            .nth(index)
    }

    // The report of it that is read.
    fn report_by(
        &self,
        view: View,
        heard: Option<&Signed<Change>>,
        own: Option<&Told>,
        id: usize,
    ) -> Result<Option<Report>, Want>
        requires heard { IsHeard self.now (option_copied heard) }
        requires own { IsOwn self.now view (option_copied own) }
        requires id { id < self.now.counts.n }
        ensures { IfOk result (λ o. o ≡ forms.report_ahead self.now view (option_copied heard.entry) (option_copied own.entry) id) }
    {
        match self.told_by(view, heard, own, id) {
            None => Ok(None),
            Some(told) => Ok(Some(read(self.alloc, ReplicaId(id as u8), told)?)),
        }
    }

    // The reports that are given.
    fn reports(
        &self,
        view: View,
        heard: Option<&Signed<Change>>,
        own: Option<&Told>,
    ) -> Result<Items<Report>, Want>
        requires heard { IsHeard self.now (option_copied heard) }
        requires own { IsOwn self.now view (option_copied own) }
        ensures { IfOk result (λ l. l ≡ forms.reports_ahead self.now view (option_copied heard.entry) (option_copied own.entry)) }
    {
        let mut reports = Items::new(self.alloc);
        for id in 0..self.counts.n as usize {
            let report = self.report_by(view, heard, own, id)?;
            push_up_to(self.counts.change, &mut reports, report)?;
        }
        Ok(reports)
    }

    // What is chosen out of them.
    pub(crate) fn choice(
        &self,
        view: View,
        heard: Option<&Signed<Change>>,
        own: Option<&Told>,
    ) -> Result<Choice, Want>
        requires heard { IsHeard self.now (option_copied heard) }
        requires own { IsOwn self.now view (option_copied own) }
        requires enough { self.now.counts.change ≤ length (forms.reporters self.now view (option_copied heard) (option_copied own)) }
        ensures choice { IfOk result (λ c. c ≡ choice_of self.now.counts.agree (forms.reports_ahead self.now view (option_copied heard.entry) (option_copied own.entry))) }
        ensures in_range { IfOk result forms.IsChoiceInRange }
    {
        let reports = self.reports(view, heard, own)?;
        Ok(choose(&self.counts, reports.as_slice()))
    }

    fn confirms(&self, by: usize, began: &Began, id: usize) -> bool
        ensures { result ≡ forms.confirms self.now by began.now id }
    {
        by == id || self.is_kept(began, id)
    }

    // The confirmation that is kept of a replica says this.
    fn is_kept(&self, began: &Began, id: usize) -> bool
        ensures { result ≡ forms.is_confirmed_by self.now began.now id }
    {
        match self.begans.get(id) {
            Some(Some(kept)) => kept.stmt == *began,
            _ => false,
        }
    }

    /// How many replicas confirm this, the one with this number among them.
    pub fn confirmers(&self, by: usize, began: &Began) -> u64
        ensures { result ≡ length (forms.confirmers self.now by began.now) }
    {
        (0..self.counts.n as usize)
            .filter(|id| self.confirms(by, began, *id))
            .count() as u64
    }
}

fn told_for(view: View, change: Option<&Signed<Change>>) -> Option<&Told>
    ensures { option_copied result ≡ forms.told_in view.0 (option_copied change.entry) }
{
    match change {
        Some(change) if change.stmt.view == view => Some(&change.stmt.told),
        _ => None,
    }
}

// One more, where there is one and there are not so many yet.
fn push_up_to(count: u64, reports: &mut Items<Report>, one: Option<Report>) -> Result<(), Want>
    requires { length reports.old ≤ count }
    ensures { OnOk result (reports.new ≡ take count (reports.old ++ option_to_list one)) }
{
    match one {
        Some(report) if (reports.len() as u64) < count => reports.push(report),
        _ => Ok(()),
    }
}
