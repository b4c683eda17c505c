ghost use Rattle.std.specs.Prelude.{◌≡◌, ◌<◌, ◌≤◌, ◌++◌, length, take, slice_set, option_copied, option_to_list, All, Some, IfOk, OnOk};
ghost use Rattle.zy_parts.specs.Reports.{IsNewInRange};
ghost use Rattle.zy_change.specs.Ahead as forms;
ghost use Rattle.zy_change.specs.Fit.{IsAccepted, IsGiven, IsOwnBegan};
ghost use Rattle.zy_change.specs.Owing as owing;
ghost use Rattle.zy_change.specs.Views as views;

use crate::kept::Accepted;
use crate::machine::ViewMachine;
use zy_base::{Items, View, Want};
use zy_parts::{Began, Change, New, Signed};

// What the new view's primary gives, and what is confirmed.
impl ViewMachine {
    /// The reports that the primary of a view gives for it: of the first replicas, by number, of which one for that view
    /// is kept. They are copied.
    pub fn gathered(&self, view: View) -> Result<New, Want>
        requires enough { self.now.counts.change ≤ length (views.changes_for view.0 self.now.changes) }
        ensures new { IfOk result (λ new. new ≡ owing.new_of self.now view) }
        ensures in_range { IfOk result IsNewInRange }
        ensures reports { IfOk result (λ new. All (IsGiven self.now.counts self.now.interval view) new.changes) }
    {
        let mut changes = Items::new(self.alloc);
        for id in 0..self.counts.n as usize {
            push_up_to(self.counts.change, &mut changes, self.change_for(view, id))?;
        }
        Ok(New { view, changes })
    }

    // The report that is kept of a replica, where it is for this view.
    fn change_for(&self, view: View, id: usize) -> Option<&Signed<Change>>
        ensures { option_copied result ≡ views.change_for view.0 (forms.kept_change self.now id) }
    {
        match self.kept_change(id) {
            Some(change) if change.stmt.view == view => Some(change),
            _ => None,
        }
    }

    /// Keeps a new view with the choice out of its reports, and the own confirmation of it. Confirmations of the view that
    /// say another thing are dropped. Takes no memory.
    pub fn accept(&mut self, accepted: Accepted, own: Signed<Began>)
        requires accepted { IsAccepted self.old.counts self.old.interval accepted }
        requires own { IsOwnBegan self.old.me accepted own }
        ensures { self.new ≡ views.with_new accepted own self.old }
    {
        put_own(&mut self.begans, self.me.0 as usize, own);
        self.accepted = Some(accepted);
    }
}

// One more, where there is one and there are not so many yet.
fn push_up_to(
    count: u64,
    changes: &mut Items<Signed<Change>>,
    one: Option<&Signed<Change>>,
) -> Result<(), Want>
    requires { length changes.old ≤ count }
    ensures { OnOk result (changes.new ≡ take count (changes.old ++ option_to_list (option_copied one.entry))) }
{
    match one {
        Some(change) if (changes.len() as u64) < count => changes.push(change_copy(change)?),
        _ => Ok(()),
    }
}

pub(crate) fn change_copy(change: &Signed<Change>) -> Result<Signed<Change>, Want>
    ensures { IfOk result (λ copy. copy ≡ change.now) }
{
    Ok(change.clone()?)
}

// The own confirmation, at this slot.
fn put_own(begans: &mut [Option<Signed<Began>>], index: usize, own: Signed<Began>)
    requires { index < length begans.old }
    ensures put { begans.new ≡ slice_set (views.without_others own.stmt begans.old) index (Some own) }
    ensures len { length begans.new ≡ length begans.old }
{
    drop_others(begans, &own.stmt);
    begans[index] = Some(own);
}

// What others confirm of this view in another way is dropped.
fn drop_others(begans: &mut [Option<Signed<Began>>], own: &Began)
    ensures { begans.new ≡ views.without_others own.now begans.old }
{
    for slot in begans.iter_mut() {
        drop_other(slot, own);
    }
}

fn drop_other(slot: &mut Option<Signed<Began>>, own: &Began)
    ensures { slot.new ≡ views.unless_other own.now slot.old }
{
    if says_other(slot, own) {
        *slot = None;
    }
}

// It confirms another thing of the same view.
fn says_other(slot: &Option<Signed<Began>>, own: &Began) -> bool
    ensures { result ≡ forms.says_other own.now slot.now }
{
    match slot {
        None => false,
        Some(kept) => kept.stmt.view == own.view && kept.stmt != *own,
    }
}
