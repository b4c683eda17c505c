ghost use Rattle.std.specs.Prelude.{◌≡◌, ◌<◌, ◌≤◌, ◌++◌, length, map, take, option_copied, option_to_list, Some, IsSome, IfSome, IfOk, OnErr, OnOk};
ghost use Rattle.zy_evidence.specs.Reading.{number_of_party};
ghost use Rattle.zy_change.specs.Fit.{IsCertified, IsFit, IsKeptBegan};
ghost use Rattle.zy_change.specs.declared.kept.Accepted.{Accepted as Kept};
ghost use Rattle.zy_change.specs.Views as views;
ghost use Rattle.zy_change.specs.Ahead as forms;

use crate::giving::change_copy;
use crate::kept::{Accepted, Chosen, Waiting};
use crate::machine::{ViewMachine, forget_all, index_of};
use std::alloc::Global;
use zy_base::{Items, Mode, View, Want};
use zy_parts::{Began, Change, New, Signed};
use zy_vframes::ViewCert;

// How a view begins with its certificate.
impl ViewMachine {
    /// Keeps a confirmation in place of its signer's earlier one. Takes no memory.
    pub fn keep_began(&mut self, vote: Signed<Began>)
        requires member { number_of_party vote.by < self.old.counts.n }
        requires kept { IsKeptBegan (number_of_party vote.by) vote }
        ensures { self.new ≡ views.with_began vote self.old }
    {
        let index = index_of(vote.by);
        self.begans[index] = Some(vote);
    }

    /// The confirmation that is kept of the replica with this number.
    pub fn kept_began(&self, id: usize) -> Option<&Signed<Began>>
        ensures { option_copied result ≡ forms.kept_began self.now id }
    {
        match self.begans.get(id) {
            None => None,
            Some(slot) => slot.as_ref(),
        }
    }

    /// The certificate of the new view that was confirmed: its reports, which are copied, with the confirmations of the
    /// first replicas, by number, that confirm the same.
    pub fn certified(&self) -> Result<ViewCert, Want>
        requires { IsSome (views.certificate self.now) }
        ensures { IfOk result (λ cert. views.certificate self.now ≡ Some cert) }
    {
        match &self.accepted {
            None => unreachable!(),
            Some(accepted) => Ok(ViewCert {
                new: new_copy(self.alloc, &accepted.new)?,
                begans: self.confirmations(&accepted.began())?,
            }),
        }
    }

    /// The same with its choice, out of what is kept: the reports of the new view move into it. After `Want` all is as
    /// before.
    pub fn take_certified(&mut self) -> Result<(ViewCert, Chosen), Want>
        requires { IsSome (views.certificate self.old) }
        ensures cert { IfOk result (λ r. views.certificate self.old ≡ Some r.0) }
        ensures chosen { IfOk result (λ r. self.old.accepted ≡ Some (record { new = r.0.new; chosen = r.1 })) }
        ensures certified { IfOk result (λ r. IsCertified self.old.counts self.old.interval r.0 r.1) }
        ensures rest { OnOk result (self.new ≡ views.without_accepted self.old) }
        ensures same { OnErr result (self.new ≡ self.old) }
    {
        self.take_accepted()
    }

    fn take_accepted(&mut self) -> Result<(ViewCert, Chosen), Want>
        requires { IsSome (views.certificate self.old) }
        ensures cert { IfOk result (λ r. views.certificate self.old ≡ Some r.0) }
        ensures chosen { IfOk result (λ r. self.old.accepted ≡ Some (record { new = r.0.new; chosen = r.1 })) }
        ensures rest { OnOk result (self.new ≡ views.without_accepted self.old) }
        ensures same { OnErr result (self.new ≡ self.old) }
        ensures fit { IsFit self.old }
    {
        let begans = self.accepted_by()?;
        match self.accepted.take() {
            None => unreachable!(),
            Some(Accepted { new, chosen }) => Ok((ViewCert { new, begans }, chosen)),
        }
    }

    // The confirmations of the first replicas, by number, that confirm the new view as it was confirmed.
    fn accepted_by(&self) -> Result<Items<Signed<Began>>, Want>
        requires { IsSome self.now.accepted }
        ensures { (a : Kept) → self.now.accepted ≡ Some a → IfOk result (λ l. l ≡ take self.now.counts.cert (views.begans_equal (views.began_for a.new.stmt.view a.chosen) self.now.begans)) }
    {
        match &self.accepted {
            None => unreachable!(),
            Some(accepted) => self.confirmations(&accepted.began()),
        }
    }

    // The confirmations of the first replicas that say this, as many as a certificate has.
    fn confirmations(&self, began: &Began) -> Result<Items<Signed<Began>>, Want>
        ensures { IfOk result (λ l. l ≡ take self.now.counts.cert (views.begans_equal began.now self.now.begans)) }
    {
        let mut begans = Items::new(self.alloc);
        for id in 0..self.counts.n as usize {
            push_up_to(self.counts.cert, &mut begans, self.confirmation(began, id))?;
        }
        Ok(begans)
    }

    // The confirmation that is kept of a replica, where it says this.
    fn confirmation(&self, began: &Began, id: usize) -> Option<&Signed<Began>>
        ensures { option_copied result ≡ views.began_equal began.now (forms.kept_began self.now id) }
    {
        match self.begans.get(id) {
            Some(Some(kept)) if kept.stmt == *began => Some(kept),
            _ => None,
        }
    }

    /// Lets a view certificate wait for a snapshot, in place of an earlier one. Takes no memory.
    pub fn wait(&mut self, cert: ViewCert, chosen: Chosen)
        requires { IsCertified self.old.counts self.old.interval cert chosen }
        ensures { self.new ≡ views.with_waiting (record { cert = cert; chosen = chosen }) self.old }
    {
        self.waiting = Some(Waiting { cert, chosen });
    }

    /// Takes out the view certificate that waits, where there is one. Takes no memory.
    pub fn take_waiting(&mut self) -> Option<Waiting>
        ensures taken { result ≡ self.old.waiting }
        ensures rest { self.new ≡ views.without_waiting self.old }
        ensures certified { IfSome result (λ w. IsCertified self.old.counts self.old.interval w.cert w.chosen) }
    {
        self.waiting.take()
    }

    /// The view of a certificate begins, with what is chosen out of its reports: the replica is active in it. What is kept
    /// of this view and earlier ones is dropped, but for the certificate. Takes no memory.
    pub fn adopted(&mut self, cert: ViewCert, chosen: Chosen)
        requires { IsCertified self.old.counts self.old.interval cert chosen }
        ensures { self.new ≡ views.adopted cert chosen self.old }
    {
        let view = cert.new.stmt.view;
        self.mode = Mode::Active(view);
        self.last_view = view;
        self.began_place = chosen.place;
        self.began_head = chosen.head;
        self.specs = None;
        self.accepted = None;
        self.waiting = None;
        self.view_cert = Some(cert);
        forget_all(&mut self.hated);
        drop_changes(&mut self.changes, view);
        drop_begans(&mut self.begans, view);
    }
}

// One more, where there is one and there are not so many yet.
fn push_up_to(
    count: u64,
    begans: &mut Items<Signed<Began>>,
    one: Option<&Signed<Began>>,
) -> Result<(), Want>
    requires { length begans.old ≤ count }
    ensures { OnOk result (begans.new ≡ take count (begans.old ++ option_to_list (option_copied one.entry))) }
{
    match one {
        Some(began) if (begans.len() as u64) < count => begans.push(began_copy(began)?),
        _ => Ok(()),
    }
}

fn began_copy(began: &Signed<Began>) -> Result<Signed<Began>, Want>
    ensures { IfOk result (λ copy. copy ≡ began.now) }
{
    Ok(began.clone()?)
}

fn new_copy(alloc: Global, new: &Signed<New>) -> Result<Signed<New>, Want>
    ensures { IfOk result (λ copy. copy ≡ new.now) }
{
    Ok(Signed {
        by: new.by,
        stmt: New {
            view: new.stmt.view,
            changes: change_copies(alloc, new.stmt.changes.as_slice())?,
        },
        sig: new.sig.clone()?,
    })
}

fn change_copies(alloc: Global, changes: &[Signed<Change>]) -> Result<Items<Signed<Change>>, Want>
    ensures { IfOk result (λ l. l ≡ changes.now) }
{
    let mut copies = Items::new(alloc);
    for change in changes {
        copies.push(change_copy(change)?)?;
    }
    Ok(copies)
}

// Reports for this view and earlier ones are dropped.
fn drop_changes(changes: &mut [Option<Signed<Change>>], view: View)
    ensures changes { changes.new ≡ map (views.change_past view.0) changes.old }
    ensures len { length changes.new ≡ length changes.old }
{
    for slot in changes.iter_mut() {
        drop_change(slot, view);
    }
}

fn drop_change(slot: &mut Option<Signed<Change>>, view: View)
    ensures { slot.new ≡ views.change_past view.0 slot.old }
{
    if matches!(slot, Some(change) if change.stmt.view <= view) {
        *slot = None;
    }
}

// Confirmations of this view and earlier ones are dropped.
fn drop_begans(begans: &mut [Option<Signed<Began>>], view: View)
    ensures begans { begans.new ≡ map (views.began_past view.0) begans.old }
    ensures len { length begans.new ≡ length begans.old }
{
    for slot in begans.iter_mut() {
        drop_began(slot, view);
    }
}

fn drop_began(slot: &mut Option<Signed<Began>>, view: View)
    ensures { slot.new ≡ views.began_past view.0 slot.old }
{
    if matches!(slot, Some(began) if began.stmt.view <= view) {
        *slot = None;
    }
}
