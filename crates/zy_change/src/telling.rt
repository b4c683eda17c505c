ghost use Rattle.std.specs.Prelude.{◌≡◌, ◌+◌, ◌++◌, option_copied, option_to_list, IfOk, OnOk, slice_get};
ghost use Rattle.std.specs.List.{AllByRecursion};
ghost use Rattle.std.specs.Option.{ForSome};
ghost use Rattle.zy_chain.specs.Entries.{IsEntryInRange};
ghost use Rattle.zy_parts.specs.Reports.{IsToldInRange};
ghost use Rattle.zy_change.specs.Fit.{IsStableInRange};
ghost use Rattle.zy_change.specs.Views as views;

use crate::kept::Certificate;
use crate::machine::ViewMachine;
use std::alloc::Global;
use zy_base::{Digest, Items, Place, View, Want};
use zy_chain::{Entry, Spine};
use zy_parts::{Began, Check, Signed, Spec, Told};

// The report of the last active view.
impl ViewMachine {
    /// The report that the replica would sign now: its last view with the certificate with which that began and the
    /// furthest commit certificate of it, the stable checkpoint, by its view, place, head and snapshot's digest, with its
    /// proof, and the spine's entries.
    pub fn told(
        &self,
        stable: (View, Place, Digest, Digest),
        proof: &[Signed<Check>],
        spine: &Spine,
    ) -> Result<Told, Want>
        requires { IsStableInRange stable proof.now spine.now }
        ensures told { IfOk result (λ t. t ≡ views.told_of self.now stable proof.now spine.now) }
        ensures in_range { IfOk result IsToldInRange }
    {
        Ok(Told {
            last_view: self.last_view,
            began_place: self.began_place,
            began_head: self.began_head,
            began: self.began()?,
            specs: specs_in(&self.specs)?,
            stable_view: stable.0,
            stable_place: stable.1,
            stable_head: stable.2,
            state: stable.3,
            checks: check_copies(self.alloc, proof)?,
            entries: entry_copies(self.alloc, spine)?,
        })
    }

    // The certificate with which the last view began.
    fn began(&self) -> Result<Items<Signed<Began>>, Want>
        ensures { IfOk result (λ l. l ≡ views.begans_in self.now.view_cert) }
    {
        match &self.view_cert {
            None => Ok(Items::new(self.alloc)),
            Some(cert) => began_copies(&cert.begans),
        }
    }
}

fn began_copies(begans: &Items<Signed<Began>>) -> Result<Items<Signed<Began>>, Want>
    ensures { IfOk result (λ l. l ≡ begans.now) }
{
    Ok(begans.clone()?)
}

fn specs_in(kept: &Option<Certificate>) -> Result<Option<Items<Signed<Spec>>>, Want>
    ensures { IfOk result (λ o. o ≡ views.specs_in kept.now) }
{
    match kept {
        None => Ok(None),
        Some(kept) => Ok(Some(spec_copies(&kept.specs)?)),
    }
}

fn spec_copies(specs: &Items<Signed<Spec>>) -> Result<Items<Signed<Spec>>, Want>
    ensures { IfOk result (λ l. l ≡ specs.now) }
{
    Ok(specs.clone()?)
}

fn check_copies(alloc: Global, proof: &[Signed<Check>]) -> Result<Items<Signed<Check>>, Want>
    ensures { IfOk result (λ l. l ≡ proof.now) }
{
    let mut checks = Items::new(alloc);
    for check in proof {
        checks.push(check_copy(check)?)?;
    }
    Ok(checks)
}

fn check_copy(check: &Signed<Check>) -> Result<Signed<Check>, Want>
    ensures { IfOk result (λ copy. copy ≡ check.now) }
{
    Ok(check.clone()?)
}

// The entries above the base.
fn entry_copies(alloc: Global, spine: &Spine) -> Result<Items<Entry>, Want>
    ensures entries { IfOk result (λ l. l ≡ spine.now.entries) }
    ensures in_range { IfOk result (AllByRecursion IsEntryInRange) }
{
    let mut entries = Items::new(alloc);
    for above in 0..spine.end().0 - spine.base().0 {
        let place = Place(spine.base().0 + above + 1);
        push_entry(&mut entries, spine.entry_at(place))?;
    }
    Ok(entries)
}

fn push_entry(entries: &mut Items<Entry>, entry: Option<&Entry>) -> Result<(), Want>
    requires each { AllByRecursion IsEntryInRange entries.old }
    requires entry { ForSome (option_copied entry) IsEntryInRange }
    ensures pushed { OnOk result (entries.new ≡ entries.old ++ option_to_list (option_copied entry.entry)) }
    ensures in_range { OnOk result (AllByRecursion IsEntryInRange entries.new) }
{
    match entry {
        None => Ok(()),
        Some(entry) => entries.push(entry_copy(entry)?),
    }
}

fn entry_copy(entry: &Entry) -> Result<Entry, Want>
    ensures { IfOk result (λ copy. copy ≡ entry.now) }
{
    Ok(entry.clone()?)
}
