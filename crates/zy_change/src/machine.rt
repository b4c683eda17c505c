ghost use Rattle.std.specs.Prelude.{◌≡◌, ℕ, ◌<◌, ◌≤◌, ◌^◌, length, replicate, option_copied, Some, None, true, false, IfOk, IfSome};
ghost use Rattle.std.specs.Option.{ForSome};
ghost use Rattle.zy_wire.specs.Fields.{FitsList};
ghost use Rattle.zy_parts.specs.Reports.{IsChangeInRange};
ghost use Rattle.zy_parts.specs.Signing.{IsSignedInRange};
ghost use Rattle.zy_parts.specs.Statements.{IsSpecInRange};
ghost use Rattle.zy_evidence.specs.Rules.{is_spec_proven};
ghost use Rattle.zy_vframes.specs.ViewFrames.{IsFrameInRange};
ghost use Rattle.zy_vframes.specs.declared.frame.ViewFrame.TheVariants as frames;
ghost use Rattle.zy_change.specs.Views as views;
ghost use Rattle.zy_change.specs.Fit.{IsCertified, IsFit, IsKeptChange};
ghost use Rattle.zy_evidence.specs.Reading.{number_of_party};
ghost use Rattle.zy_base.specs.declared.ids.Party.TheVariants as parties;

use crate::kept::{Accepted, Certificate, Waiting};
use crate::slots::no_slots;
use std::alloc::Global;
use std::marker::Model;
use zy_base::{Counts, Digest, Items, Mode, Party, Place, ReplicaId, View, Want};
use zy_chain::EMPTY_HEAD;
use zy_parts::{Began, Change, Hate, Signed, Spec};
use zy_vframes::ViewCert;

/// What a replica keeps for changes of view: its mode, the last view in which it was active with what its report tells of
/// it, and the hates, reports and confirmations of all replicas. Contracts see it as a record.
#[derive(Drop)]
pub struct ViewMachine {
    pub(crate) alloc: Global,
    pub(crate) me: ReplicaId,
    pub(crate) counts: Counts,
    pub(crate) interval: u64,
    pub(crate) mode: Mode,
    pub(crate) last_view: View,
    pub(crate) began_place: Place,
    pub(crate) began_head: Digest,
    pub(crate) view_cert: Option<ViewCert>,
    pub(crate) specs: Option<Certificate>,
    pub(crate) changes: Vec<Option<Signed<Change>>>,
    pub(crate) hated: Vec<bool>,
    pub(crate) begans: Vec<Option<Signed<Began>>>,
    pub(crate) accepted: Option<Accepted>,
    pub(crate) waiting: Option<Waiting>,
}

impl Model for ViewMachine {
    ghost use Rattle.zy_change.specs.Views.{Views};

    ghost Value = { Views };

    ghost view = { λ m. record {
      me = m.me;
      counts = m.counts;
      interval = m.interval;
      mode = m.mode;
      last_view = m.last_view;
      began_place = m.began_place;
      began_head = m.began_head;
      view_cert = m.view_cert;
      specs = m.specs;
      changes = m.changes.items;
      hated = m.hated.items;
      begans = m.begans.items;
      accepted = m.accepted;
      waiting = m.waiting;
    } };

    ghost use Rattle.zy_change.specs.Fit.{IsFit};

    ghost invariant = { λ m. IsFit (record {
      me = m.me;
      counts = m.counts;
      interval = m.interval;
      mode = m.mode;
      last_view = m.last_view;
      began_place = m.began_place;
      began_head = m.began_head;
      view_cert = m.view_cert;
      specs = m.specs;
      changes = m.changes.items;
      hated = m.hated.items;
      begans = m.begans.items;
      accepted = m.accepted;
      waiting = m.waiting;
    }) };
}

impl ViewMachine {
    /// A replica that begins: active in view 0 with the empty history.
    pub fn start(alloc: Global, counts: Counts, me: ReplicaId, k: u64) -> Result<ViewMachine, Want>
        requires me { me.0 < counts.n }
        requires at_least { 4 ≤ k }
        requires at_most { k ≤ 32 }
        ensures { IfOk result (λ m. m ≡ views.start_of counts me k) }
    {
        Ok(ViewMachine {
            alloc,
            me,
            counts,
            interval: k,
            mode: Mode::Active(View(0)),
            last_view: View(0),
            began_place: Place(0),
            began_head: EMPTY_HEAD,
            view_cert: None,
            specs: None,
            changes: no_slots(alloc, counts.n)?,
            hated: nobody(alloc, counts.n)?,
            begans: no_slots(alloc, counts.n)?,
            accepted: None,
            waiting: None,
        })
    }

    /// Whether the replica takes part in its view, or has left the one before and waits for this one to begin.
    pub fn mode(&self) -> Mode
        ensures { result ≡ self.now.mode }
    {
        self.mode
    }

    /// The own view.
    pub fn view(&self) -> View
        ensures view { result.0 ≡ views.own_view self.now }
        ensures fit { IsFit self.now }
    {
        self.mode.view()
    }

    /// The replica itself.
    pub fn me(&self) -> ReplicaId
        ensures me { result ≡ self.now.me }
        ensures member { result.0 < self.now.counts.n }
    {
        self.me
    }

    /// The numbers of the group.
    pub fn counts(&self) -> &Counts
        ensures { result.now ≡ self.now.counts }
    {
        &self.counts
    }

    /// How many places lie between two checkpoints.
    pub fn interval(&self) -> u64
        ensures interval { result ≡ self.now.interval }
        ensures least { 4 ≤ result }
        ensures most { result ≤ 32 }
    {
        self.interval
    }

    /// The new view that it confirmed.
    pub fn accepted(&self) -> Option<&Accepted>
        ensures { option_copied result ≡ self.now.accepted }
    {
        self.accepted.as_ref()
    }

    /// The last view in which it was active.
    pub fn last_view(&self) -> View
        ensures { result ≡ self.now.last_view }
    {
        self.last_view
    }

    /// The own report of the view that it left for last.
    pub fn own_change(&self) -> Option<&Signed<Change>>
        ensures change { option_copied result ≡ views.own_change self.now }
        ensures in_range { ForSome (option_copied result) (IsSignedInRange IsChangeInRange) }
    {
        self.kept_change(self.me.0 as usize)
    }

    /// Whether a replica's hate of the own view is counted.
    pub fn has_hate_of(&self, id: ReplicaId) -> bool
        ensures { result ≡ views.is_hated_by self.now (parties.Replica id) }
    {
        match self.hated.get(id.0 as usize) {
            Some(hated) => *hated,
            None => false,
        }
    }

    /// The certificate with which the last view began. `None` for the first view.
    pub fn kept_cert(&self) -> Option<&ViewCert>
        ensures cert { option_copied result ≡ self.now.view_cert }
        ensures in_range { ForSome (option_copied result) (λ cert. IsFrameInRange (frames.ViewCert cert)) }
    {
        self.view_cert.as_ref()
    }

    /// The view certificate that waits for a snapshot, with its choice.
    pub fn waiting(&self) -> Option<&Waiting>
        ensures waiting { option_copied result ≡ self.now.waiting }
        ensures certified { IfSome (option_copied result) (λ w. IsCertified self.now.counts self.now.interval w.cert w.chosen) }
    {
        self.waiting.as_ref()
    }

    /// Counts a hate of the own view. Its signer is a replica of the group. Takes no memory.
    pub fn keep_hate(&mut self, vote: Signed<Hate>)
        requires { number_of_party vote.by < self.old.counts.n }
        ensures { self.new ≡ views.with_hate vote.by self.old }
    {
        self.hated[index_of(vote.by)] = true;
    }

    /// Keeps a report in place of its signer's earlier one. Takes no memory.
    pub fn keep_change(&mut self, vote: Signed<Change>)
        requires replica { number_of_party vote.by < self.old.counts.n }
        requires kept { IsKeptChange self.old.counts self.old.interval (number_of_party vote.by) vote }
        ensures { self.new ≡ views.with_change vote self.old }
    {
        let index = index_of(vote.by);
        self.changes[index] = Some(vote);
    }

    /// Leaves for a view, once the report for it is kept. Takes no memory.
    pub fn leave(&mut self, view: View)
        requires later { self.old.last_view.0 ≤ view.0 }
        requires view { view.0 < 2 ^ 62 }
        ensures { self.new ≡ views.left view self.old }
    {
        self.mode = Mode::Leaving(view);
        self.accepted = None;
        self.waiting = None;
        forget_all(&mut self.hated);
    }

    /// Keeps a commit certificate of the last view, which is of this place, where it is the first or further. Takes no
    /// memory.
    pub fn keep_specs(&mut self, place: Place, list: Vec<Signed<Spec>>)
        requires in_range { FitsList (IsSignedInRange IsSpecInRange) 1 16 list.items }
        requires proven { is_spec_proven self.old.counts self.old.last_view (Some list.items) ≡ true }
        ensures { self.new ≡ views.with_specs place list.items self.old }
    {
        if self.is_further(place) {
            self.specs = Some(Certificate {
                place,
                specs: Items::from(list),
            });
        }
    }

    /// Whether a commit certificate of this place is the first, or further than the one that is kept.
    pub fn is_further(&self, place: Place) -> bool
        ensures { result ≡ views.is_further place self.now.specs }
    {
        match &self.specs {
            None => true,
            Some(kept) => place > kept.place,
        }
    }
}

// A party's number, by which it has its slot.
pub(crate) fn index_of(by: Party) -> usize
    ensures { result ≡ number_of_party by }
{
    match by {
        Party::Replica(id) => id.0 as usize,
        Party::Client(id) => id.0 as usize,
    }
}

// No hate of so many replicas is counted.
fn nobody(alloc: Global, replicas: u64) -> Result<Vec<bool>, Want>
    ensures { IfOk result (λ v. v.items ≡ replicate replicas false) }
{
    let mut hated = Vec::with_capacity(alloc, replicas as usize)?;
    for _ in 0..replicas {
        hated.push(false)?;
    }
    Ok(hated)
}

pub(crate) fn forget_all(hated: &mut [bool])
    ensures all { hated.new ≡ replicate (length hated.old) false }
    ensures len { length hated.new ≡ length hated.old }
{
    hated.fill(false);
}
