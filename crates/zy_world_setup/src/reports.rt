//! What the frames of a change of view bring: of the reports in them each entry with its link, and a snapshot.

ghost use Rattle.std.specs.Prelude.{◌≡◌, ◌∷◌, [], All, IfOk, OnOk, Err};
ghost use Rattle.std.specs.List.{flat_map};
ghost use Rattle.zy_base.specs.declared.ids.Digest.{Digest as Sum};
ghost use Rattle.zy_chain.specs.Entries.{IsEntryInRange, bytes_of_entry, digest_of_entry};
ghost use Rattle.zy_chain.specs.Heads.{head_after};
ghost use Rattle.zy_parts.specs.Reports.{IsChangeInRange};
ghost use Rattle.zy_parts.specs.Signing.{IsSignedInRange};
ghost use Rattle.zy_vframes.specs.ViewFrames.{IsFrameInRange};
ghost use Rattle.zy_world_law.specs.Texts.{entry_texts, link_text, report_texts, view_frame_texts};
ghost use Rattle.zy_world_setup.specs.Kept.{Keeps, Clashes};
ghost use Rattle.zy_world_setup.specs.declared.fault.TextFault.TheVariants.{Clash};

use crate::fault::TextFault;
use crate::kept::KeptTexts;
use zy_base::Digest;
use zy_chain::Entry;
use zy_parts::{Change, Signed};
use zy_vframes::ViewFrame;

impl KeptTexts {
    // What a frame of a change of view brings. After a fault the texts before it may be kept.
    pub(crate) fn keep_view_frame(&mut self, frame: &ViewFrame) -> Result<(), TextFault>
        requires { IsFrameInRange frame.now }
        ensures keeps { OnOk result (Keeps (view_frame_texts frame.now) self.old self.new) }
        ensures clash { (d : Sum) → result ≡ Err (Clash d) → Clashes (view_frame_texts frame.now) self.old d }
    {
        match frame {
            ViewFrame::ViewChange(change) => self.keep_report(change),
            ViewFrame::NewView(new) => self.keep_reports(new.stmt.changes.as_slice()),
            ViewFrame::ViewCert(cert) => self.keep_reports(cert.new.stmt.changes.as_slice()),
            ViewFrame::State { snapshot, .. } => self.keep(snapshot.as_slice()),
            ViewFrame::ViewConfirm(_) => Ok(()),
            ViewFrame::Fetch(_) => Ok(()),
        }
    }

    fn keep_reports(&mut self, reports: &[Signed<Change>]) -> Result<(), TextFault>
        requires { All (IsSignedInRange IsChangeInRange) reports.now }
        ensures keeps { OnOk result (Keeps (flat_map report_texts reports.now) self.old self.new) }
        ensures clash { (d : Sum) → result ≡ Err (Clash d) → Clashes (flat_map report_texts reports.now) self.old d }
    {
        for report in reports {
            self.keep_report(report)?;
        }
        Ok(())
    }

    fn keep_report(&mut self, report: &Signed<Change>) -> Result<(), TextFault>
        requires { IsSignedInRange IsChangeInRange report.now }
        ensures keeps { OnOk result (Keeps (report_texts report.now) self.old self.new) }
        ensures clash { (d : Sum) → result ≡ Err (Clash d) → Clashes (report_texts report.now) self.old d }
    {
        let told = &report.stmt.told;
        self.keep_entries(told.stable_head, told.entries.as_slice())
    }

    // The entries that stand in a history behind this head.
    fn keep_entries(&mut self, head: Digest, entries: &[Entry]) -> Result<(), TextFault>
        requires { All IsEntryInRange entries.now }
        ensures keeps { OnOk result (Keeps (entry_texts head entries.now) self.old self.new) }
        ensures clash { (d : Sum) → result ≡ Err (Clash d) → Clashes (entry_texts head entries.now) self.old d }
    {
        let mut head = head;
        for entry in entries {
            head = self.keep_linked(&head, entry)?;
        }
        Ok(())
    }

    // An entry's bytes, and the link by which it stands behind this head. Beside them the head behind it.
    pub(crate) fn keep_linked(&mut self, head: &Digest, entry: &Entry) -> Result<Digest, TextFault>
        requires { IsEntryInRange entry.now }
        ensures head { IfOk result (λ d. d ≡ head_after head.now (digest_of_entry entry.now)) }
        ensures keeps { OnOk result (Keeps (bytes_of_entry entry.now ∷ link_text head.now entry.now ∷ []) self.old self.new) }
        ensures clash { (d : Sum) → result ≡ Err (Clash d) → Clashes (bytes_of_entry entry.now ∷ link_text head.now entry.now ∷ []) self.old d }
    {
        let digest = self.keep_entry(entry.client, entry.stamp, entry.op.as_slice())?;
        self.keep_joined(&head.0, &digest.0)
    }
}
