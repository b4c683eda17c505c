ghost use Rattle.std.specs.Prelude.{◌≡◌, ◌<◌, ◌≤◌, ◌^◌, All, option_copied, option_map, slice_get, Some, Ok, IfSome, IfOk};
ghost use Rattle.zy_parts.specs.declared.reports.Told.{Told};
ghost use Rattle.zy_parts.specs.Reports.{IsNewInRange};
ghost use Rattle.zy_parts.specs.Signing.{IsSignedInRange};
ghost use Rattle.zy_evidence.specs.Reading.{IsReplica, number_of_party};
ghost use Rattle.zy_evidence.specs.Rules.{is_certified_at};
ghost use Rattle.zy_vframes.specs.ViewFrames.{IsFrameInRange};
ghost use Rattle.zy_vframes.specs.declared.frame.ViewFrame.TheVariants as frames;
ghost use Rattle.zy_change.specs.Ahead.{IsOwedInRange};
ghost use Rattle.zy_change.specs.Fit.{IsFit, IsAccepted, IsCertified};
ghost use Rattle.zy_change.specs.Owing.{Pens};
ghost use Rattle.zy_change.specs.Owing as owing;
ghost use Rattle.zy_base.specs.declared.step.Answer.TheVariants.{Held};
ghost use Rattle.zy_change.specs.Views as views;
ghost use Rattle.zy_change.specs.EnteringAhead as forms;
ghost use Rattle.zy_change.specs.EnteringAhead.{IsInFrames};
ghost use Rattle.zy_change.specs.Confirming as confirming;

use crate::judging::chosen_in;
use crate::kept::{Accepted, Chosen};
use crate::machine::ViewMachine;
use crate::owed::Owed;
use crate::owing::adoption;
use std::alloc::Global;
use zy_base::{Answer, Cause, Digest, Mode, Party, Place, View, Want};
use zy_cert::check_cert;
use zy_parts::{Began, New, Signed, Told};
use zy_vframes::ViewCert;

/// What the new view of its primary owes. `OldView` where the view is below the own one, or has begun; `Repeat` where one
/// of this view is confirmed, or the replica leads it; then the first cause against its reports: `TooFew` or `Mixed` by
/// their number, `Repeat` where two are of one replica, `Mixed` where one is for another view, `BadReport` with the first
/// rule that the first bad one breaks, `AnchorClash`. No signature is checked.
pub fn new_view(alloc: Global, machine: &ViewMachine, frame: &Signed<New>) -> Result<Owed, Want>
    requires signers { All (λ c. IsReplica c.by) frame.now.stmt.changes }
    requires in_range { IsSignedInRange IsNewInRange frame.now }
    ensures owed { (told : Told) (pens : Pens) → IfOk result (λ o. o ≡ confirming.new_view_owes machine.now frame.now told pens) }
    ensures accepted { IfOk result (λ o. IfSome o.confirm (λ chosen. IsAccepted machine.now.counts machine.now.interval (record { new = frame.now; chosen = chosen }))) }
    ensures in_range { IfOk result IsOwedInRange }
{
    new_view_owes(alloc, machine, frame)
}

fn new_view_owes(alloc: Global, machine: &ViewMachine, frame: &Signed<New>) -> Result<Owed, Want>
    requires signers { All (λ c. IsReplica c.by) frame.now.stmt.changes }
    requires in_range { IsSignedInRange IsNewInRange frame.now }
    ensures owed { IfOk result (λ o. o ≡ forms.new_view_ahead machine.now frame.now) }
    ensures in_range { IfOk result IsOwedInRange }
    ensures fit { IsFit machine.now }
{
    let view = frame.stmt.view;
    if is_over(machine, view) {
        return Ok(Owed::refused(Cause::OldView));
    }
    if accepted_for(machine, view).is_some() || machine.leads(view) {
        return Ok(Owed::refused(Cause::Repeat));
    }
    match chosen_in(alloc, machine, &frame.stmt)? {
        Err(cause) => Ok(Owed::refused(cause)),
        Ok(chosen) => {
            let owed = confirming(chosen, arriving(machine, view));
            adopting(machine, machine.me().0 as usize, frame, chosen, owed)
        }
    }
}

/// What the confirmation of a replica of the group owes. `OldView` where the view is below the own one, or has begun;
/// `Repeat` where one of its signer for this view or a later one is kept; `OtherHistory`, or else `Unmatched`, where it
/// contradicts the own one. It is held where no new view of its view is confirmed yet.
pub fn began(machine: &ViewMachine, vote: &Signed<Began>) -> Result<Owed, Want>
    requires { number_of_party vote.now.by < machine.now.counts.n }
    ensures { IfOk result (λ o. o ≡ confirming.began_owes machine.now vote.now) }
{
    began_owes(machine, vote)
}

fn began_owes(machine: &ViewMachine, vote: &Signed<Began>) -> Result<Owed, Want>
    requires member { number_of_party vote.now.by < machine.now.counts.n }
    ensures owed { IfOk result (λ o. o ≡ forms.began_ahead machine.now vote.now) }
    ensures fit { IsFit machine.now }
{
    let view = vote.stmt.view;
    if is_over(machine, view) {
        return Ok(Owed::refused(Cause::OldView));
    }
    if is_kept_from(machine, vote) {
        return Ok(Owed::refused(Cause::Repeat));
    }
    match accepted_for(machine, view) {
        None => Ok(held()),
        Some(accepted) => compared(machine, accepted, vote),
    }
}

// Beside the own confirmation.
fn compared(machine: &ViewMachine, accepted: &Accepted, vote: &Signed<Began>) -> Result<Owed, Want>
    ensures { IfOk result (λ o. o ≡ forms.compared_ahead accepted.now (views.began_for accepted.now.new.stmt.view accepted.now.chosen) machine.now vote.now) }
{
    let own = accepted.began();
    if own.head != vote.stmt.head {
        return Ok(Owed::refused(Cause::OtherHistory(own.head, vote.stmt.head)));
    }
    if vote.stmt != own {
        return Ok(Owed::refused(Cause::Unmatched));
    }
    adopting(
        machine,
        number_of(vote.by),
        &accepted.new,
        accepted.chosen,
        Owed::nothing(),
    )
}

/// What a view certificate owes. `OldView` where the view is below the own one, or has begun; then the first cause against
/// its reports, as of a new view; then the first cause against its confirmations as a certificate; `Unmatched` where they
/// aren't of the choice. No signature is checked.
pub fn view_cert(alloc: Global, machine: &ViewMachine, cert: &ViewCert) -> Result<Owed, Want>
    requires signers { All (λ c. IsReplica c.by) cert.now.new.stmt.changes }
    requires in_range { IsFrameInRange (frames.ViewCert cert.now) }
    ensures owed { IfOk result (λ o. o ≡ confirming.view_cert_owes machine.now cert.now) }
    ensures certified { IfOk result (λ o. IfSome o.adopt (λ a. IsCertified machine.now.counts machine.now.interval cert.now a.chosen)) }
{
    view_cert_owes(alloc, machine, cert)
}

fn view_cert_owes(alloc: Global, machine: &ViewMachine, cert: &ViewCert) -> Result<Owed, Want>
    requires signers { All (λ c. IsReplica c.by) cert.now.new.stmt.changes }
    requires in_range { IsSignedInRange IsNewInRange cert.now.new }
    ensures owed { IfOk result (λ o. o ≡ confirming.view_cert_owes machine.now cert.now) }
    ensures place { IfOk result (λ o. IfSome o.adopt IsInFrames) }
{
    if is_over(machine, cert.new.stmt.view) {
        return Ok(Owed::refused(Cause::OldView));
    }
    match chosen_in(alloc, machine, &cert.new.stmt)? {
        Err(cause) => Ok(Owed::refused(cause)),
        Ok(chosen) => cert_compared(
            check_cert(machine.counts().cert, cert.begans.as_slice()),
            cert,
            chosen,
        ),
    }
}

// Its confirmations are of the choice.
fn cert_compared(
    found: Result<(View, Place, Digest), Cause>,
    cert: &ViewCert,
    chosen: Chosen,
) -> Result<Owed, Want>
    requires { chosen.place.0 < 2 ^ 62 }
    ensures owed { IfOk result (λ o. o ≡ confirming.cert_compared found cert.now chosen) }
    ensures place { IfOk result (λ o. IfSome o.adopt IsInFrames) }
{
    match found {
        Err(cause) => Ok(Owed::refused(cause)),
        Ok(point) => {
            if is_at(point, (cert.new.stmt.view, chosen.place, chosen.head)) {
                adopts(&cert.new, chosen, Owed::nothing())
            } else {
                Ok(Owed::refused(Cause::Unmatched))
            }
        }
    }
}

fn is_at(found: (View, Place, Digest), point: (View, Place, Digest)) -> bool
    ensures { result ≡ is_certified_at point (Ok found) }
{
    found.0 == point.0 && found.1 == point.1 && found.2 == point.2
}

// The view is past, or has begun.
fn is_over(machine: &ViewMachine, view: View) -> bool
    ensures over { result ≡ confirming.is_over machine.now view.0 }
    ensures fit { IsFit machine.now }
{
    view < machine.view() || machine.mode() == Mode::Active(view)
}

// The new view that is confirmed, where it is this one.
fn accepted_for(machine: &ViewMachine, view: View) -> Option<&Accepted>
    ensures { option_copied result ≡ confirming.accepted_for view.0 machine.now.accepted }
{
    match machine.accepted() {
        Some(accepted) if accepted.new.stmt.view == view => Some(accepted),
        _ => None,
    }
}

// A confirmation of its signer for this view or a later one is kept.
fn is_kept_from(machine: &ViewMachine, vote: &Signed<Began>) -> bool
    ensures { result ≡ confirming.is_began_from vote.now.stmt.view.0 (views.slot_of vote.now.by machine.now.begans) }
{
    match machine.kept_began(number_of(vote.by)) {
        Some(kept) => kept.stmt.view >= vote.stmt.view,
        None => false,
    }
}

// Once a confirmation of the replica with this number is kept, enough may be.
fn adopting(
    machine: &ViewMachine,
    by: usize,
    frame: &Signed<New>,
    chosen: Chosen,
    owed: Owed,
) -> Result<Owed, Want>
    ensures owed { IfOk result (λ o. o ≡ forms.adopting_ahead machine.now by (record { new = frame.now; chosen = chosen }) owed) }
    ensures in_range { IsOwedInRange owed → IfOk result IsOwedInRange }
{
    if machine.confirmers(by, &began_for(frame.stmt.view, chosen)) < machine.counts().cert {
        return Ok(owed);
    }
    adopts(frame, chosen, owed)
}

// The choice is adopted, with its provider's report.
fn adopts(frame: &Signed<New>, chosen: Chosen, owed: Owed) -> Result<Owed, Want>
    ensures owed { IfOk result (λ o. o ≡ record owed { adopt = owing.adoption_by (record { new = frame.now; chosen = chosen }) (owing.provider_in (record { new = frame.now; chosen = chosen })) }) }
    ensures in_range { IsOwedInRange owed → IfOk result IsOwedInRange }
    ensures place { chosen.place.0 < 2 ^ 62 → IfOk result (λ o. IfSome o.adopt IsInFrames) }
{
    Ok(Owed {
        adopt: adoption(frame.stmt.view, chosen, told_at(frame, chosen.provider))?,
        ..owed
    })
}

// What is told in the report at an index.
fn told_at(frame: &Signed<New>, index: usize) -> Option<&Told>
    ensures { option_copied result ≡ option_map (λ c. c.stmt.told) (slice_get frame.now.stmt.changes index) }
{
    match frame.stmt.changes.as_slice().get(index) {
        None => None,
        Some(change) => Some(&change.stmt.told),
    }
}

fn began_for(view: View, chosen: Chosen) -> Began
    ensures { result ≡ views.began_for view chosen }
{
    Began {
        view,
        place: chosen.place,
        head: chosen.head,
    }
}

fn held() -> Owed
    ensures { result ≡ record owing.nothing { answer = Held } }
{
    Owed {
        answer: Answer::Held,
        ..Owed::nothing()
    }
}

// Where the view is above the own one, its report is signed.
fn arriving(machine: &ViewMachine, view: View) -> Owed
    ensures owed { result ≡ forms.arriving_ahead machine.now view }
    ensures signs { result.signs ≤ 1 }
{
    if view > machine.view() {
        Owed {
            leave: Some(view),
            signs: 1,
            ..Owed::nothing()
        }
    } else {
        Owed::nothing()
    }
}

fn confirming(chosen: Chosen, owed: Owed) -> Owed
    requires { owed.signs ≤ 1 }
    ensures owed { result ≡ forms.confirming_ahead chosen owed }
    ensures in_range { chosen.place.0 < 2 ^ 62 → IsOwedInRange result }
{
    Owed {
        confirm: Some(chosen),
        signs: owed.signs + 1,
        ..owed
    }
}

// A party's number, by which it has its slot.
fn number_of(by: Party) -> usize
    ensures { result ≡ number_of_party by }
{
    match by {
        Party::Replica(id) => id.0 as usize,
        Party::Client(id) => id.0 as usize,
    }
}
