ghost use Rattle.std.specs.Prelude.{◌≡◌, ◌+◌, ◌<◌, ◌^◌, ℕ, true, List, Some, None};
ghost use Rattle.zy_base.specs.declared.counts.Counts.{Counts};
ghost use Rattle.zy_base.specs.declared.ids.Digest.{Digest};
ghost use Rattle.zy_base.specs.declared.ids.Place.{Place};
ghost use Rattle.zy_base.specs.declared.ids.View.{View};
ghost use Rattle.zy_chain.specs.Stretch.{Stretch, head_in};
ghost use Rattle.zy_parts.specs.Reports.{IsChangeInRange};
ghost use Rattle.zy_parts.specs.Signing.{IsSignedInRange};
ghost use Rattle.zy_parts.specs.declared.reports.Change.{Change};
ghost use Rattle.zy_parts.specs.declared.signed.Signed.{Signed};
ghost use Rattle.zy_parts.specs.declared.statements.Check.{Check};
ghost use Rattle.zy_vframes.specs.declared.frame.ViewCert.{ViewCert};
ghost use Rattle.zy_evidence.specs.Reading.{stretch_of};
ghost use Rattle.zy_evidence.specs.Rules.{is_stable_proven, rule_of, rule_of_itself};
ghost use Rattle.zy_change.specs.declared.kept.Accepted.{Accepted};
ghost use Rattle.zy_change.specs.Fit.{IsAccepted, IsCertified, IsFit, IsGiven};
ghost use Rattle.zy_change.specs.Owing.{change_to, provider_in};
ghost use Rattle.zy_change.specs.Views.{Views, certificate_of, told_of};

/// The own report breaks no rule in a change for the next view, and so for any later one, where its stable checkpoint is
/// proven and the report doesn't contradict itself: the rest is kept.
pub fn true_reports()
    ensures { (v : Views) (stable : View × Place × Digest × Digest) (proof : List (Signed Check)) (stretch : Stretch) → IsFit v → is_stable_proven v.counts (told_of v stable proof stretch) ≡ true → rule_of_itself v.interval (told_of v stable proof stretch) ≡ None → rule_of v.counts v.interval (change_to (record { 0 = v.last_view.0 + 1 }) (told_of v stable proof stretch)) ≡ None }
{}

/// What is chosen out of a new view's reports stands in one of them: that has the head at the place, breaks no rule, and is
/// in range.
pub fn providers()
    ensures provider { (counts : Counts) (interval : ℕ) (a : Accepted) → IsAccepted counts interval a → (c : Signed Change) × (provider_in a ≡ Some c) × (head_in (stretch_of c.stmt.told) a.chosen.place.0 ≡ Some a.chosen.head) }
    ensures given { (counts : Counts) (interval : ℕ) (a : Accepted) (c : Signed Change) → IsAccepted counts interval a → provider_in a ≡ Some c → IsGiven counts interval a.new.stmt.view c × IsSignedInRange IsChangeInRange c }
    ensures place { (counts : Counts) (interval : ℕ) (a : Accepted) → IsAccepted counts interval a → a.chosen.place.0 < 2 ^ 62 }
{}

/// The certificate that the kept confirmations make is one for what is chosen.
pub fn certificates()
    ensures { (v : Views) (a : Accepted) (cert : ViewCert) → IsFit v → IsAccepted v.counts v.interval a → certificate_of v a ≡ Some cert → IsCertified v.counts v.interval cert a.chosen }
{}
