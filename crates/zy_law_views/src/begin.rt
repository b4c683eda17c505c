ghost use Rattle.std.specs.Prelude.{◌≡◌, ℕ, ◌-◌, ◌<◌, ◌≤◌, List, Some, length, take};
ghost use Rattle.zy_base.specs.declared.ids.Digest.{Digest};
ghost use Rattle.zy_chain.specs.Stretch.{Mark};
ghost use Rattle.zy_chain.specs.declared.entry.Entry.{Entry};
ghost use Rattle.zy_change.specs.declared.kept.Chosen.{Chosen};
ghost use Rattle.zy_choose.specs.Marks.{link};
ghost use Rattle.zy_evidence.specs.Reading.{stretch_of};
ghost use Rattle.zy_exec.specs.Kept as kept;
ghost use Rattle.zy_exec.specs.Kept.{Kept, last_place, settled};
ghost use Rattle.zy_law.specs.Lawful.{IsLawful};
ghost use Rattle.zy_law.specs.Said.{IsCorrect};
ghost use Rattle.zy_law.specs.Steps.{MayStand, after_standing};
ghost use Rattle.zy_law.specs.World.{World};
ghost use Rattle.zy_parts.specs.declared.reports.Change.{Change};
ghost use Rattle.zy_parts.specs.declared.reports.New.{New};
ghost use Rattle.zy_parts.specs.declared.signed.Signed.{Signed};
ghost use Rattle.zy_parts.specs.declared.statements.Check.{Check};
ghost use Rattle.zy_vframes.specs.declared.frame.ViewCert.{ViewCert};
ghost use Rattle.zy_law_views.specs.Adopted.{AreWorldTexts, HaveBoth, IsAdopted, Matches, run_on};
ghost use Rattle.zy_law_views.specs.Held.{IsProvidedBy, mark_at};
ghost use Rattle.zy_law_views.specs.Texts.{AreLinks, Texts};
ghost use Rattle.zy_law_views.specs.Tied.{Core, IsBeginning, IsGrounded, IsTied, began_with, check_in, stand_in};

use zy_base::Machine;

/// A correct replica that is tied to a lawful world may stand in a later view with the history that the view's certificate
/// confirms, whether it ran on to it or installed it, and is tied to the world in which it stands there.
pub fn beginning_views<M: Machine>()
    ensures stands { (interval r : ℕ) (w : World) (c : Core M.State) (history : List Entry) (cert : ViewCert) (chosen : Chosen) (k : Kept M.State) (next : List Entry) → IsLawful w → IsCorrect w r → IsTied M.rules interval w r c history → IsBeginning M.rules interval w c cert chosen k next → MayStand w r (stand_in cert next) }
    ensures tied { (interval r : ℕ) (w : World) (c : Core M.State) (history : List Entry) (cert : ViewCert) (chosen : Chosen) (k : Kept M.State) (next : List Entry) (stable : Check) (proof : List (Signed Check)) → IsLawful w → IsCorrect w r → IsTied M.rules interval w r c history → IsBeginning M.rules interval w c cert chosen k next → IsGrounded interval w (began_with cert chosen k stable proof c) → IsTied M.rules interval (after_standing w r (stand_in cert next)) r (began_with cert chosen k stable proof c) next }
{}

/// What it keeps then has a proven checkpoint below it, with room for its next report: its own stable one, where that isn't
/// below the provider's; or the provider's, where what it keeps begins there.
pub fn grounded_views<M: Machine>()
    ensures own { (interval : ℕ) (texts : Texts) (w : World) (c : Core M.State) (cert : ViewCert) (chosen : Chosen) (k : Kept M.State) (next : List Entry) (p : Signed Change) → IsLawful w → w.next ≡ link → AreLinks w texts → IsBeginning M.rules interval w c cert chosen k next → IsProvidedBy w interval cert.new.stmt (mark_at chosen.place chosen.head) p → IsGrounded interval w c → k.base.place ≡ c.kept.base.place → k.base.head ≡ c.kept.base.head → p.stmt.told.stable_place.0 ≤ k.base.place → IsGrounded interval w (began_with cert chosen k c.stable c.proof c) }
    ensures provided { (interval : ℕ) (texts : Texts) (w : World) (c : Core M.State) (cert : ViewCert) (chosen : Chosen) (k : Kept M.State) (next : List Entry) (p : Signed Change) → IsLawful w → w.next ≡ link → AreLinks w texts → IsBeginning M.rules interval w c cert chosen k next → IsProvidedBy w interval cert.new.stmt (mark_at chosen.place chosen.head) p → 0 < p.stmt.told.stable_place.0 → k.base.place ≡ p.stmt.told.stable_place.0 → k.base.head ≡ p.stmt.told.stable_head → IsGrounded interval w (began_with cert chosen k (check_in p.stmt.told) p.stmt.told.checks c) }
{}

/// A tied replica that goes back to a place at which its history and the provider's report have one head, and runs on along the
/// report, stands for the choice's list. It does so too once a later place is its base.
pub fn running_on<M: Machine>()
    ensures adopted { (interval r : ℕ) (texts : Texts) (w : World) (c : Core M.State) (history : List Entry) (n : New) (m : Mark) (p : Signed Change) (place : ℕ) (head : Digest) → IsLawful w → IsCorrect w r → Matches M.rules w → AreWorldTexts M.rules interval w texts → IsTied M.rules interval w r c history → IsProvidedBy w interval n m p → HaveBoth (stretch_of p.stmt.told) (kept.stretch_of c.kept) place head → place ≤ m.place → (list : List Entry) × IsAdopted M.rules interval texts w m (run_on (stretch_of p.stmt.told) place m.place c.kept) list }
    ensures settled { (interval : ℕ) (texts : Texts) (w : World) (m : Mark) (k : Kept M.State) (list : List Entry) (place : ℕ) → IsAdopted M.rules interval texts w m k list → k.base.place ≤ place → place ≤ last_place k → IsAdopted M.rules interval texts w m (settled M.rules place k) list }
{}
