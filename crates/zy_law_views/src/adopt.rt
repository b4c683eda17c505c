ghost use Rattle.std.specs.Prelude.{◌≡◌, ℕ, ◌<◌, List};
ghost use Rattle.zy_base.specs.declared.cause.Cause.{Cause};
ghost use Rattle.zy_base.specs.declared.ids.Digest.{Digest};
ghost use Rattle.zy_base.specs.declared.ids.Place.{Place};
ghost use Rattle.zy_chain.specs.declared.entry.Entry.{Entry};
ghost use Rattle.zy_evidence.specs.Reading.{stretch_of};
ghost use Rattle.zy_law.specs.Lawful.{IsLawful};
ghost use Rattle.zy_law.specs.Said.{IsCorrect};
ghost use Rattle.zy_law.specs.World.{World};
ghost use Rattle.zy_parts.specs.declared.reports.Change.{Change};
ghost use Rattle.zy_parts.specs.declared.reports.New.{New};
ghost use Rattle.zy_parts.specs.declared.signed.Signed.{Signed};
ghost use Rattle.zy_table.specs.Adopting.{taken_over, verdict_of};
ghost use Rattle.zy_table.specs.State.{State};
ghost use Rattle.zy_table.specs.declared.deeds.Verdict.TheVariants.{Refuse, Take};
ghost use Rattle.zy_law_views.specs.Adopted.{AreWorldTexts, IsAdopted, Matches};
ghost use Rattle.zy_law_views.specs.Held.{IsProvidedBy, mark_at};
ghost use Rattle.zy_law_views.specs.Texts.{Texts};
ghost use Rattle.zy_law_views.specs.Tied.{IsTied};
ghost use Rattle.zy_law_views.specs.Cores.{core_of};

use zy_base::Machine;

/// What is chosen out of a proper new view of a later view is never refused by a correct replica that is tied to a lawful world:
/// the choice isn't below its stable place, the provider has its stable head, and its own snapshot at the provider's stable
/// place is the provider's.
pub fn never_refused<M: Machine>()
    ensures { (interval r : ℕ) (w : World) (s : State M.State) (history : List Entry) (n : New) (place : Place) (head : Digest) (p : Signed Change) (cause : Cause) → IsLawful w → IsCorrect w r → Matches M.rules w → IsTied M.rules interval w r (core_of s) history → IsProvidedBy w interval n (mark_at place head) p → s.views.last_view.0 < n.view.0 → verdict_of M.rules s.kept s.board.stable p.stmt.told place head ≡ Refuse cause → ⊥ }
{}

/// Where it can be taken up, what is kept then, back to where both are one and on along the report, stands for the choice's list.
pub fn taking_over<M: Machine>()
    ensures { (interval r : ℕ) (texts : Texts) (w : World) (s : State M.State) (history : List Entry) (n : New) (place : Place) (head : Digest) (p : Signed Change) → IsLawful w → IsCorrect w r → Matches M.rules w → AreWorldTexts M.rules interval w texts → IsTied M.rules interval w r (core_of s) history → IsProvidedBy w interval n (mark_at place head) p → s.views.last_view.0 < n.view.0 → verdict_of M.rules s.kept s.board.stable p.stmt.told place head ≡ Take → (list : List Entry) × IsAdopted M.rules interval texts w (mark_at place head) (taken_over (stretch_of p.stmt.told) place.0 s.kept) list }
{}
