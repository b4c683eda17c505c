ghost use Rattle.std.specs.Prelude.{◌≡◌, ℕ, ◌-◌, ◌<◌, ◌≤◌, List, Some, take};
ghost use Rattle.zy_chain.specs.declared.entry.Entry.{Entry};
ghost use Rattle.zy_change.specs.declared.kept.Chosen.{Chosen};
ghost use Rattle.zy_evidence.specs.Reading.{stretch_of};
ghost use Rattle.zy_exec.specs.Kept.{Kept, settled};
ghost use Rattle.zy_law.specs.World.{World};
ghost use Rattle.zy_parts.specs.declared.reports.Change.{Change};
ghost use Rattle.zy_parts.specs.declared.signed.Signed.{Signed};
ghost use Rattle.zy_table.specs.Adopting.{taken_over, verdict_of};
ghost use Rattle.zy_table.specs.State.{State};
ghost use Rattle.zy_table.specs.declared.deeds.Verdict.TheVariants.{Take};
ghost use Rattle.zy_vframes.specs.declared.frame.ViewCert.{ViewCert};
ghost use Rattle.zy_law_views.specs.Adopted.{AreWorldTexts, Matches, StandsByBytes, with_entries};
ghost use Rattle.zy_law_views.specs.Texts.{Texts};
ghost use Rattle.zy_law_views.specs.Tied.{check_in};
ghost use Rattle.zy_law_views.specs.Adoptions.{IsBegunLawfully, IsDue};
ghost use Rattle.zy_law_views.specs.Rows.{IsReady};

use zy_base::Machine;

/// Where the verdict is to take it up, a correct replica begins the view lawfully with what it takes over: on its own stable
/// checkpoint, or on the report's where that is further.
pub fn taking_up<M: Machine>()
    ensures own { (interval r : ℕ) (texts : Texts) (w : World) (s : State M.State) (history : List Entry) (cert : ViewCert) (chosen : Chosen) (p : Signed Change) → IsReady M.rules interval w r s history → Matches M.rules w → AreWorldTexts M.rules interval w texts → IsDue interval w s cert chosen p → verdict_of M.rules s.kept s.board.stable p.stmt.told chosen.place chosen.head ≡ Take → p.stmt.told.stable_place.0 ≤ s.board.stable.place.0 → (list : List Entry) × IsBegunLawfully M.rules interval w r s cert chosen (taken_over (stretch_of p.stmt.told) chosen.place.0 s.kept) s.board.stable s.board.proof list }
    ensures further { (interval r : ℕ) (texts : Texts) (w : World) (s : State M.State) (history : List Entry) (cert : ViewCert) (chosen : Chosen) (p : Signed Change) → IsReady M.rules interval w r s history → Matches M.rules w → AreWorldTexts M.rules interval w texts → IsDue interval w s cert chosen p → verdict_of M.rules s.kept s.board.stable p.stmt.told chosen.place chosen.head ≡ Take → s.board.stable.place.0 < p.stmt.told.stable_place.0 → (list : List Entry) × IsBegunLawfully M.rules interval w r s cert chosen (settled M.rules p.stmt.told.stable_place.0 (taken_over (stretch_of p.stmt.told) chosen.place.0 s.kept)) (check_in p.stmt.told) p.stmt.told.checks list }
{}

/// So it does with what it installed at the report's stable place, out of kept bytes under the digest that the report tells, and
/// with the report's entries up to the choice.
pub fn installing_states<M: Machine>()
    ensures { (interval r : ℕ) (texts : Texts) (w : World) (s : State M.State) (history : List Entry) (cert : ViewCert) (chosen : Chosen) (p : Signed Change) (bytes : List ℕ) (k : Kept M.State) → IsReady M.rules interval w r s history → Matches M.rules w → AreWorldTexts M.rules interval w texts → IsDue interval w s cert chosen p → 0 < p.stmt.told.stable_place.0 → texts p.stmt.told.state ≡ Some bytes → StandsByBytes M.rules (stretch_of p.stmt.told).base bytes k → (list : List Entry) × IsBegunLawfully M.rules interval w r s cert chosen (with_entries k (take (chosen.place.0 - p.stmt.told.stable_place.0) p.stmt.told.entries)) (check_in p.stmt.told) p.stmt.told.checks list }
{}
