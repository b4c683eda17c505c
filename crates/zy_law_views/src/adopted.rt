ghost use Rattle.std.specs.Prelude.{◌≡◌, ℕ, ◌-◌, ◌<◌, List, Some, length, take};
ghost use Rattle.zy_chain.specs.Heads.{empty_head};
ghost use Rattle.zy_chain.specs.Stretch.{Mark};
ghost use Rattle.zy_chain.specs.declared.entry.Entry.{Entry};
ghost use Rattle.zy_evidence.specs.Reading.{stretch_of};
ghost use Rattle.zy_exec.specs.Kept.{Kept};
ghost use Rattle.zy_law.specs.Lawful.{IsLawful};
ghost use Rattle.zy_law.specs.Lists.{IsListOf};
ghost use Rattle.zy_law.specs.World.{World};
ghost use Rattle.zy_parts.specs.declared.reports.Change.{Change};
ghost use Rattle.zy_parts.specs.declared.reports.New.{New};
ghost use Rattle.zy_parts.specs.declared.signed.Signed.{Signed};
ghost use Rattle.zy_law_views.specs.Adopted.{AreWorldTexts, IsAdopted, Matches, StandsByBytes, with_entries};
ghost use Rattle.zy_law_views.specs.Held.{IsProvidedBy};
ghost use Rattle.zy_law_views.specs.Texts.{Texts, list_in};

use zy_base::Machine;

/// A replica that installs a snapshot stands for one history, the one that the law gives. Where a proper new view's choice is
/// taken up from its provider's report, whose stable digest these kept bytes have: what is installed at the report's stable
/// place stands for that place's list, and with the report's entries up to the choice for the choice's list. Each list is
/// read back out of the kept texts, so that the history that a replica adopts is a function of them.
pub fn installed_states<M: Machine>()
    ensures base { (interval : ℕ) (texts : Texts) (w : World) (n : New) (m : Mark) (c : Signed Change) (bytes : List ℕ) (k : Kept M.State) → IsLawful w → Matches M.rules w → AreWorldTexts M.rules interval w texts → IsProvidedBy w interval n m c → 0 < c.stmt.told.stable_place.0 → texts c.stmt.told.state ≡ Some bytes → StandsByBytes M.rules (stretch_of c.stmt.told).base bytes k → (history : List Entry) × IsAdopted M.rules interval texts w (stretch_of c.stmt.told).base k history }
    ensures adopted { (interval : ℕ) (texts : Texts) (w : World) (n : New) (m : Mark) (c : Signed Change) (bytes : List ℕ) (k : Kept M.State) → IsLawful w → Matches M.rules w → AreWorldTexts M.rules interval w texts → IsProvidedBy w interval n m c → 0 < c.stmt.told.stable_place.0 → texts c.stmt.told.state ≡ Some bytes → StandsByBytes M.rules (stretch_of c.stmt.told).base bytes k → (history : List Entry) × IsAdopted M.rules interval texts w m (with_entries k (take (m.place - c.stmt.told.stable_place.0) c.stmt.told.entries)) history }
    ensures one { (interval : ℕ) (texts : Texts) (w : World) (m : Mark) (j k : Kept M.State) (g h : List Entry) → IsAdopted M.rules interval texts w m j g → IsAdopted M.rules interval texts w m k h → g ≡ h }
    ensures read { (interval : ℕ) (texts : Texts) (w : World) (m : Mark) (list : List Entry) → Matches M.rules w → AreWorldTexts M.rules interval w texts → IsListOf w m list → list_in texts m.place m.head ≡ Some list }
{}
