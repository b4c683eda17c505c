ghost use Rattle.std.specs.Prelude.{◌≡◌, ℕ, ◌<◌, [], ◌∷◌};
ghost use Rattle.zy_chain.specs.Stretch.{Mark};
ghost use Rattle.zy_law.specs.Example.{first_entry};
ghost use Rattle.zy_law.specs.Lawful.{IsChosenStart, IsLawful};
ghost use Rattle.zy_law.specs.Said.{Stood};
ghost use Rattle.zy_law.specs.World.{World};
ghost use Rattle.zy_exec.specs.Kept.{Kept};
ghost use Rattle.zy_parts.specs.declared.reports.Change.{Change};
ghost use Rattle.zy_parts.specs.declared.reports.New.{New};
ghost use Rattle.zy_parts.specs.declared.signed.Signed.{Signed};
ghost use Rattle.zy_law_views.specs.Adopted.{StandsByBytes};
ghost use Rattle.zy_law_views.specs.Texts.{Texts};
ghost use Rattle.zy_law_views.specs.Example.{AreFirstKept, IsInstalledIn, first_place, first_snapshot};

use zy_base::Machine;

/// There is a world that the laws of changes of view speak of: of four replicas one lies, the others leave view 0, confirm what is
/// chosen out of their reports, and one of them stands in view 1, all by those laws.
pub fn a_change_of_view<M: Machine>()
    ensures { (interval : ℕ) → 0 < interval → (w : World) × (m : Mark) × IsLawful w × (w.counts.n ≡ 4) × (w.counts.f ≡ 1) × IsChosenStart w 1 m × Stood w 0 1 (record { view = 1; history = [] }) }
{}

/// There is one in which a replica goes back past an entry that it alone ran: the others report the empty history, this is chosen,
/// and it stands in view 1 with that.
pub fn a_change_back<M: Machine>()
    ensures { (interval : ℕ) → 0 < interval → (w : World) × (m : Mark) × IsLawful w × (w.counts.n ≡ 4) × (w.counts.f ≡ 1) × IsChosenStart w 1 m × Stood w 0 1 (record { view = 0; history = first_entry ∷ [] }) × Stood w 0 2 (record { view = 1; history = [] }) }
{}

/// There is one in which a replica that ran nothing begins view 1 with a state that it installed: for whatever keeps four texts, and
/// whatever stands by the snapshot's bytes. What the law of installed states asks for holds there.
pub fn a_state_installed<M: Machine>()
    ensures { (texts : Texts) (k : Kept M.State) → AreFirstKept M.rules texts → StandsByBytes M.rules first_place (first_snapshot M.rules) k → (w : World) × (n : New) × (p : Signed Change) × IsInstalledIn M.rules texts w n p }
{}
