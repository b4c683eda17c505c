ghost use Rattle.std.specs.Prelude.{◌≡◌, ℕ, ◌<◌, ◌≤◌, List, Some, take};
ghost use Rattle.zy_base.specs.declared.ids.Party.TheVariants.{Replica};
ghost use Rattle.zy_base.specs.declared.ids.ReplicaId.{ReplicaId};
ghost use Rattle.zy_cert.specs.Misbehaviour.{IsConflict};
ghost use Rattle.zy_chain.specs.Stretch.{Mark, head_in};
ghost use Rattle.zy_chain.specs.declared.entry.Entry.{Entry};
ghost use Rattle.zy_choose.specs.Marks.{link};
ghost use Rattle.zy_evidence.specs.Reading.{stretch_of};
ghost use Rattle.zy_law.specs.Lawful.{IsLawful};
ghost use Rattle.zy_law.specs.Said.{At, IsCorrect, Moment};
ghost use Rattle.zy_law.specs.World.{World};
ghost use Rattle.zy_parts.specs.declared.reports.Change.{Change};
ghost use Rattle.zy_parts.specs.declared.reports.New.{New};
ghost use Rattle.zy_parts.specs.declared.signed.Signed.{Signed};
ghost use Rattle.zy_parts.specs.declared.statements.Order.{Order};
ghost use Rattle.zy_law_views.specs.Held.{IsHeldPart, IsProvidedBy};
ghost use Rattle.zy_law_views.specs.Tied.{Core, IsTied};
ghost use Rattle.zy_law_views.specs.Told.{order_told};

use zy_base::Machine;

/// No correct replica is blamed. Orders that a correct signer said are in no conflict. What is chosen for a view above a tied
/// replica's last active one isn't below its stable place; a provider whose report begins there or below has its stable head;
/// and at the provider's stable place every correct history with that head leads to the snapshot whose digest the report tells.
pub fn blame<M: Machine>()
    ensures orders { (w : World) (a b : Signed Order) (id : ReplicaId) → IsLawful w → a.by ≡ Replica id → IsCorrect w id.0 → IsHeldPart w order_told a → IsHeldPart w order_told b → IsConflict a b → ⊥ }
    ensures above { (interval r : ℕ) (w : World) (c : Core M.State) (history : List Entry) (n : New) (m : Mark) (p : Signed Change) → IsLawful w → w.next ≡ link → IsTied M.rules interval w r c history → IsProvidedBy w interval n m p → c.views.last_view.0 < n.view.0 → c.stable.place.0 ≤ m.place }
    ensures head { (interval r : ℕ) (w : World) (c : Core M.State) (history : List Entry) (n : New) (m : Mark) (p : Signed Change) → IsLawful w → w.next ≡ link → IsTied M.rules interval w r c history → IsProvidedBy w interval n m p → c.views.last_view.0 < n.view.0 → p.stmt.told.stable_place.0 ≤ c.stable.place.0 → head_in (stretch_of p.stmt.told) c.stable.place.0 ≡ Some c.stable.head }
    ensures state { (interval : ℕ) (w : World) (n : New) (m : Mark) (p : Signed Change) (t : Moment w) → IsLawful w → IsProvidedBy w interval n m p → 0 < p.stmt.told.stable_place.0 → At t (stretch_of p.stmt.told).base → w.state (take p.stmt.told.stable_place.0 t.stand.history) ≡ p.stmt.told.state }
{}
