ghost use Rattle.std.specs.Prelude.{◌≡◌, ℕ, List, All};
ghost use Rattle.zy_base.specs.declared.ids.Party.TheVariants.{Replica};
ghost use Rattle.zy_chain.specs.declared.entry.Entry.{Entry};
ghost use Rattle.zy_evidence.specs.Reading.{number_of_party};
ghost use Rattle.zy_law.specs.World.{World};
ghost use Rattle.zy_parts.specs.declared.reports.Began.{Began};
ghost use Rattle.zy_parts.specs.declared.reports.Fetch.{Fetch};
ghost use Rattle.zy_parts.specs.declared.reports.New.{New};
ghost use Rattle.zy_parts.specs.declared.signed.Signed.{Signed};
ghost use Rattle.zy_table.specs.Beginning.{finished};
ghost use Rattle.zy_table.specs.Confirming.{confirmation, new_view, view_certificate};
ghost use Rattle.zy_table.specs.Fetching.{fetch};
ghost use Rattle.zy_table.specs.State.{State};
ghost use Rattle.zy_vframes.specs.declared.frame.ViewCert.{ViewCert};
ghost use Rattle.zy_law_views.specs.Held.{IsHeldChange, IsHeldPart};
ghost use Rattle.zy_law_views.specs.Texts.{Texts};
ghost use Rattle.zy_law_views.specs.Told.{began_told};
ghost use Rattle.zy_law_views.specs.Rows.{IsReady};
ghost use Rattle.zy_law_views.specs.Steps.{IsLawfulStep, IsWorldOf};

use zy_base::Machine;

/// What a correct replica makes of a new view, of another's confirmation and of a view certificate is lawful, where the reports and
/// confirmations in it are held: it confirms what is chosen once, begins the view with what is confirmed, or waits for the snapshot
/// on which that stands; also where it is refused in the end.
pub fn beginning_rows<M: Machine>()
    ensures new_view { (interval r : ℕ) (texts : Texts) (w : World) (s : State M.State) (history : List Entry) (new : Signed New) → IsReady M.rules interval w r s history → IsWorldOf M.rules interval w texts → All (IsHeldChange w) new.stmt.changes → IsLawfulStep M.rules interval texts w r s history (finished M.rules s (new_view M.rules s new)) }
    ensures confirmation { (interval r : ℕ) (texts : Texts) (w : World) (s : State M.State) (history : List Entry) (vote : Signed Began) → IsReady M.rules interval w r s history → IsWorldOf M.rules interval w texts → vote.by ≡ Replica (record { 0 = number_of_party vote.by }) → IsHeldPart w began_told vote → IsLawfulStep M.rules interval texts w r s history (finished M.rules s (confirmation M.rules s vote)) }
    ensures certificate { (interval r : ℕ) (texts : Texts) (w : World) (s : State M.State) (history : List Entry) (cert : ViewCert) → IsReady M.rules interval w r s history → IsWorldOf M.rules interval w texts → All (IsHeldChange w) cert.new.stmt.changes → All (IsHeldPart w began_told) cert.begans → IsLawfulStep M.rules interval texts w r s history (finished M.rules s (view_certificate M.rules s cert)) }
{}

/// So is its answer to another's wish for its stable snapshot: it sends it and says nothing.
pub fn fetched_states<M: Machine>()
    ensures { (interval r : ℕ) (texts : Texts) (w : World) (s : State M.State) (history : List Entry) (vote : Signed Fetch) → IsReady M.rules interval w r s history → IsWorldOf M.rules interval w texts → IsLawfulStep M.rules interval texts w r s history (finished M.rules s (fetch M.rules s vote)) }
{}
