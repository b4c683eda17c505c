ghost use Rattle.std.specs.Prelude.{◌≡◌, ℕ, List, Option};
ghost use Rattle.zy_base.specs.declared.ids.Party.TheVariants.{Replica};
ghost use Rattle.zy_base.specs.declared.step.TimerKind.{TimerKind};
ghost use Rattle.zy_chain.specs.declared.entry.Entry.{Entry};
ghost use Rattle.zy_evidence.specs.Reading.{number_of_party};
ghost use Rattle.zy_frames.specs.declared.frame.OrderFrame.{OrderFrame};
ghost use Rattle.zy_law.specs.World.{World};
ghost use Rattle.zy_parts.specs.declared.reports.Change.{Change};
ghost use Rattle.zy_parts.specs.declared.signed.Signed.{Signed};
ghost use Rattle.zy_parts.specs.declared.statements.Hate.{Hate};
ghost use Rattle.zy_parts.specs.declared.statements.Order.{Order};
ghost use Rattle.zy_table.specs.Beginning.{finished};
ghost use Rattle.zy_table.specs.Changes.{change};
ghost use Rattle.zy_table.specs.Hates.{hate};
ghost use Rattle.zy_table.specs.Misbehaviour.{pom, tell_all};
ghost use Rattle.zy_table.specs.State.{State};
ghost use Rattle.zy_table.specs.Whole.{timer};
ghost use Rattle.zy_law_views.specs.Held.{IsHeldChange};
ghost use Rattle.zy_law_views.specs.Texts.{Texts};
ghost use Rattle.zy_law_views.specs.Rows.{IsReady};
ghost use Rattle.zy_law_views.specs.Steps.{IsLawfulStep, IsWorldOf};

use zy_base::Machine;

/// A row in which a correct replica leaves is lawful to its end: where it gives a new view and enough others confirmed the choice
/// before, the view begins at once.
pub fn finished_rows<M: Machine>()
    ensures change { (interval r : ℕ) (texts : Texts) (w : World) (s : State M.State) (history : List Entry) (vote : Signed Change) → IsReady M.rules interval w r s history → IsWorldOf M.rules interval w texts → vote.by ≡ Replica (record { 0 = number_of_party vote.by }) → IsHeldChange w vote → IsLawfulStep M.rules interval texts w r s history (finished M.rules s (change M.rules s vote)) }
    ensures hate { (interval r : ℕ) (texts : Texts) (w : World) (s : State M.State) (history : List Entry) (vote : Signed Hate) → IsReady M.rules interval w r s history → IsWorldOf M.rules interval w texts → IsLawfulStep M.rules interval texts w r s history (finished M.rules s (hate M.rules s vote)) }
    ensures pom { (interval r : ℕ) (texts : Texts) (w : World) (s : State M.State) (history : List Entry) (first second : Signed Order) → IsReady M.rules interval w r s history → IsWorldOf M.rules interval w texts → IsLawfulStep M.rules interval texts w r s history (finished M.rules s (pom M.rules s first second)) }
    ensures order { (interval r : ℕ) (texts : Texts) (w : World) (s : State M.State) (history : List Entry) (order : Signed Order) (kept : Option OrderFrame) → IsReady M.rules interval w r s history → IsWorldOf M.rules interval w texts → IsLawfulStep M.rules interval texts w r s history (finished M.rules s (tell_all M.rules s order kept)) }
{}

/// And so is each of its timers.
pub fn finished_timers<M: Machine>()
    ensures { (interval r : ℕ) (texts : Texts) (w : World) (s : State M.State) (history : List Entry) (kind : TimerKind) → IsReady M.rules interval w r s history → IsWorldOf M.rules interval w texts → IsLawfulStep M.rules interval texts w r s history (timer M.rules s kind) }
{}
