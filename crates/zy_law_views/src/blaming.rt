ghost use Rattle.std.specs.Prelude.{◌≡◌, ℕ, false, List, All, Option, Err};
ghost use Rattle.zy_base.specs.declared.cause.Cause.{Cause};
ghost use Rattle.zy_base.specs.declared.ids.Party.TheVariants.{Replica};
ghost use Rattle.zy_chain.specs.declared.entry.Entry.{Entry};
ghost use Rattle.zy_evidence.specs.Reading.{number_of_party};
ghost use Rattle.zy_frames.specs.declared.frame.OrderFrame.{OrderFrame};
ghost use Rattle.zy_law.specs.World.{World};
ghost use Rattle.zy_parts.specs.declared.reports.Began.{Began};
ghost use Rattle.zy_parts.specs.declared.reports.Change.{Change};
ghost use Rattle.zy_parts.specs.declared.reports.New.{New};
ghost use Rattle.zy_parts.specs.declared.signed.Signed.{Signed};
ghost use Rattle.zy_parts.specs.declared.statements.Hate.{Hate};
ghost use Rattle.zy_parts.specs.declared.statements.Order.{Order};
ghost use Rattle.zy_table.specs.Beginning.{begun};
ghost use Rattle.zy_table.specs.Changes.{change};
ghost use Rattle.zy_table.specs.Confirming.{confirmation, new_view, view_certificate};
ghost use Rattle.zy_table.specs.Hates.{hate, on_change_timer, on_request_timer};
ghost use Rattle.zy_table.specs.Misbehaviour.{pom, tell_all};
ghost use Rattle.zy_table.specs.State.{State};
ghost use Rattle.zy_vframes.specs.declared.frame.ViewCert.{ViewCert};
ghost use Rattle.zy_law_views.specs.Held.{IsHeldChange, IsHeldPart};
ghost use Rattle.zy_law_views.specs.Texts.{Texts};
ghost use Rattle.zy_law_views.specs.Told.{began_told};
ghost use Rattle.zy_law_views.specs.Rows.{IsReady, blames};
ghost use Rattle.zy_law_views.specs.Steps.{IsWorldOf};

use zy_base::Machine;

/// Whatever refuses a new view, a confirmation or a view certificate whose parts are held, up to the view that begins by it, no
/// correct replica finds two heads at one proven place, nor that its stable checkpoint or its snapshot isn't on the chosen history.
pub fn beginnings_blame_nobody<M: Machine>()
    ensures new_view { (interval r : ℕ) (texts : Texts) (w : World) (s : State M.State) (history : List Entry) (new : Signed New) (cause : Cause) → IsReady M.rules interval w r s history → IsWorldOf M.rules interval w texts → All (IsHeldChange w) new.stmt.changes → begun M.rules (new_view M.rules s new) ≡ Err cause → blames cause ≡ false }
    ensures confirmation { (interval r : ℕ) (texts : Texts) (w : World) (s : State M.State) (history : List Entry) (vote : Signed Began) (cause : Cause) → IsReady M.rules interval w r s history → IsWorldOf M.rules interval w texts → vote.by ≡ Replica (record { 0 = number_of_party vote.by }) → IsHeldPart w began_told vote → begun M.rules (confirmation M.rules s vote) ≡ Err cause → blames cause ≡ false }
    ensures certificate { (interval r : ℕ) (texts : Texts) (w : World) (s : State M.State) (history : List Entry) (cert : ViewCert) (cause : Cause) → IsReady M.rules interval w r s history → IsWorldOf M.rules interval w texts → All (IsHeldChange w) cert.new.stmt.changes → All (IsHeldPart w began_told) cert.begans → begun M.rules (view_certificate M.rules s cert) ≡ Err cause → blames cause ≡ false }
{}

/// Nor where it leaves a view, gives a new one, and that begins at once.
pub fn leaves_blame_nobody<M: Machine>()
    ensures change { (interval r : ℕ) (texts : Texts) (w : World) (s : State M.State) (history : List Entry) (vote : Signed Change) (cause : Cause) → IsReady M.rules interval w r s history → IsWorldOf M.rules interval w texts → vote.by ≡ Replica (record { 0 = number_of_party vote.by }) → IsHeldChange w vote → begun M.rules (change M.rules s vote) ≡ Err cause → blames cause ≡ false }
    ensures hate { (interval r : ℕ) (texts : Texts) (w : World) (s : State M.State) (history : List Entry) (vote : Signed Hate) (cause : Cause) → IsReady M.rules interval w r s history → IsWorldOf M.rules interval w texts → begun M.rules (hate M.rules s vote) ≡ Err cause → blames cause ≡ false }
    ensures pom { (interval r : ℕ) (texts : Texts) (w : World) (s : State M.State) (history : List Entry) (first second : Signed Order) (cause : Cause) → IsReady M.rules interval w r s history → IsWorldOf M.rules interval w texts → begun M.rules (pom M.rules s first second) ≡ Err cause → blames cause ≡ false }
    ensures order { (interval r : ℕ) (texts : Texts) (w : World) (s : State M.State) (history : List Entry) (order : Signed Order) (kept : Option OrderFrame) (cause : Cause) → IsReady M.rules interval w r s history → IsWorldOf M.rules interval w texts → begun M.rules (tell_all M.rules s order kept) ≡ Err cause → blames cause ≡ false }
    ensures request_timer { (interval r : ℕ) (texts : Texts) (w : World) (s : State M.State) (history : List Entry) (cause : Cause) → IsReady M.rules interval w r s history → IsWorldOf M.rules interval w texts → begun M.rules (on_request_timer M.rules s s.views.mode) ≡ Err cause → blames cause ≡ false }
    ensures change_timer { (interval r : ℕ) (texts : Texts) (w : World) (s : State M.State) (history : List Entry) (cause : Cause) → IsReady M.rules interval w r s history → IsWorldOf M.rules interval w texts → begun M.rules (on_change_timer M.rules s s.views.mode) ≡ Err cause → blames cause ≡ false }
{}
