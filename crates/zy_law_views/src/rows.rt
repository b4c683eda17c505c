ghost use Rattle.std.specs.Prelude.{◌≡◌, ℕ, ◌<◌, List, Option};
ghost use Rattle.zy_base.specs.declared.ids.Party.TheVariants.{Replica};
ghost use Rattle.zy_base.specs.declared.ids.View.{View};
ghost use Rattle.zy_chain.specs.declared.entry.Entry.{Entry};
ghost use Rattle.zy_change.specs.Views.{own_view};
ghost use Rattle.zy_evidence.specs.Reading.{number_of_party};
ghost use Rattle.zy_frames.specs.declared.frame.OrderFrame.{OrderFrame};
ghost use Rattle.zy_law.specs.World.{World};
ghost use Rattle.zy_parts.specs.declared.reports.Change.{Change};
ghost use Rattle.zy_parts.specs.declared.signed.Signed.{Signed};
ghost use Rattle.zy_parts.specs.declared.statements.Hate.{Hate};
ghost use Rattle.zy_parts.specs.declared.statements.Order.{Order};
ghost use Rattle.zy_table.specs.Changes.{change};
ghost use Rattle.zy_table.specs.Deeds.{begin};
ghost use Rattle.zy_table.specs.Hates.{hate, on_change_timer, on_request_timer};
ghost use Rattle.zy_table.specs.Leaving.{concluded, leave};
ghost use Rattle.zy_table.specs.Misbehaviour.{pom, tell_all};
ghost use Rattle.zy_table.specs.State.{State};
ghost use Rattle.zy_law_views.specs.Held.{IsHeldChange};
ghost use Rattle.zy_law_views.specs.Rows.{IsLawfulRow, IsReady};

use zy_base::Machine;

/// What makes a replica leave is lawful: another's report, where it is held; two orders of its primary, told by another or found
/// by an order that differs from the kept one of its place; and its timers.
pub fn heard_rows<M: Machine>()
    ensures change { (interval r : ℕ) (w : World) (s : State M.State) (history : List Entry) (vote : Signed Change) → IsReady M.rules interval w r s history → vote.by ≡ Replica (record { 0 = number_of_party vote.by }) → IsHeldChange w vote → IsLawfulRow M.rules interval w r s history (concluded s (change M.rules s vote)) }
    ensures pom { (interval r : ℕ) (w : World) (s : State M.State) (history : List Entry) (first second : Signed Order) → IsReady M.rules interval w r s history → IsLawfulRow M.rules interval w r s history (concluded s (pom M.rules s first second)) }
    ensures order { (interval r : ℕ) (w : World) (s : State M.State) (history : List Entry) (order : Signed Order) (kept : Option OrderFrame) → IsReady M.rules interval w r s history → IsLawfulRow M.rules interval w r s history (concluded s (tell_all M.rules s order kept)) }
    ensures request_timer { (interval r : ℕ) (w : World) (s : State M.State) (history : List Entry) → IsReady M.rules interval w r s history → IsLawfulRow M.rules interval w r s history (concluded s (on_request_timer M.rules s s.views.mode)) }
    ensures change_timer { (interval r : ℕ) (w : World) (s : State M.State) (history : List Entry) → IsReady M.rules interval w r s history → IsLawfulRow M.rules interval w r s history (concluded s (on_change_timer M.rules s s.views.mode)) }
{}

/// A row in which a correct replica leaves its view is lawful, also where it leads the new view and keeps enough reports, so
/// that it gives them and confirms what is chosen out of them; and where it is refused in the end.
pub fn leaving_rows<M: Machine>()
    ensures leave { (interval r : ℕ) (w : World) (s : State M.State) (history : List Entry) (view : View) → IsReady M.rules interval w r s history → own_view s.views < view.0 → IsLawfulRow M.rules interval w r s history (concluded s (leave M.rules view (begin s))) }
    ensures hate { (interval r : ℕ) (w : World) (s : State M.State) (history : List Entry) (vote : Signed Hate) → IsReady M.rules interval w r s history → IsLawfulRow M.rules interval w r s history (concluded s (hate M.rules s vote)) }
{}
