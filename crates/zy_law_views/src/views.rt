ghost use Rattle.std.specs.Prelude.{◌≡◌, ℕ, ◌%◌, ◌<◌, Bool, false, List, Some};
ghost use Rattle.zy_base.specs.declared.ids.Party.TheVariants.{Replica};
ghost use Rattle.zy_base.specs.declared.ids.View.{View};
ghost use Rattle.zy_base.specs.declared.step.Mode.TheVariants.{Leaving};
ghost use Rattle.zy_chain.specs.declared.entry.Entry.{Entry};
ghost use Rattle.zy_change.specs.Owing.{change_to};
ghost use Rattle.zy_change.specs.Views.{began_for, is_accepted, left, own_view, with_change, with_new};
ghost use Rattle.zy_change.specs.declared.kept.Accepted.{Accepted};
ghost use Rattle.zy_choose.specs.Marks.{link};
ghost use Rattle.zy_law.specs.Lawful.{IsLawful};
ghost use Rattle.zy_law.specs.Said.{IsCorrect};
ghost use Rattle.zy_law.specs.Steps.{MaySay, after_saying};
ghost use Rattle.zy_law.specs.World.{World};
ghost use Rattle.zy_law_views.specs.Tied.{Core, IsChosenNew, IsTied, change_by, confirmed_with, given_with, left_with, said_now, told_by};
ghost use Rattle.zy_law_views.specs.Told.{began_told, change_told, new_told};

use zy_base::Machine;

/// A correct replica that is tied to a lawful world may leave for a view above its own with its report, and is tied to the
/// world that has heard it, whatever the signature.
pub fn leaving_views<M: Machine>()
    ensures says { (interval r : ℕ) (w : World) (c : Core M.State) (history : List Entry) (view : View) → IsLawful w → w.next ≡ link → IsCorrect w r → IsTied M.rules interval w r c history → own_view c.views < view.0 → MaySay w r (said_now w r (change_told r (change_to view (told_by c)))) }
    ensures tied { (interval r : ℕ) (w : World) (c : Core M.State) (history : List Entry) (view : View) (sig : List ℕ) → IsLawful w → w.next ≡ link → IsCorrect w r → IsTied M.rules interval w r c history → own_view c.views < view.0 → IsTied M.rules interval (after_saying w r (said_now w r (change_told r (change_to view (told_by c))))) r (left_with view sig c) history }
{}

/// A correct replica that is tied to a lawful world and leaves for a view of which it is the primary may give a proper new view of
/// it, where it accepted none yet: so once for each view. It is tied to the world that has heard it, with what it gave as what
/// it accepted.
pub fn giving_views<M: Machine>()
    ensures says { (interval r : ℕ) (w : World) (c : Core M.State) (history : List Entry) (a : Accepted) → IsLawful w → w.next ≡ link → IsCorrect w r → IsTied M.rules interval w r c history → c.views.mode ≡ Leaving a.new.stmt.view → is_accepted a.new.stmt.view.0 c.views.accepted ≡ false → a.new.stmt.view.0 % w.counts.n ≡ r → IsChosenNew interval w a.new.stmt a.chosen → MaySay w r (said_now w r (new_told a.new.stmt)) }
    ensures tied { (interval r : ℕ) (w : World) (c : Core M.State) (history : List Entry) (a : Accepted) → IsLawful w → w.next ≡ link → IsCorrect w r → IsTied M.rules interval w r c history → c.views.mode ≡ Leaving a.new.stmt.view → is_accepted a.new.stmt.view.0 c.views.accepted ≡ false → a.new.stmt.view.0 % w.counts.n ≡ r → IsChosenNew interval w a.new.stmt a.chosen → IsTied M.rules interval (after_saying w r (said_now w r (new_told a.new.stmt))) r (given_with a c) history }
{}

/// A correct replica that is tied to a lawful world and leaves for a view may confirm what is chosen out of a proper new view
/// of it, where it accepted none yet: so once for each view. It is tied to the world that has heard it.
pub fn confirming_views<M: Machine>()
    ensures says { (interval r : ℕ) (w : World) (c : Core M.State) (history : List Entry) (a : Accepted) → IsLawful w → w.next ≡ link → IsCorrect w r → IsTied M.rules interval w r c history → c.views.mode ≡ Leaving a.new.stmt.view → is_accepted a.new.stmt.view.0 c.views.accepted ≡ false → IsChosenNew interval w a.new.stmt a.chosen → MaySay w r (said_now w r (began_told (began_for a.new.stmt.view a.chosen))) }
    ensures tied { (interval r : ℕ) (w : World) (c : Core M.State) (history : List Entry) (a : Accepted) (sig : List ℕ) → IsLawful w → w.next ≡ link → IsCorrect w r → IsTied M.rules interval w r c history → c.views.mode ≡ Leaving a.new.stmt.view → is_accepted a.new.stmt.view.0 c.views.accepted ≡ false → IsChosenNew interval w a.new.stmt a.chosen → IsTied M.rules interval (after_saying w r (said_now w r (began_told (began_for a.new.stmt.view a.chosen)))) r (confirmed_with a sig c) history }
{}
