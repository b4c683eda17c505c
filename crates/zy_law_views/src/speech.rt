ghost use Rattle.std.specs.Prelude.{◌≡◌, ℕ, ◌%◌, ◌<◌, List, length, take};
ghost use Rattle.zy_base.specs.declared.ids.Digest.{Digest};
ghost use Rattle.zy_base.specs.declared.ids.View.{View};
ghost use Rattle.zy_base.specs.declared.step.Mode.TheVariants.{Active};
ghost use Rattle.zy_chain.specs.Stretch.{Mark};
ghost use Rattle.zy_chain.specs.declared.entry.Entry.{Entry};
ghost use Rattle.zy_law.specs.Fixed.{IsCertified};
ghost use Rattle.zy_law.specs.Histories.{Passes};
ghost use Rattle.zy_law.specs.Lawful.{IsLawful, IsTrueAnswer};
ghost use Rattle.zy_law.specs.Said.{IsCorrect};
ghost use Rattle.zy_law.specs.Steps.{after_saying};
ghost use Rattle.zy_law.specs.World.{Answer, Statement, World};
ghost use Rattle.zy_law_views.specs.Tied.{AreOrdersUpTo, Core, IsFarEnough, IsTied, SaysLawfully, said_now};

use zy_base::Machine;

/// While a correct replica is active in a view, whichever it is, it may say there: a response for a mark of its history; a
/// local commit and a checkpoint for one that a commit certificate proves, where it holds one at least as far; and as the
/// view's primary an order past the end of its history. It is tied then.
pub fn speaking<M: Machine>()
    ensures response { (interval r : ℕ) (w : World) (c : Core M.State) (history : List Entry) (view : View) (m : Mark) (a : Answer) → IsLawful w → IsCorrect w r → IsTied M.rules interval w r c history → c.views.mode ≡ Active view → Passes w.next history m → IsTrueAnswer w history m a → SaysLawfully M.rules interval w r c history (Statement.Spec view.0 m a) }
    ensures commit { (interval r : ℕ) (w : World) (c : Core M.State) (history : List Entry) (view : View) (m : Mark) → IsLawful w → IsCorrect w r → IsTied M.rules interval w r c history → c.views.mode ≡ Active view → Passes w.next history m → IsCertified w view.0 m → IsFarEnough c.views.specs m.place → SaysLawfully M.rules interval w r c history (Statement.Local view.0 m) }
    ensures checkpoint { (interval r : ℕ) (w : World) (c : Core M.State) (history : List Entry) (view : View) (m : Mark) (state : Digest) → IsLawful w → IsCorrect w r → IsTied M.rules interval w r c history → c.views.mode ≡ Active view → Passes w.next history m → IsCertified w view.0 m → IsFarEnough c.views.specs m.place → w.state (take m.place history) ≡ state → SaysLawfully M.rules interval w r c history (Statement.Check view.0 m state) }
    ensures order { (interval r : ℕ) (w : World) (c : Core M.State) (history : List Entry) (view : View) (m : Mark) (request : Digest) → IsLawful w → IsCorrect w r → IsTied M.rules interval w r c history → c.views.mode ≡ Active view → view.0 % w.counts.n ≡ r → AreOrdersUpTo w r view.0 (length history) → length history < m.place → SaysLawfully M.rules interval w r c history (Statement.Order view.0 m request) }
    ensures orders { (interval r : ℕ) (w : World) (c : Core M.State) (history : List Entry) (view : View) (m : Mark) (request : Digest) → IsLawful w → IsCorrect w r → IsTied M.rules interval w r c history → c.views.mode ≡ Active view → AreOrdersUpTo w r view.0 (length history) → length history < m.place → AreOrdersUpTo (after_saying w r (said_now w r (Statement.Order view.0 m request))) r view.0 m.place }
{}

/// What it says of no view, active or not: what only asks for something.
pub fn asking<M: Machine>()
    ensures other { (interval r : ℕ) (w : World) (c : Core M.State) (history : List Entry) → IsLawful w → IsCorrect w r → IsTied M.rules interval w r c history → SaysLawfully M.rules interval w r c history Statement.Other }
{}
