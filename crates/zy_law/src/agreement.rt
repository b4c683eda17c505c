ghost use Rattle.std.specs.Prelude.{◌≡◌, ℕ, ◌+◌, ◌*◌, ◌<◌, ◌≤◌, List};
ghost use Rattle.zy_base.specs.declared.counts.Counts.{Counts};
ghost use Rattle.zy_chain.specs.Stretch.{Mark};
ghost use Rattle.zy_choose.specs.Choice.{IsAnchor, IsChoice, IsGreatestView, IsOnlyAnchor, last_in};
ghost use Rattle.zy_choose.specs.Reports.{PlainReport};
ghost use Rattle.zy_law.specs.Fixed.{IsFixed};
ghost use Rattle.zy_law.specs.Lawful.{IsLawful};
ghost use Rattle.zy_law.specs.Lists.{AreChoicesSafe, Extends, IsKnown};
ghost use Rattle.zy_law.specs.Reports.{IsValidNew};
ghost use Rattle.zy_law.specs.Said.{At, HasSaid, IsBacked, IsCorrect, Moment};
ghost use Rattle.zy_law.specs.World.{Statement, World};

/// What the counts are for: a certificate and local commits come from more than twice as many replicas as may lie, and
/// two sets that are together larger than n + f share a correct replica, which stands behind both statements.
pub fn quorums()
    ensures sizes { (c : Counts) → (2 * c.f < c.cert) × (2 * c.f < c.local) × (c.n + c.f < 2 * c.fast) }
    ensures share { (w : World) (first second : ℕ) (s t : Statement) → IsLawful w → IsBacked w first s → IsBacked w second t → w.counts.n + w.counts.f < first + second → (r : ℕ) × IsCorrect w r × HasSaid w r s × HasSaid w r t }
{}

/// Agreement within a view: what is fixed in one view lies on one list, whichever way it was fixed, and some correct
/// history of the view has it.
pub fn one_view()
    ensures one_list { (w : World) (view : ℕ) (m k : Mark) → IsLawful w → IsFixed w view m → IsFixed w view k → m.place ≤ k.place → Extends w m k }
    ensures known { (w : World) (view : ℕ) (m : Mark) → IsLawful w → IsFixed w view m → IsKnown w (view + 1) m }
{}

/// The step of the induction over views: where the choices of all earlier views are safe, the choice of a valid new
/// view is known and extends all that is fixed before.
pub fn choice_extends()
    ensures { (w : World) (view : ℕ) → IsLawful w → ((earlier : ℕ) → earlier < view → AreChoicesSafe w earlier) → AreChoicesSafe w view }
{}

/// Safety over all views: in every view the choice of each valid new view is known, and extends all that is fixed before.
pub fn views()
    ensures { (w : World) (view : ℕ) → IsLawful w → AreChoicesSafe w view }
{}

/// What is fixed in any two views lies on one list, and each correct history of a later view has it.
pub fn fixed_for_good()
    ensures one_list { (w : World) (view other : ℕ) (m k : Mark) → IsLawful w → IsFixed w view m → IsFixed w other k → m.place ≤ k.place → Extends w m k }
    ensures kept { (w : World) (view : ℕ) (m : Mark) (t : Moment w) → IsLawful w → IsFixed w view m → view < t.stand.view → At t m }
{}

/// The reports of a valid new view prove one head at the anchor's place, and give one choice.
pub fn no_clash()
    ensures one_anchor { (w : World) (view last : ℕ) (reports : List PlainReport) (anchor : Mark) → IsLawful w → IsValidNew w view reports → IsGreatestView reports last → IsAnchor (last_in last reports) anchor → IsOnlyAnchor (last_in last reports) anchor }
    ensures one_choice { (w : World) (view : ℕ) (reports : List PlainReport) (m k : Mark) → IsLawful w → IsValidNew w view reports → IsChoice w.next w.counts.agree reports m → IsChoice w.next w.counts.agree reports k → m ≡ k }
{}
