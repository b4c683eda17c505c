ghost use Rattle.std.specs.Prelude.{◌≡◌, ℕ, ◌*◌, ◌<◌, List, length};
ghost use Rattle.zy_choose.specs.declared.choice.Choice.{Choice};
ghost use Rattle.zy_choose.specs.Answer.{IsAnswer};
ghost use Rattle.zy_choose.specs.Reports.{PlainReport};

/// The choice over reports has one answer, where more than half of the reports have to agree. So `choose` answers
/// `AnchorClash` exactly where two heads stand at the anchor's place, and else the choice.
pub fn one_answer()
    ensures { (agree : ℕ) (reports : List PlainReport) (a b : Choice) → length reports < 2 * agree → IsAnswer agree reports a → IsAnswer agree reports b → a ≡ b }
{}
