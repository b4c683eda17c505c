ghost use Rattle.std.specs.Prelude.{◌≡◌, ◌↔◌, ℕ, None};
ghost use Rattle.zy_base.specs.declared.counts.Counts.{Counts};
ghost use Rattle.zy_parts.specs.declared.signed.Signed.{Signed};
ghost use Rattle.zy_parts.specs.declared.reports.Change.{Change};
ghost use Rattle.zy_evidence.specs.Rules.{rule_of};
ghost use Rattle.zy_evidence.specs.WellFormed.{IsWellFormedChange};

/// The rules are tests: no one is broken exactly where the report proves what it must, and doesn't contradict itself.
pub fn well_formed_reports()
    ensures { (counts : Counts) (interval : ℕ) (c : Signed Change) → (rule_of counts interval c.stmt ≡ None) ↔ IsWellFormedChange counts interval c }
{}
