ghost use Rattle.std.specs.Prelude.{◌≡◌};
ghost use Rattle.zy_evidence.specs.Rules.{number_of};

use zy_base::Want;
use zy_choose::ReportRule;

/// The rules of a report. A report names no replica: it is its signer's.
#[derive(Clone, Copy, Debug, PartialEq, Eq)]
pub enum Rule {
    /// The last view isn't below the new one.
    LastView,
    /// The last view is the first one, and began with something; or the confirmations of where it began are no
    /// certificate for that.
    Began,
    /// The speculative responses are no certificate, or one of another view.
    Spec,
    /// The stable place is 0 and something is said of it; or the checkpoints don't prove the stable values.
    Stable,
    /// The report contradicts itself.
    Itself(ReportRule),
}

impl Rule {
    /// Its number in refusals, from 2 to 9.
    pub fn number(self) -> u8
        ensures { result ≡ number_of self }
    {
        match self {
            Rule::LastView => 2,
            Rule::Began => 3,
            Rule::Spec => 4,
            Rule::Stable => 5,
            Rule::Itself(ReportRule::Stable) => 6,
            Rule::Itself(ReportRule::Entries) => 7,
            Rule::Itself(ReportRule::Began) => 8,
            Rule::Itself(ReportRule::Spec) => 9,
        }
    }
}

/// Why a report isn't read.
#[derive(Clone, Copy, Debug, PartialEq, Eq)]
pub enum ReportFault {
    /// It breaks this rule, and none before it.
    Broken(Rule),
    Want,
}

impl From<Rule> for ReportFault {
    ghost use Rattle.zy_evidence.specs.declared.rule.ReportFault.TheVariants as faults;

    ghost from_gives = { λ rule fault. fault ≡ faults.Broken rule };

    fn from(rule: Rule) -> ReportFault {
        ReportFault::Broken(rule)
    }
}

impl From<Want> for ReportFault {
    ghost use Rattle.zy_evidence.specs.declared.rule.ReportFault.TheVariants as faults;

    ghost from_gives = { λ _ fault. fault ≡ faults.Want };

    fn from(_: Want) -> ReportFault {
        ReportFault::Want
    }
}
