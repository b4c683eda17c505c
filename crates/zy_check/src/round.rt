ghost use Rattle.std.specs.Prelude.{◌≡◌, OnOk, OnErr};
ghost use Rattle.zy_cert.specs.Equal.{same_spec, same_check};
ghost use Rattle.zy_check.specs.Board.{no_round, put_spec, put_check, only_spec, only_check};
ghost use Rattle.zy_check.specs.Votes.{put_vote, equal_to};

use crate::tally::Tally;
use std::alloc::Global;
use std::marker::Model;
use zy_base::Want;
use zy_parts::{Check, Signed, Spec};

/// What is kept of one place, by rising numbers of the signers.
#[derive(Debug, Drop)]
pub(crate) struct Round {
    specs: Tally<Spec>,
    checks: Tally<Check>,
}

impl Model for Round {
    ghost use Rattle.zy_check.specs.Board as board;

    ghost Value = { board.Round };

    ghost view = { λ r. record { specs = r.specs; checks = r.checks } };
}

impl Round {
    pub(crate) fn new(alloc: Global) -> Round
        ensures { result ≡ no_round }
    {
        Round {
            specs: Tally::new(alloc),
            checks: Tally::new(alloc),
        }
    }

    pub(crate) fn specs(&self) -> &[Signed<Spec>]
        ensures { result.now ≡ self.now.specs }
    {
        self.specs.list()
    }

    pub(crate) fn checks(&self) -> &[Signed<Check>]
        ensures { result.now ≡ self.now.checks }
    {
        self.checks.list()
    }

    pub(crate) fn specs_with(&self, vote: &Signed<Spec>, own: &Spec) -> u64
        ensures { result ≡ equal_to same_spec own.now (put_vote vote.now self.now.specs) }
    {
        self.specs.equal_with(vote, own)
    }

    pub(crate) fn checks_with(&self, vote: &Signed<Check>, own: &Check) -> u64
        ensures { result ≡ equal_to same_check own.now (put_vote vote.now self.now.checks) }
    {
        self.checks.equal_with(vote, own)
    }

    pub(crate) fn put_spec(&mut self, vote: Signed<Spec>) -> Result<(), Want>
        ensures ok { OnOk result (self.new ≡ put_spec vote self.old) }
        ensures err { OnErr result (self.new ≡ self.old) }
    {
        self.specs.put(vote)
    }

    pub(crate) fn put_check(&mut self, vote: Signed<Check>) -> Result<(), Want>
        ensures ok { OnOk result (self.new ≡ put_check vote self.old) }
        ensures err { OnErr result (self.new ≡ self.old) }
    {
        self.checks.put(vote)
    }

    pub(crate) fn keep_spec(&mut self, spec: &Spec)
        ensures { self.new ≡ only_spec spec.now self.old }
    {
        self.specs.keep_equal(spec)
    }

    pub(crate) fn keep_check(&mut self, check: &Check)
        ensures { self.new ≡ only_check check.now self.old }
    {
        self.checks.keep_equal(check)
    }

    pub(crate) fn clear(&mut self)
        ensures { self.new ≡ no_round }
    {
        self.specs.clear();
        self.checks.clear();
    }
}
