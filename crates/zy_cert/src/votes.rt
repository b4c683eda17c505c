ghost use Rattle.std.specs.Prelude.{◌≡◌, [], OnOk, OnErr, IfOk, IfErr};
ghost use Rattle.zy_cert.specs.Signers.{has_other};
ghost use Rattle.zy_cert.specs.Votes.{answer_to, poll_after, AreVotes};

use crate::Matching;
use crate::signers::has_signer;
use std::alloc::Global;
use std::marker::Model;
use zy_base::Want;
use zy_parts::Signed;

/// What a vote comes to.
#[derive(Clone, Copy, Debug, PartialEq, Eq)]
pub enum Vote {
    /// It is counted, and there are so many now.
    Counted(u64),
    /// It is counted, and there are as many now as are wanted.
    Full,
    /// That party's vote is counted already.
    Repeat,
    /// Another statement is voted for.
    Mixed,
}

/// Signed equal statements of different parties, of which so many are wanted. Contracts see that number and the
/// statements, in the order in which they came.
#[derive(Debug, Drop)]
pub struct Votes<S> {
    count: u64,
    // how many votes are counted
    number: u64,
    votes: Vec<Signed<S>>,
}

impl<S> Model for Votes<S> {
    ghost use Rattle.zy_cert.specs.Votes.{Poll, AreCounted};

    ghost Value = { Poll S };

    ghost view = { λ v. record { count = v.count; votes = v.votes.items } };

    ghost invariant = { λ v. AreCounted v.number v.votes.items };
}

impl<S: Matching> Votes<S> {
    /// No votes yet, of which so many are wanted. Takes no memory.
    pub fn new(alloc: Global, count: u64) -> Votes<S>
        ensures { result ≡ record { count = count; votes = [] } }
    {
        Votes {
            count,
            number: 0,
            votes: Vec::new(alloc),
        }
    }

    /// Counts a vote, unless its signer's is counted already or another statement is voted for. After `Want` all is as
    /// before, and the vote comes back.
    pub fn add(&mut self, vote: Signed<S>) -> Result<Vote, (Signed<S>, Want)>
        ensures answer { IfOk result (λ answer. answer ≡ answer_to S.eq self.old vote) }
        ensures votes { OnOk result (self.new ≡ poll_after S.eq self.old vote) }
        ensures err { OnErr result (self.new ≡ self.old) }
        ensures back { IfErr result (λ e. e.0 ≡ vote) }
    {
        if has_signer(&self.votes, vote.by) {
            return Ok(Vote::Repeat);
        }
        if is_for_other(&self.votes, &vote.stmt) {
            return Ok(Vote::Mixed);
        }
        match self.votes.push(vote) {
            Ok(()) => {}
            Err(failed) => return Err((failed.value, Want)),
        }
        self.number += 1;
        let number = self.number;
        if number == self.count {
            Ok(Vote::Full)
        } else {
            Ok(Vote::Counted(number))
        }
    }

    /// The votes that are counted, in the order in which they came.
    pub fn votes(&self) -> &[Signed<S>]
        ensures list { result.now ≡ self.now.votes }
        ensures equal { AreVotes result.now }
    {
        &self.votes
    }
}

// These votes, which are equal, are for another statement: the first tells it of all.
fn is_for_other<S: Matching>(votes: &[Signed<S>], stmt: &S) -> bool
    requires { AreVotes votes.now }
    ensures { result ≡ has_other S.eq stmt.now votes.now }
{
    match votes {
        [] => false,
        [first, ..] => first.stmt != *stmt,
    }
}
