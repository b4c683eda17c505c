ghost use Rattle.std.specs.Prelude.{◌≡◌, ◌+◌, ◌<◌, ◌^◌, [], Option, Some, cond, unwrap_or, OnOk, OnErr};
ghost use Rattle.zy_check.specs.Votes.{put_vote, equal_to, only};

use crate::votes::{equal_to, keep_equal, put_vote};
use std::alloc::Global;
use std::marker::Model;
use zy_base::Want;
use zy_cert::Matching;
use zy_parts::Signed;

/// Signed statements of one kind at one place, by rising numbers of their signers, and how many of them are equal to one
/// statement: the first that was kept, or that which all were compared with. Contracts see the statements.
#[derive(Debug, Drop)]
pub(crate) struct Tally<S: Matching + Copy> {
    list: Vec<Signed<S>>,
    // the statement that is counted, once there is one
    counted: Option<S>,
    // how many are equal to it
    number: u64,
}

impl<S: Matching + Copy> Model for Tally<S> {
    ghost use Rattle.std.specs.Prelude.{List};
    ghost use Rattle.zy_parts.specs.declared.signed.Signed as signed;
    ghost use Rattle.zy_check.specs.Votes.{IsTallied};

    ghost Value = { List (signed.Signed S) };

    ghost view = { λ t. t.list.items };

    ghost invariant = { λ t. IsTallied S.eq t.list.items t.counted t.number };
}

impl<S: Matching + Copy> Tally<S> {
    pub(crate) fn new(alloc: Global) -> Tally<S>
        ensures { result ≡ [] }
    {
        Tally {
            list: Vec::new(alloc),
            counted: None,
            number: 0,
        }
    }

    pub(crate) fn list(&self) -> &[Signed<S>]
        ensures { result.now ≡ self.now }
    {
        &self.list
    }

    /// How many are equal to a statement. They are counted anew where it isn't the one that is counted.
    fn equal_to(&self, stmt: &S) -> u64
        ensures number { result ≡ equal_to S.eq stmt.now self.now }
        ensures few { result < 2 ^ 63 }
    {
        if counted_or(&self.counted, stmt) == *stmt {
            self.number
        } else {
            equal_to(&self.list, stmt)
        }
    }

    /// The same with one more.
    pub(crate) fn equal_with(&self, vote: &Signed<S>, stmt: &S) -> u64
        ensures { result ≡ equal_to S.eq stmt.now (put_vote vote.now self.now) }
    {
        let kept = self.equal_to(stmt);
        if vote.stmt == *stmt { kept + 1 } else { kept }
    }

    /// Keeps a statement at its place. After `Want` all is as before.
    pub(crate) fn put(&mut self, vote: Signed<S>) -> Result<(), Want>
        ensures ok { OnOk result (self.new ≡ put_vote vote self.old) }
        ensures err { OnErr result (self.new ≡ self.old) }
    {
        let counted = counted_or(&self.counted, &vote.stmt);
        let number = raised(self.number, &vote.stmt, &counted);
        match put_vote(&mut self.list, vote) {
            Ok(()) => {
                self.counted = Some(counted);
                self.number = number;
                Ok(())
            }
            Err(want) => Err(want),
        }
    }

    /// Drops the statements that differ from one, which is counted from now on.
    pub(crate) fn keep_equal(&mut self, stmt: &S)
        ensures { self.new ≡ only S.eq stmt.now self.old }
    {
        keep_equal(&mut self.list, stmt);
        self.counted = Some(*stmt);
        self.number = self.list.len() as u64;
    }

    pub(crate) fn clear(&mut self)
        ensures { self.new ≡ [] }
    {
        self.list.clear();
        self.counted = None;
        self.number = 0;
    }
}

// The statement that is counted, or else this one.
fn counted_or<S: Copy>(counted: &Option<S>, stmt: &S) -> S
    ensures { result ≡ unwrap_or counted.now stmt.now }
{
    match counted {
        Some(counted) => *counted,
        None => *stmt,
    }
}

// One more, where a statement is the one that is counted.
fn raised<S: Matching>(number: u64, stmt: &S, counted: &S) -> u64
    requires { number < 2 ^ 63 }
    ensures { result ≡ number + cond (S.eq stmt.now counted.now) 1 0 }
{
    if *stmt == *counted {
        number + 1
    } else {
        number
    }
}
