ghost use Rattle.std.specs.Prelude.{◌≡◌, ℕ, ◌+◌, ◌*◌, ◌%◌, ◌≤◌, nat_eq, if◌then◌else◌, false, All, option_copied, IfOk, OnOk, OnErr};
ghost use Rattle.zy_cert.specs.Equal.{same_spec, same_check};
ghost use Rattle.zy_cert.specs.Signers.{has_signer};
ghost use Rattle.zy_check.specs.Votes.{IsRising, put_vote, equal_to};
ghost use Rattle.zy_check.specs.Board.{Board, IsBoard, IsProof, start_of, window_of, height, round_at, specs_at, checks_at, with_spec, with_check, without_other_specs, without_other_checks, without_others, with_stable, cleared, no_round};
ghost use Rattle.zy_check.specs.Judging.{place_cause, judge_spec, judge_check, after_spec, after_check};

use crate::Kept;
use crate::judging::first_cause;
use crate::round::Round;
use crate::votes::first_with;
use std::alloc::Global;
use std::marker::Model;
use std::mem;
use zy_base::{Cause, Digest, Place, View, Want};
use zy_chain::EMPTY_HEAD;
use zy_parts::{Check, Signed, Spec};

// The last place that a frame can name.
const LAST_PLACE: u64 = (1 << 62) - 1;

/// The speculative responses and checkpoints of the active view that are kept at multiples of the checkpoint interval,
/// and the stable checkpoint with its proof. The window ends two intervals above the stable place, and no place is past
/// 2^62 - 1: so two rounds are all that is kept, with at most one response and one checkpoint of each replica.
#[derive(Debug, Drop)]
pub struct Checkpoints {
    interval: u64,
    stable: Check,
    proof: Vec<Signed<Check>>,
    near: Round,
    far: Round,
}

impl Model for Checkpoints {
    ghost use Rattle.zy_check.specs.Board.{Board, IsBoard};

    ghost Value = { Board };

    ghost view = { λ c. record { interval = c.interval; stable = c.stable; proof = c.proof.items; near = c.near; far = c.far } };

    ghost invariant = { λ c. IsBoard (record { interval = c.interval; stable = c.stable; proof = c.proof.items; near = c.near; far = c.far }) };
}

impl Checkpoints {
    /// Nothing is kept, and the empty history is stable: view 0, place 0, the zero head, and the digest of the empty
    /// history's snapshot, without a proof. Takes no memory.
    pub fn start(alloc: Global, k: u64, empty: Digest) -> Checkpoints
        requires at_least { 4 ≤ k }
        requires at_most { k ≤ 32 }
        ensures { result ≡ start_of k empty }
    {
        Checkpoints {
            interval: k,
            stable: Check {
                view: View(0),
                place: Place(0),
                head: EMPTY_HEAD,
                state: empty,
            },
            proof: Vec::new(alloc),
            near: Round::new(alloc),
            far: Round::new(alloc),
        }
    }

    /// The stable checkpoint: its view, its place, and the head and the digest of the snapshot there.
    pub fn stable(&self) -> (View, Place, Digest, Digest)
        ensures { result ≡ (self.now.stable.view, self.now.stable.place, self.now.stable.head, self.now.stable.state) }
    {
        let stable = &self.stable;
        (stable.view, stable.place, stable.head, stable.state)
    }

    /// The same as the statement that the replicas of its proof signed.
    pub fn stable_check(&self) -> &Check
        ensures { result.now ≡ self.now.stable }
    {
        &self.stable
    }

    /// The checkpoints that prove it, each equal to it. None for the empty history.
    pub fn proof(&self) -> &[Signed<Check>]
        ensures list { result.now ≡ self.now.proof }
        ensures equal { All (λ s. s.stmt ≡ self.now.stable) result.now }
    {
        &self.proof
    }

    // The last place of which anything is kept.
    fn window(&self) -> u64
        ensures { result ≡ window_of self.now }
    {
        self.stable
            .place
            .0
            .saturating_add(2 * self.interval)
            .min(LAST_PLACE)
    }

    // How far a place lies above the stable one.
    fn height(&self, place: Place) -> u64
        ensures { result ≡ height self.now place.0 }
    {
        place.0.saturating_sub(self.stable.place.0)
    }

    /// The responses that are kept at a place, by rising numbers of the replicas. Takes no memory.
    pub fn specs(&self, place: Place) -> &[Signed<Spec>]
        ensures list { result.now ≡ specs_at self.now place.0 }
        ensures rising { IsRising result.now }
    {
        let height = self.height(place);
        if height == self.interval {
            self.near.specs()
        } else if height == 2 * self.interval {
            self.far.specs()
        } else {
            &[]
        }
    }

    /// The checkpoints that are kept at a place, by rising numbers of the replicas. Takes no memory.
    pub fn checks(&self, place: Place) -> &[Signed<Check>]
        ensures list { result.now ≡ checks_at self.now place.0 }
        ensures rising { IsRising result.now }
    {
        let height = self.height(place);
        if height == self.interval {
            self.near.checks()
        } else if height == 2 * self.interval {
            self.far.checks()
        } else {
            &[]
        }
    }

    // How many responses of its place are equal to the own one, with one more.
    pub(crate) fn specs_with(&self, vote: &Signed<Spec>, own: &Spec) -> u64
        ensures { result ≡ equal_to same_spec own.now (put_vote vote.now (specs_at self.now vote.now.stmt.place.0)) }
    {
        let height = self.height(vote.stmt.place);
        if height == self.interval {
            self.near.specs_with(vote, own)
        } else if height == 2 * self.interval {
            self.far.specs_with(vote, own)
        } else {
            first_with(vote, own)
        }
    }

    // How many checkpoints of its place are equal to the own one, with one more.
    pub(crate) fn checks_with(&self, vote: &Signed<Check>, own: &Check) -> u64
        ensures { result ≡ equal_to same_check own.now (put_vote vote.now (checks_at self.now vote.now.stmt.place.0)) }
    {
        let height = self.height(vote.stmt.place);
        if height == self.interval {
            self.near.checks_with(vote, own)
        } else if height == 2 * self.interval {
            self.far.checks_with(vote, own)
        } else {
            first_with(vote, own)
        }
    }

    // Why nothing of a place is kept.
    fn place_cause(&self, place: Place) -> Option<Cause>
        ensures { result ≡ place_cause self.now place.0 }
    {
        if place.0 % self.interval != 0 {
            return Some(Cause::Unmatched);
        }
        if place <= self.stable.place {
            return Some(Cause::OldPlace);
        }
        let window = self.window();
        if place.0 > window {
            return Some(Cause::WindowFull(Place(window)));
        }
        None
    }

    /// What `spec` would answer. Nothing is kept, and no memory is taken.
    #[tactic(auto, unfolding(crate::specs::Judging::judge_spec))]
    pub fn judge_spec(&self, vote: &Signed<Spec>, own: Option<&Spec>) -> Kept
        ensures { result ≡ judge_spec self.now vote.now (option_copied own.entry) }
    {
        let place = vote.stmt.place;
        let list = self.specs(place);
        match first_cause(self.place_cause(place), list, vote.by) {
            Some(cause) => Kept::Refused(cause),
            None => self.beside_spec(vote, own),
        }
    }

    /// What `vote` would answer. Nothing is kept, and no memory is taken.
    #[tactic(auto, unfolding(crate::specs::Judging::judge_check))]
    pub fn judge_vote(&self, vote: &Signed<Check>, own: Option<&Check>) -> Kept
        ensures { result ≡ judge_check self.now vote.now (option_copied own.entry) }
    {
        let place = vote.stmt.place;
        let list = self.checks(place);
        match first_cause(self.place_cause(place), list, vote.by) {
            Some(cause) => Kept::Refused(cause),
            None => self.beside_check(vote, own),
        }
    }

    /// Judges a response and keeps it unless it is refused. The own response of its place is given where the own history
    /// has come so far. `Unmatched` where the place is no multiple of the interval; `OldPlace` where it is not above the
    /// stable one; `WindowFull` where it is past the window; `Repeat` where that replica's response of the place is kept;
    /// `OtherHistory` where its head is not the own one; `Unmatched` where another field differs; in this order. After
    /// `Want` all is as before.
    pub fn spec(&mut self, vote: Signed<Spec>, own: Option<&Spec>) -> Result<Kept, Want>
        ensures answer { IfOk result (λ answer. answer ≡ judge_spec self.old vote (option_copied own.entry)) }
        ensures kept { OnOk result (self.new ≡ after_spec self.old vote (option_copied own.entry)) }
        ensures err { OnErr result (self.new ≡ self.old) }
    {
        let answer = self.judge_spec(&vote, own);
        if answer.is_refused() {
            return Ok(answer);
        }
        match self.put_spec(vote) {
            Ok(()) => Ok(answer),
            Err(want) => Err(want),
        }
    }

    /// Judges a checkpoint and keeps it unless it is refused. The own checkpoint of its place is given where the own
    /// history has come so far. The causes are those of `spec`, but `WrongState` where the head is the own one and the
    /// digest of the snapshot is another. After `Want` all is as before.
    pub fn vote(&mut self, vote: Signed<Check>, own: Option<&Check>) -> Result<Kept, Want>
        ensures answer { IfOk result (λ answer. answer ≡ judge_check self.old vote (option_copied own.entry)) }
        ensures kept { OnOk result (self.new ≡ after_check self.old vote (option_copied own.entry)) }
        ensures err { OnErr result (self.new ≡ self.old) }
    {
        let answer = self.judge_vote(&vote, own);
        if answer.is_refused() {
            return Ok(answer);
        }
        match self.put_check(vote) {
            Ok(()) => Ok(answer),
            Err(want) => Err(want),
        }
    }

    fn put_spec(&mut self, vote: Signed<Spec>) -> Result<(), Want>
        requires { has_signer vote.by (specs_at self.old vote.stmt.place.0) ≡ false }
        ensures ok { OnOk result (self.new ≡ with_spec self.old vote) }
        ensures err { OnErr result (self.new ≡ self.old) }
    {
        let height = self.height(vote.stmt.place);
        if height == self.interval {
            self.near.put_spec(vote)
        } else if height == 2 * self.interval {
            self.far.put_spec(vote)
        } else {
            Ok(())
        }
    }

    fn put_check(&mut self, vote: Signed<Check>) -> Result<(), Want>
        requires { has_signer vote.by (checks_at self.old vote.stmt.place.0) ≡ false }
        ensures ok { OnOk result (self.new ≡ with_check self.old vote) }
        ensures err { OnErr result (self.new ≡ self.old) }
    {
        let height = self.height(vote.stmt.place);
        if height == self.interval {
            self.near.put_check(vote)
        } else if height == 2 * self.interval {
            self.far.put_check(vote)
        } else {
            Ok(())
        }
    }

    /// Drops the responses and checkpoints of a place that differ from the own ones. Takes no memory.
    pub fn drop_other(&mut self, spec: &Spec, check: &Check)
        ensures { self.new ≡ without_others self.old spec.now check.now }
    {
        self.drop_other_specs(spec);
        self.drop_other_checks(check);
    }

    fn drop_other_specs(&mut self, spec: &Spec)
        ensures { self.new ≡ without_other_specs self.old spec.now }
    {
        let height = self.height(spec.place);
        if height == self.interval {
            self.near.keep_spec(spec);
        } else if height == 2 * self.interval {
            self.far.keep_spec(spec);
        }
    }

    fn drop_other_checks(&mut self, check: &Check)
        ensures { self.new ≡ without_other_checks self.old check.now }
    {
        let height = self.height(check.place);
        if height == self.interval {
            self.near.keep_check(check);
        } else if height == 2 * self.interval {
            self.far.keep_check(check);
        }
    }

    /// Makes a place stable by equal checkpoints of it, which become the proof. What is kept above the place stays, the
    /// rest is dropped. Takes no memory.
    pub fn set_stable(&mut self, place: Place, proof: Vec<Signed<Check>>)
        requires multiple { place.0 % self.old.interval ≡ 0 }
        requires not_below { self.old.stable.place.0 ≤ place.0 }
        requires proof { IsProof place.0 proof.items }
        ensures { self.new ≡ with_stable self.old proof.items }
    {
        let height = self.height(place);
        move_rounds(height, self.interval, &mut self.near, &mut self.far);
        self.stable = proof[0].stmt;
        self.proof = proof;
    }

    /// Drops all responses and checkpoints. The stable checkpoint stays, with its proof. Takes no memory.
    pub fn clear(&mut self)
        ensures { self.new ≡ cleared self.old }
    {
        self.near.clear();
        self.far.clear();
    }
}

// The stable place rises by some intervals.
fn move_rounds(height: u64, interval: u64, near: &mut Round, far: &mut Round)
    ensures near { near.new ≡ if nat_eq height 0 then near.old else (if nat_eq height interval then far.old else no_round) }
    ensures far { far.new ≡ if nat_eq height 0 then far.old else no_round }
{
    if height == 0 {
        return;
    }
    if height == interval {
        mem::swap(near, far);
    } else {
        near.clear();
    }
    far.clear();
}
