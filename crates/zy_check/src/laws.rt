ghost use Rattle.std.specs.Prelude.{◌≡◌, ℕ, ◌+◌, ◌%◌, ◌≤◌, Bool, cond, List, ◌∷◌, Option};
ghost use Rattle.std.specs.List.Sorted.{IsPermutation};
ghost use Rattle.zy_base.specs.declared.ids.Digest.{Digest};
ghost use Rattle.zy_parts.specs.declared.signed.Signed.{Signed};
ghost use Rattle.zy_parts.specs.declared.statements.Spec.{Spec};
ghost use Rattle.zy_parts.specs.declared.statements.Check.{Check};
ghost use Rattle.zy_cert.specs.Signers.{AreDifferent, has_signer};
ghost use Rattle.zy_check.specs.Votes.{put_vote, equal_to, IsRising};
ghost use Rattle.zy_check.specs.Board.{Board, start_of, without_others, with_stable, cleared, IsProof, IsBoard, Stays};
ghost use Rattle.zy_check.specs.Judging.{after_spec, after_check};

use zy_cert::Matching;

/// What holds of every board holds of the one that each call leaves.
pub fn boards()
    ensures start { (interval : ℕ) (empty : Digest) → 4 ≤ interval → interval ≤ 32 → IsBoard (start_of interval empty) }
    ensures spec { (b : Board) (vote : Signed Spec) (own : Option Spec) → IsBoard b → IsBoard (after_spec b vote own) }
    ensures check { (b : Board) (vote : Signed Check) (own : Option Check) → IsBoard b → IsBoard (after_check b vote own) }
    ensures others { (b : Board) (spec : Spec) (check : Check) → IsBoard b → IsBoard (without_others b spec check) }
    ensures stable { (b : Board) (place : ℕ) (proof : List (Signed Check)) → IsBoard b → place % b.interval ≡ 0 → IsProof place proof → IsBoard (with_stable b proof) }
    ensures cleared { (b : Board) → IsBoard b → IsBoard (cleared b) }
{}

/// Only a new stable checkpoint changes more than the responses and checkpoints that are kept.
pub fn stays()
    ensures spec { (b : Board) (vote : Signed Spec) (own : Option Spec) → Stays b (after_spec b vote own) }
    ensures check { (b : Board) (vote : Signed Check) (own : Option Check) → Stays b (after_check b vote own) }
    ensures others { (b : Board) (spec : Spec) (check : Check) → Stays b (without_others b spec check) }
    ensures cleared { (b : Board) → Stays b (cleared b) }
{}

/// Statements by rising numbers of their signers are of different parties. With one more they are these and that one, which
/// is counted where it is equal to the own one.
pub fn kept_votes<S: Matching>()
    ensures different { (list : List (Signed S)) → IsRising list → AreDifferent list }
    ensures permutation { (vote : Signed S) (list : List (Signed S)) → IsPermutation (vote ∷ list) (put_vote vote list) }
    ensures counted { (own : S) (vote : Signed S) (list : List (Signed S)) → equal_to S.eq own (put_vote vote list) ≡ equal_to S.eq own list + cond (S.eq vote.stmt own) 1 0 }
{}
