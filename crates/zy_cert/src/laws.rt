ghost use Rattle.std.specs.Prelude.{◌≡◌, ◌≢◌, ℕ, ◌<◌, List, Any, Ok};
ghost use Rattle.std.specs.Bool.{Decides};
ghost use Rattle.zy_base.specs.declared.ids.Party.{Party};
ghost use Rattle.zy_base.specs.declared.ids.View.{View};
ghost use Rattle.zy_base.specs.declared.ids.Place.{Place};
ghost use Rattle.zy_base.specs.declared.ids.Digest.{Digest};
ghost use Rattle.zy_parts.specs.declared.signed.Signed.{Signed};
ghost use Rattle.zy_parts.specs.declared.statements.Order.{Order};
ghost use Rattle.zy_cert.specs.Signers.{has_signer, has_repeat, has_other, AreDifferent};
ghost use Rattle.zy_cert.specs.Votes.{Poll, AreVotes, poll_after};
ghost use Rattle.zy_cert.specs.Certificates.{IsCertificate, certified};
ghost use Rattle.zy_cert.specs.Misbehaviour.{IsConflict, conflict};

use crate::{Located, Matching};

/// What the tests say by which votes and certificates are judged.
pub fn signers_and_statements<S: Matching>()
    ensures signer { (by : Party) (list : List (Signed S)) → Decides (has_signer by list) (Any (λ s. s.by ≡ by) list) }
    ensures repeat { (list : List (Signed S)) → Decides (has_repeat list) (AreDifferent list → ⊥) }
    ensures other { (stmt : S) (list : List (Signed S)) → Decides (has_other S.eq stmt list) (Any (λ s. s.stmt ≢ stmt) list) }
{}

/// Votes stay of different parties and equal, whatever vote comes.
pub fn equal_votes<S: Matching>()
    ensures { (poll : Poll S) (vote : Signed S) → AreVotes poll.votes → AreVotes (poll_after S.eq poll vote).votes }
{}

/// A list certifies a point exactly where it is a certificate for it.
pub fn certificates<S: Located>()
    ensures taken { (count : ℕ) (list : List (Signed S)) (point : View × Place × Digest) → certified S.eq S.point_of count list ≡ Ok point → IsCertificate S.point_of count list point }
    ensures found { (count : ℕ) (list : List (Signed S)) (point : View × Place × Digest) → 0 < count → IsCertificate S.point_of count list point → certified S.eq S.point_of count list ≡ Ok point }
{}

/// What the test says by which two orders are judged.
pub fn conflicts()
    ensures { (a b : Signed Order) → Decides (conflict a b) (IsConflict a b) }
{}
