//! What a step owes is what the answer table says. Laws without code: they speak of all replicas.

ghost use Rattle.std.specs.Prelude.{◌≡◌, ◌<◌, ◌+◌, ℕ};
ghost use Rattle.zy_base.specs.declared.ids.Party.{Party};
ghost use Rattle.zy_base.specs.declared.ids.View.{View};
ghost use Rattle.zy_parts.specs.declared.reports.Change.{Change};
ghost use Rattle.zy_parts.specs.declared.signed.Signed.{Signed};
ghost use Rattle.zy_parts.specs.declared.statements.Hate.{Hate};
ghost use Rattle.zy_evidence.specs.Reading.{IsReplica};
ghost use Rattle.zy_change.specs.declared.owed.Owed.{Owed};
ghost use Rattle.zy_table.specs.State.{State, own_view};
ghost use Rattle.zy_table.specs.Deeds.{Going, begin};
ghost use Rattle.zy_table.specs.Leaving.{Attempt, concluded, leave};
ghost use Rattle.zy_table.specs.Hates.{hate, hate_counted, with_hate_of};
ghost use Rattle.zy_table.specs.Changes.{change};
ghost use Rattle.zy_replica_views.specs.Carrying.{carried_out, kept_unless};
ghost use Rattle.zy_replica_views.specs.Follows.{Follows, IsSigner, SignsAsItself, IsLeaveOwed, IsCountedOwed, IsHateOwed, IsChangeOwed, spent_many};

use zy_base::Machine;

/// What a leave for a later view owes is the leave itself, and what follows from it.
pub fn leaves_follow<M: Machine>()
    ensures { (g : Going M.State) (view : View) (owed : Owed) → SignsAsItself g.state → own_view g.state < view.0 → IsLeaveOwed g.state view owed → Follows M.rules (leave M.rules view g) owed g }
{}

/// What a hate owes is what the answer table says of it, once it is counted; so is what the counted hates owe.
pub fn hates_follow<M: Machine>()
    ensures heard { (s : State M.State) (vote : Signed Hate) (owed : Owed) → SignsAsItself s → IsHateOwed s vote owed → Follows M.rules (hate M.rules s vote) owed (with_hate_of vote.by (begin s)) }
    ensures counted { (g : Going M.State) (owed : Owed) → SignsAsItself g.state → IsCountedOwed g.state owed → Follows M.rules (hate_counted M.rules g) owed g }
{}

/// What another's report owes is what the answer table says of it, once it is kept; where its signer is only told that the
/// view began, it isn't kept.
pub fn changes_follow<M: Machine>()
    ensures { (s : State M.State) (vote : Signed Change) (owed : Owed) → SignsAsItself s → IsReplica vote.by → IsChangeOwed s vote owed → Follows M.rules (change M.rules s vote) owed (begin (kept_unless owed.send vote s)) }
{}

/// The signatures that a step spends can be counted before anything is signed: those that it spent so far, and what it owes.
pub fn conclusions<M: Machine>()
    ensures { (s : State M.State) (attempt : Attempt M.State) (owed : Owed) (g : Going M.State) (more : ℕ) → IsSigner s → g.state.sealer ≡ spent_many more s.sealer → Follows M.rules attempt owed g → concluded s attempt ≡ carried_out M.rules s (more + owed.signs) owed g }
{}
