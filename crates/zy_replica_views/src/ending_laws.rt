ghost use Rattle.std.specs.Prelude.{◌≡◌, ◌+◌, ℕ, false, List, slice_get, Some, None};
ghost use Rattle.std.specs.List.{list_any};
ghost use Rattle.std.specs.Option.{ForSome};
ghost use Rattle.zy_base.specs.declared.cause.Cause.{Cause};
ghost use Rattle.zy_base.specs.declared.step.Answer.TheVariants.{Refused, Taken};
ghost use Rattle.zy_parts.specs.declared.signed.Signed.{Signed};
ghost use Rattle.zy_parts.specs.declared.reports.Began.{Began};
ghost use Rattle.zy_parts.specs.declared.reports.New.{New};
ghost use Rattle.zy_parts.specs.declared.reports.Told.{Told};
ghost use Rattle.zy_vframes.specs.declared.frame.ViewCert.{ViewCert};
ghost use Rattle.zy_change.specs.declared.kept.Chosen.{Chosen};
ghost use Rattle.zy_base.specs.declared.ids.Place.{Place};
ghost use Rattle.zy_parts.specs.declared.reports.Change.{Change};
ghost use Rattle.zy_check.specs.States.{state_cause};
ghost use Rattle.zy_exec.specs.Replay.{Point};
ghost use Rattle.zy_exec.specs.Showing.{point_in};
ghost use Rattle.zy_change.specs.declared.kept.Waiting.{Waiting};
ghost use Rattle.zy_change.specs.declared.owed.Adoption.{Adoption};
ghost use Rattle.zy_change.specs.declared.owed.Owed.{Owed};
ghost use Rattle.zy_table.specs.State.{State};
ghost use Rattle.zy_table.specs.Deeds.{Going, begin, refused};
ghost use Rattle.zy_table.specs.Leaving.{Attempt, goes};
ghost use Rattle.zy_table.specs.Beginning.{adopt, certify, confirms, finished, take_up, wait_for, wanted_of};
ghost use Rattle.zy_table.specs.Fetching.{installed, state_transfer};
ghost use Rattle.zy_table.specs.Confirming.{confirmation, new_view, view_certificate, with_confirmation};
ghost use Rattle.zy_replica_views.specs.Carrying.{carried};
ghost use Rattle.zy_replica_views.specs.Follows.{Follows, IsSigner, spent_many};
ghost use Rattle.zy_replica_views.specs.Ending.{IsStableShown, IsBeganOwed, IsCertOwed, IsNewOwed, IsSoFar, TakesUp, confirmed, counted, finished_by};
ghost use Rattle.zy_replica_views.specs.Signing.{CanTake, signs_taken, signs_waiting};

use zy_base::Machine;

/// An adoption signs exactly its checkpoints: those above what is stable then, up to the choice. A wait signs the report
/// where the view is above the own one, and what it asks for where it wasn't asked for yet.
pub fn signatures<M: Machine>()
    ensures taken { (g : Going M.State) (cert : ViewCert) (chosen : Chosen) (told : Told) → CanTake g.state told chosen.place → (take_up M.rules cert chosen told g).state.sealer ≡ spent_many (signs_taken g.state told chosen.place) g.state.sealer }
    ensures waiting { (g : Going M.State) (cert : ViewCert) (chosen : Chosen) (told : Told) → (wait_for M.rules cert chosen told g).state.sealer ≡ spent_many (signs_waiting g.state cert.new.stmt.view told) g.state.sealer }
{}

/// What a step owes that can make a replica leave, carried out, and then what it tells to be adopted, is the whole row with
/// the view that begins at its end. Each cause is named before anything is done, and the leaves are counted before
/// anything is signed.
pub fn endings<M: Machine>()
    ensures { (s : State M.State) (attempt : Attempt M.State) (owed : Owed) (g : Going M.State) (more : ℕ) → IsSigner s → IsSoFar s more g → list_any confirms g.deeds.acts ≡ false → Follows M.rules attempt owed g → ForSome owed.adopt (TakesUp M.rules s) → finished M.rules s attempt ≡ finished_by M.rules s (more + owed.signs) owed (carried M.rules owed g) (certify M.rules Taken (carried M.rules owed g)) }
{}

/// The row of a new view: what it owes is the report, where its view is above the own one, the confirmation of what is
/// chosen out of its reports, and the view that begins where enough others confirmed that.
pub fn new_views<M: Machine>()
    ensures confirmed { (s : State M.State) (new : Signed New) (owed : Owed) (chosen : Chosen) → IsSigner s → IsNewOwed s new owed → owed.confirm ≡ Some chosen → ForSome owed.adopt (TakesUp M.rules s) → finished M.rules s (new_view M.rules s new) ≡ finished_by M.rules s owed.signs owed (confirmed M.rules s new chosen) (certify M.rules Taken (confirmed M.rules s new chosen)) }
    ensures refused { (s : State M.State) (new : Signed New) (owed : Owed) → IsSigner s → IsNewOwed s new owed → owed.confirm ≡ None → (cause : Cause) × (owed.answer ≡ Refused cause) × (finished M.rules s (new_view M.rules s new) ≡ refused cause s) }
{}

/// The row of another's confirmation, and that of a view certificate: nothing is signed but for the view that begins.
pub fn certificates<M: Machine>()
    ensures confirmation { (s : State M.State) (vote : Signed Began) (owed : Owed) → IsSigner s → IsBeganOwed s vote owed → ForSome owed.adopt (TakesUp M.rules s) → finished M.rules s (confirmation M.rules s vote) ≡ finished_by M.rules s 0 owed (begin (with_confirmation vote s)) (certify M.rules Taken (begin (with_confirmation vote s))) }
    ensures certificate { (s : State M.State) (cert : ViewCert) (owed : Owed) (adoption : Adoption) → IsSigner s → IsCertOwed s cert owed → owed.adopt ≡ Some adoption → TakesUp M.rules s adoption → finished M.rules s (view_certificate M.rules s cert) ≡ finished_by M.rules s 0 owed (begin s) (adopt M.rules cert adoption.chosen (begin s)) }
    ensures refused { (s : State M.State) (cert : ViewCert) (owed : Owed) → IsSigner s → IsCertOwed s cert owed → owed.adopt ≡ None → finished M.rules s (view_certificate M.rules s cert) ≡ finished_by M.rules s 0 owed (begin s) (goes Taken (begin s)) }
{}

/// The row of a snapshot that comes and is the one that a certificate waits for: with it the choice is taken up, and the
/// leaves are counted before anything is signed.
pub fn installations<M: Machine>()
    ensures { (s : State M.State) (w : Waiting) (provider : Signed Change) (point : Point M.State) (place : Place) (bytes : List ℕ) → IsSigner s → s.views.waiting ≡ Some w → slice_get w.cert.new.stmt.changes w.chosen.provider ≡ Some provider → state_cause (wanted_of provider.stmt.told) place bytes ≡ None
        → point_in M.rules provider.stmt.told.stable_place provider.stmt.told.stable_head bytes ≡ Some point → IsStableShown s provider.stmt.told point w.chosen
        → finished M.rules s (state_transfer M.rules s place bytes) ≡ counted s (signs_taken (installed M.rules point provider.stmt.told s) provider.stmt.told w.chosen.place) (goes Taken (take_up M.rules w.cert w.chosen provider.stmt.told (begin (installed M.rules point provider.stmt.told s)))) }
{}
