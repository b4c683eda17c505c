ghost use Rattle.std.specs.Prelude.{◌≡◌, ◌≤◌, ℕ, List, true, false, [], ◌∷◌, slice_get, nat_lt, Some, None};
ghost use Rattle.std.specs.List.{list_any};
ghost use Rattle.zy_base.specs.declared.cause.Cause.{Cause};
ghost use Rattle.zy_base.specs.declared.step.Answer.{Answer};
ghost use Rattle.zy_base.specs.declared.step.Answer.TheVariants.{Refused, Taken};
ghost use Rattle.zy_base.specs.declared.step.Event.{Event};
ghost use Rattle.zy_parts.specs.declared.signed.Signed.{Signed};
ghost use Rattle.zy_parts.specs.declared.reports.Change.{Change};
ghost use Rattle.zy_parts.specs.declared.reports.Told.{Told};
ghost use Rattle.zy_vframes.specs.declared.frame.ViewCert.{ViewCert};
ghost use Rattle.zy_check.specs.Board.{stated};
ghost use Rattle.zy_exec.specs.Kept.{last_place};
ghost use Rattle.zy_exec.specs.Replay.{Point};
ghost use Rattle.zy_evidence.specs.Reading.{stretch_of};
ghost use Rattle.zy_change.specs.declared.kept.Chosen.{Chosen};
ghost use Rattle.zy_change.specs.Views.{certificate};
ghost use Rattle.zy_table.specs.declared.deeds.Act.TheVariants.{Adopts};
ghost use Rattle.zy_table.specs.declared.deeds.Verdict.TheVariants.{Take};
ghost use Rattle.zy_table.specs.State.{State};
ghost use Rattle.zy_table.specs.ClientState.{ClientState, refused as refused_client};
ghost use Rattle.zy_table.specs.ClientRows.{ask, client_step};
ghost use Rattle.zy_table.specs.Deeds.{Going, begin, refused};
ghost use Rattle.zy_table.specs.Adopting.{verdict_of, common_with, taken_over, gots_of, checkpoints_between};
ghost use Rattle.zy_table.specs.Leaving.{concluded, goes};
ghost use Rattle.zy_table.specs.Beginning.{active_by, adopt, begin_view, confirms, finished};
ghost use Rattle.zy_table.specs.Fetching.{installed};
ghost use Rattle.zy_table.specs.Standing.{IsOnePlace};
ghost use Rattle.zy_table.specs.Whole.{whole_step};

use zy_base::Machine;

/// A refused step changes nothing and sends nothing: its state is the one before it, no frame is sent, nothing is said, and no entry is
/// gained. So for each event of a replica and of a client, and for each ask.
pub fn refused_steps<M: Machine>()
    ensures replica { (s : State M.State) (event : Event) (cause : Cause) → (whole_step M.rules s event).answer ≡ Refused cause → whole_step M.rules s event ≡ refused cause s }
    ensures client { (s : ClientState) (event : Event) (cause : Cause) → (client_step s event).answer ≡ Refused cause → client_step s event ≡ refused_client cause s }
    ensures asks { (s : ClientState) (op : List ℕ) (cause : Cause) → (ask s op).answer ≡ Refused cause → ask s op ≡ refused_client cause s }
{}

/// No view begins at the end of a row that confirms no new view, nor where too few confirmations of it are kept.
pub fn rests<M: Machine>()
    ensures uncertified { (s : State M.State) (answer : Answer) (g : Going M.State) → certificate g.state.views ≡ None → finished M.rules s (goes answer g) ≡ concluded s (goes answer g) }
    ensures unconfirmed { (s : State M.State) (answer : Answer) (g : Going M.State) → list_any confirms g.deeds.acts ≡ false → finished M.rules s (goes answer g) ≡ concluded s (goes answer g) }
{}

/// A replica that has the chosen history already, which passes no checkpoint above its stable one, takes it up without
/// executing, signing or sending anything.
pub fn stays<M: Machine>()
    ensures { (s : State M.State) (cert : ViewCert) (chosen : Chosen) (provider : Signed Change) → slice_get cert.new.stmt.changes chosen.provider ≡ Some provider
        → verdict_of M.rules s.kept s.board.stable provider.stmt.told chosen.place chosen.head ≡ Take → nat_lt s.board.stable.place.0 provider.stmt.told.stable_place.0 ≡ false
        → taken_over (stretch_of provider.stmt.told) chosen.place.0 s.kept ≡ s.kept → gots_of M.rules (stretch_of provider.stmt.told) chosen.place.0 s.kept ≡ []
        → checkpoints_between s.kept.interval s.board.stable.place.0 chosen.place.0 ≡ []
        → adopt M.rules cert chosen (begin s) ≡ goes Taken (record { state = active_by cert chosen s; deeds = record { sent = []; acts = Adopts cert.new.stmt.view (record { 0 = common_with (stretch_of provider.stmt.told) chosen.place.0 s.kept }) [] ∷ [] } }) }
{}

/// The history and the orders are kept from one place on, the stable one: once a snapshot is installed, where the proof in
/// the report is of the report's stable place; and as a view begins where they were so before, and both histories meet at or
/// above their bases, where a report that is stable further on has such a proof.
pub fn one_place<M: Machine>()
    ensures installed { (s : State M.State) (point : Point M.State) (told : Told) → (stated s.board.stable told.checks).place ≡ told.stable_place → point.place ≡ told.stable_place.0 → IsOnePlace (installed M.rules point told s) }
    ensures begun { (s : State M.State) (cert : ViewCert) (chosen : Chosen) (told : Told) → s.board.stable.place.0 ≡ s.kept.base.place → (nat_lt s.board.stable.place.0 told.stable_place.0 ≡ true → (stated s.board.stable told.checks).place ≡ told.stable_place)
        → s.kept.base.place ≤ common_with (stretch_of told) chosen.place.0 s.kept → common_with (stretch_of told) chosen.place.0 s.kept ≤ last_place s.kept → told.stable_place.0 ≤ common_with (stretch_of told) chosen.place.0 s.kept
        → IsOnePlace (begin_view M.rules cert chosen told (begin s)).state }
{}
