ghost use Rattle.std.specs.Prelude.{◌≡◌, ◌≤◌, ◌<◌, ◌^◌, ℕ, Bool, true, List, length, map};
ghost use Rattle.std.specs.List.{AllByRecursion};
ghost use Rattle.zy_base.specs.declared.counts.Counts.{Counts};
ghost use Rattle.zy_base.specs.declared.ids.ClientId.{ClientId};
ghost use Rattle.zy_base.specs.declared.ids.Party.{Party};
ghost use Rattle.zy_base.specs.declared.ids.Party.TheVariants.{Replica, Client};
ghost use Rattle.zy_base.specs.declared.ids.ReplicaId.{ReplicaId};
ghost use Rattle.zy_base.specs.declared.ids.Stamp.{Stamp};
ghost use Rattle.zy_base.specs.declared.step.Event.{Event};
ghost use Rattle.zy_frames.specs.Frames as plain;
ghost use Rattle.zy_frames.specs.declared.frame.Frame.{Frame};
ghost use Rattle.zy_seal.specs.Keys.{Keys};
ghost use Rattle.zy_seal.specs.Sealing.{SealerState};
ghost use Rattle.zy_table.specs.ClientRows.{ask, client_step};
ghost use Rattle.zy_table.specs.ClientState.{ClientState, client_start, spoken_of};
ghost use Rattle.zy_table.specs.Deeds.{said_from};
ghost use Rattle.zy_table.specs.Sending.{outgoing_to};
ghost use Rattle.zy_table.specs.State.{State, start_of};
ghost use Rattle.zy_table.specs.Whole.{whole_step};
ghost use Rattle.zy_vframes.specs.Parts as view_parts;
ghost use Rattle.zy_vframes.specs.declared.frame.ViewFrame.{ViewFrame};
ghost use Rattle.zy_wire.specs.Fields.{IsParty};
ghost use Rattle.zy_law_steps.specs.Signs.{AreOfTexts, ArePassed, DoVerifiedPass, OfClient, OfFrame, OfHeard, OfState, OfTexts, OfTextsAlone, OfViewFrame};
ghost use Rattle.zy_law_steps.specs.Spelled.{FitAll};

use zy_base::Machine;

/// A replica passes on what was said and adds its own statements. Where all signed statements that it keeps and hears can be spelled
/// and pass a test of signers and texts, and what it says in a step can be spelled and passes it too, then so do all that it keeps
/// then; and the bytes that it sends, whoever gets them, are read as frames of such statements, or as none.
pub fn replicas_pass_on<M: Machine>()
    ensures start { (p : Party → List ℕ → Bool) (interval : ℕ) (me : ReplicaId) (counts : Counts) (keys : Keys) (sealer : SealerState) → sealer.me ≡ Replica me → OfState M.IsState (OfTexts p) (start_of M.rules interval me counts keys sealer) }
    ensures keeps { (p : Party → List ℕ → Bool) (s : State M.State) (event : Event) → IsParty s.sealer.me → OfState M.IsState (OfTexts p) s → OfHeard (OfTexts p) event → FitAll (whole_step M.rules s event).deeds.acts → ArePassed p s.sealer.me (said_from s.sealer.me 0 (whole_step M.rules s event).deeds.acts) → OfState M.IsState (OfTexts p) (whole_step M.rules s event).state }
    ensures sends { (p : Party → List ℕ → Bool) (s : State M.State) (event : Event) → IsParty s.sealer.me → OfState M.IsState (OfTexts p) s → OfHeard (OfTexts p) event → FitAll (whole_step M.rules s event).deeds.acts → ArePassed p s.sealer.me (said_from s.sealer.me 0 (whole_step M.rules s event).deeds.acts) → (to : List Party) → AreOfTexts p (outgoing_to to (whole_step M.rules s event).deeds.sent) }
{}

/// So does a client, whose requests are of at most 1,100 bytes.
pub fn clients_pass_on()
    ensures start { (p : Party → List ℕ → Bool) (me : ClientId) (counts : Counts) (keys : Keys) (sealer : SealerState) (stamp : Stamp) → sealer.me ≡ Client me → stamp.0 ≤ sealer.key.next → OfClient (OfTexts p) (client_start me counts keys sealer stamp) }
    ensures keeps_asked { (p : Party → List ℕ → Bool) (s : ClientState) (op : List ℕ) → s.me.0 < 2 ^ 32 → length op ≤ 1100 → OfClient (OfTexts p) s → ArePassed p (Client s.me) (map (spoken_of s.me) (ask s op).said) → OfClient (OfTexts p) (ask s op).state }
    ensures sends_asked { (p : Party → List ℕ → Bool) (s : ClientState) (op : List ℕ) → s.me.0 < 2 ^ 32 → length op ≤ 1100 → OfClient (OfTexts p) s → ArePassed p (Client s.me) (map (spoken_of s.me) (ask s op).said) → (to : List Party) → AreOfTexts p (outgoing_to to (ask s op).sent) }
    ensures keeps { (p : Party → List ℕ → Bool) (s : ClientState) (event : Event) → OfClient (OfTexts p) s → OfHeard (OfTexts p) event → OfClient (OfTexts p) (client_step s event).state }
    ensures sends { (p : Party → List ℕ → Bool) (s : ClientState) (event : Event) → OfClient (OfTexts p) s → OfHeard (OfTexts p) event → (to : List Party) → AreOfTexts p (outgoing_to to (client_step s event).sent) }
{}

/// A replica keeps what was said. Where a test holds of the signer and the text of all signed statements that it keeps, of each part of
/// what it hears, where all of them verify, and of what it says in a step, then it holds of those of all signed statements that it keeps
/// then. So it does of each hate that it counts, of the replica for which it is counted and of its own view; whatever else it hears,
/// and whether it can be spelled or not.
pub fn replicas_keep_what_was_said<M: Machine>()
    ensures start { (p : Party → List ℕ → Bool) (interval : ℕ) (me : ReplicaId) (counts : Counts) (keys : Keys) (sealer : SealerState) → sealer.me ≡ Replica me → OfState M.IsState (OfTextsAlone p) (start_of M.rules interval me counts keys sealer) }
    ensures keeps { (p : Party → List ℕ → Bool) (s : State M.State) (event : Event) → OfState M.IsState (OfTextsAlone p) s → DoVerifiedPass p s.keys event → ArePassed p s.sealer.me (said_from s.sealer.me 0 (whole_step M.rules s event).deeds.acts) → OfState M.IsState (OfTextsAlone p) (whole_step M.rules s event).state }
{}

/// So does a client, whatever it asks for.
pub fn clients_keep_what_was_said()
    ensures start { (p : Party → List ℕ → Bool) (me : ClientId) (counts : Counts) (keys : Keys) (sealer : SealerState) (stamp : Stamp) → sealer.me ≡ Client me → stamp.0 ≤ sealer.key.next → OfClient (OfTextsAlone p) (client_start me counts keys sealer stamp) }
    ensures keeps_asked { (p : Party → List ℕ → Bool) (s : ClientState) (op : List ℕ) → OfClient (OfTextsAlone p) s → ArePassed p (Client s.me) (map (spoken_of s.me) (ask s op).said) → OfClient (OfTextsAlone p) (ask s op).state }
    ensures keeps { (p : Party → List ℕ → Bool) (s : ClientState) (event : Event) → OfClient (OfTextsAlone p) s → DoVerifiedPass p s.keys event → OfClient (OfTextsAlone p) (client_step s event).state }
{}

/// What holds of each signed statement in a frame, of its signer and its text, holds of each part of it that is signed.
pub fn statements_are_parts()
    ensures plain { (p : Party → List ℕ → Bool) (frame : Frame) → OfFrame (OfTexts p) frame → AllByRecursion (λ part. p part.by part.text ≡ true) (plain.parts_of frame) }
    ensures view { (p : Party → List ℕ → Bool) (frame : ViewFrame) → OfViewFrame (OfTexts p) frame → AllByRecursion (λ part. p part.by part.text ≡ true) (view_parts.parts_of frame) }
{}
