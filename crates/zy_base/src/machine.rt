ghost use Rattle.std.specs.Prelude.{◌≡◌, ◌+◌, ◌<◌, ◌≤◌, ℕ, List, [], ◌∷◌, ◌++◌, length, drop, Err, Some, None, IfOk, OnErr};
ghost use Rattle.zy_base.specs.declared.ids.ClientId.{ClientId};
ghost use Rattle.zy_base.specs.declared.restore_fault.RestoreFault.TheVariants.{NotState};
ghost use Rattle.std.proofs.Common.{sym, ap, ◌∙◌};
ghost use Rattle.std.proofs.lemmas.Option.{same_Some};
ghost use Rattle.zy_base.specs.Machine.{Rules};

use crate::{Bytes, ClientId, RestoreFault, Steps, Want};
use std::alloc::Global;
use std::sync::ledger::Ledger;

/// A replicated state machine that can go back. A value means its state and its trail, the earlier states that
/// `undo` leads back to, oldest first.
pub trait Machine: Drop {
    /// What a state is.
    type State;

    ghost rules: { Rules Self.State };

    // which values are states
    ghost IsState: { Self.State → Type 0 };

    ghost state: { Self → Self.State };

    ghost trail: { Self → List Self.State };

    /// The initial state, with an empty trail.
    fn empty(alloc: Global) -> Result<Self, Want>
        ensures state { IfOk result (λ machine. state machine ≡ rules.initial) }
        ensures trail { IfOk result (λ machine. trail machine ≡ []) };

    /// Runs an operation of a client. The answer is the reply's bytes, at most 1,100, and the earlier state goes on
    /// the trail.
    fn apply(&mut self, client: ClientId, op: &[u8]) -> Result<Bytes, Want>
        ensures reply { IfOk result (λ reply. reply ≡ rules.reply (state self.old) client op.now) }
        ensures short { IfOk result (λ reply. length reply ≤ 1100) }
        ensures state { IfOk result (λ _. state self.new ≡ rules.next (state self.old) client op.now) }
        ensures trail { IfOk result (λ _. trail self.new ≡ trail self.old ++ state self.old ∷ []) }
        ensures err { OnErr result (self.new ≡ self.old) };

    /// Goes back to the last state of the trail. Takes no memory, and adds at most one step.
    fn undo<L: Ledger>(&mut self, steps: &mut Steps<L>)
        requires { 0 < length (trail self.old) }
        ensures back { trail self.old ≡ trail self.new ++ state self.new ∷ [] }
        ensures cost { steps.new ≤ steps.old + 1 };

    /// Gives up the way back to the oldest state of the trail. Takes no memory.
    fn forget(&mut self)
        requires { 0 < length (trail self.old) }
        ensures state { state self.new ≡ state self.old }
        ensures trail { trail self.new ≡ drop 1 (trail self.old) };

    /// How many times `undo` can go back.
    fn trail_len(&self) -> u64
        ensures { result ≡ length (trail self.now) };

    /// The state's one spelling, at most 2,300,000 bytes.
    fn state_bytes(&self) -> Result<Bytes, Want>
        ensures bytes { IfOk result (λ bytes. bytes ≡ rules.spelled (state self.now)) }
        ensures short { IfOk result (λ bytes. length bytes ≤ 2300000) }
        ensures is_state { IsState (state self.now) };

    /// A machine in the state that the bytes spell, with an empty trail. `NotState` comes exactly where they spell
    /// no state.
    fn restore(alloc: Global, bytes: &[u8]) -> Result<Self, RestoreFault>
        ensures state { IfOk result (λ machine. rules.read bytes.now ≡ Some (state machine)) }
        ensures trail { IfOk result (λ machine. trail machine ≡ []) }
        ensures not_state { result ≡ Err NotState → rules.read bytes.now ≡ None };

    // it starts in a state
    ghost starts: { IsState rules.initial };

    // and every operation leads to a state
    ghost stays: { (s : Self.State) (client : ClientId) (op : List ℕ) → IsState s → IsState (rules.next s client op) };

    // in a state every reply is short
    ghost short_reply: { (s : Self.State) (client : ClientId) (op : List ℕ) → IsState s → length (rules.reply s client op) ≤ 1100 };

    // and so is the spelling
    ghost short_spelling: { (s : Self.State) → IsState s → length (rules.spelled s) ≤ 2300000 };

    // a state that is spelled is read back
    ghost reads: { (s : Self.State) → IsState s → rules.read (rules.spelled s) ≡ Some s };

    // what is read is a state
    ghost reads_state: { (bytes : List ℕ) (s : Self.State) → rules.read bytes ≡ Some s → IsState s };

    // that is spelled so
    ghost reads_spelled: { (bytes : List ℕ) (s : Self.State) → rules.read bytes ≡ Some s → rules.spelled s ≡ bytes };

    // two states with one spelling are one state
    ghost one_spelling: { (s t : Self.State) → IsState s → IsState t → rules.spelled s ≡ rules.spelled t → s ≡ t } = { λ s t s_is t_is same. same_Some s t (sym (reads s s_is) ∙ ap rules.read same ∙ reads t t_is) };
}
