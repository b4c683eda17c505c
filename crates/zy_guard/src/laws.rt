ghost use Rattle.std.specs.Prelude.{◌≡◌, ◌↔◌, ℕ, List};
ghost use Rattle.zy_base.specs.declared.ids.ClientId.{ClientId};
ghost use Rattle.zy_guard.specs.declared.values.Denial.{Denial};
ghost use Rattle.zy_guard.specs.declared.values.GuardOp.{GuardOp};
ghost use Rattle.zy_guard.specs.declared.values.GuardReply.TheVariants.{Denied};
ghost use Rattle.zy_guard.specs.declared.values.Owned.{Owned};
ghost use Rattle.zy_guard.specs.GuardedSpace.{IsGuardState, visible, guard_step};
ghost use Rattle.zy_guard.specs.Isolation.{ChangesByOne, IsFirstFailing};
ghost use Rattle.zy_guard.specs.Service.{guard_rules};

/// What a client learns of a guarded space.
pub fn isolation()
    // The reply to a client is the same in two states in which it sees the same.
    ensures own { (state other : List Owned) (client : ClientId) (op : List ℕ) → IsGuardState state → IsGuardState other → visible client.0 state ≡ visible client.0 other → guard_rules.reply state client op ≡ guard_rules.reply other client op }
    // What another one does leaves what a client sees, but for one tuple that the client may read: the other one put
    // it at the end, or took it out as one of its takers.
    ensures others { (state : List Owned) (client other : ClientId) (op : List ℕ) → ChangesByOne client.0 other.0 state (guard_rules.next state other op) }
    // A denial is the first rule that fails.
    ensures denied { (state : List Owned) (client : ClientId) (op : GuardOp) (denial : Denial) → ((guard_step client.0 op state).reply ≡ Denied denial) ↔ IsFirstFailing denial client.0 op state }
{}
