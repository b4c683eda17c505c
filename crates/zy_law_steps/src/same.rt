ghost use Rattle.std.specs.Prelude.{◌≡◌};
ghost use Rattle.zy_base.specs.declared.step.Event.{Event};
ghost use Rattle.zy_table.specs.State.{State};
ghost use Rattle.zy_table.specs.Whole.{whole_step};

use zy_base::Machine;

/// No step changes a replica's public keys, its number, the counts of its group, or how far its checkpoints lie apart.
pub fn same_keys<M: Machine>()
    ensures keys { (s : State M.State) (event : Event) → (whole_step M.rules s event).state.keys ≡ s.keys }
    ensures me { (s : State M.State) (event : Event) → (whole_step M.rules s event).state.me ≡ s.me }
    ensures counts { (s : State M.State) (event : Event) → (whole_step M.rules s event).state.counts ≡ s.counts }
    ensures interval { (s : State M.State) (event : Event) → (whole_step M.rules s event).state.kept.interval ≡ s.kept.interval }
{}
