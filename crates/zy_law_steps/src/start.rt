ghost use Rattle.std.specs.Prelude.{◌≡◌, ℕ, ◌^◌, ◌<◌, ◌≤◌};
ghost use Rattle.zy_base.specs.declared.counts.Counts.{Counts};
ghost use Rattle.zy_base.specs.declared.ids.Party.TheVariants.{Replica};
ghost use Rattle.zy_base.specs.declared.ids.ReplicaId.{ReplicaId};
ghost use Rattle.zy_seal.specs.Keys.{Keys};
ghost use Rattle.zy_seal.specs.Sealing.{SealerState};
ghost use Rattle.zy_table.specs.State.{start_of};
ghost use Rattle.zy_law_steps.specs.Spelled.{IsSpelled};

use zy_base::Machine;

/// All that a replica keeps as it begins can be spelled, where it signs as itself, with a number that a text holds, and its checkpoints
/// lie at most 32 places apart.
pub fn spelled_start<M: Machine>()
    ensures { (interval : ℕ) (me : ReplicaId) (counts : Counts) (keys : Keys) (sealer : SealerState) → interval ≤ 32 → me.0 < 2 ^ 8 → sealer.me ≡ Replica me → IsSpelled (start_of M.rules interval me counts keys sealer) }
{}
