ghost use Rattle.std.specs.Prelude.{◌≡◌, []};
ghost use Rattle.zy_world_law.specs.Example.{small_notes, small_schedule};
ghost use Rattle.zy_world_law.specs.Runs.{run};
ghost use Rattle.zy_world_law.specs.Setup.{Setup};
ghost use Rattle.zy_world_law.specs.World.{start};

use zy_base::Machine;

/// What the laws speak of, in a small schedule of four replicas of which none lies: `raw 01 to r1`, `flow 1`, `deliver 9`. The
/// replica refuses what is no frame, and a frame that was never sent has no subject.
pub fn a_small_run<M: Machine>()
    ensures { (setup : Setup) → setup.counts.n ≡ 4 → setup.liars ≡ [] → (run M.rules small_schedule (start M.rules setup)).notes ≡ small_notes }
{}
