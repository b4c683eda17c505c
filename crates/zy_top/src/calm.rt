// Calm replays.
ghost use Rattle.std.specs.Prelude.{ℕ, List};
ghost use Rattle.zy_top.specs.Calm.{IsServedReplay};

use zy_calm::calm_runs;
use zy_space::Space;

/// Every request of a calm replay is served, unless two texts share a digest.
pub(crate) fn calm_replays_are_served()
    ensures { (group schedule : List ℕ) → IsServedReplay group schedule }
{
    calm_runs::<Space>();
}
