ghost use Rattle.std.specs.List.{range_with_len};
ghost use Rattle.std.specs.Prelude.{◌≡◌, ◌-◌, ℕ};
ghost use Rattle.zy_calm.specs.Asks.{calm_lines};
ghost use Rattle.zy_calm.specs.Jobs.{jobs};
ghost use Rattle.zy_table.specs.declared.client.Path.TheVariants.{Fast};
ghost use Rattle.zy_wide.specs.Calm as wide;

/// The schedules that zy_wide makes have the form of calm ones, on the fast path: the last replicas are muted, and then jobs are put in.
pub fn wide_schedules()
    ensures { (n silent asks : ℕ) → wide.calm_lines n silent asks ≡ calm_lines Fast (range_with_len (n - silent) silent) (jobs n asks) }
{}
