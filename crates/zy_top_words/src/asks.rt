// How many asks a schedule is made of.
ghost use Rattle.std.specs.Prelude.{◌≤◌};

/// From 1 to 300.
#[derive(Clone, Copy)]
pub struct Asks {
    pub count: u32,
    ghost few: { count ≤ 300 },
}
