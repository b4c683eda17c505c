ghost use Rattle.std.specs.Prelude.{◌≡◌};
ghost use Rattle.zy_edge.specs.Faults.{raised};

/// A count after one more, which stays at its last value.
pub fn raised(count: u64) -> u64
    ensures { result ≡ raised count }
{
    count.saturating_add(1)
}
