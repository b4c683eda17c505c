ghost use Rattle.std.specs.Prelude.{◌≤◌, ◌<◌, ◌^◌, ℕ, Option, List};
ghost use Rattle.zy_edge.specs.Clock.{IsReading};

pub(crate) mod memory;
pub(crate) mod real;

/// Tells moments in milliseconds, from a beginning of its own.
pub trait Clock {
    /// The last moment that was read, or a bound below the first one.
    ghost latest: { Self → ℕ };

    /// The moments that were read, where they are told.
    ghost moments: { Self → Option (List ℕ) };

    /// The moment now. It never falls, and is below 2^62.
    fn now_ms(&mut self) -> u64
        ensures after { latest self.old ≤ result }
        ensures latest { result ≤ latest self.new }
        ensures in_range { result < 2 ^ 62 }
        ensures moments { IsReading result (moments self.old) (moments self.new) };
}
