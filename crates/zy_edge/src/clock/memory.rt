ghost use Rattle.std.specs.Prelude.{◌≡◌, ◌≤◌, ◌<◌, ◌^◌, IsTrue, length};
ghost use Rattle.zy_edge.specs.Clock.{IsReading, are_moments, moment_at};
ghost use Rattle.zy_edge.specs.Faults.{raised};
ghost use Rattle.zy_edge.specs.Memory.{latest_of, moments_read};

use super::Clock;
use crate::faults::raised;
use std::alloc::Global;
use std::marker::Model;

/// A clock that tells given moments, and the last one again and again. From 2^64 - 1 readings on their number stays, and
/// what was read isn't told any more.
#[derive(Debug, Drop)]
pub struct MemClock {
    moments: Vec<u64>,
    readings: u64,
}

impl Model for MemClock {
    ghost use Rattle.std.specs.Prelude.{IsTrue};
    ghost use Rattle.zy_edge.specs.Clock.{are_moments};
    ghost use Rattle.zy_edge.specs.Memory.{MemoryClock};

    ghost Value = { MemoryClock };

    ghost view = { λ m. record { moments = m.moments.items; readings = m.readings } };

    ghost invariant = { λ m. IsTrue (are_moments m.moments.items) };
}

impl MemClock {
    /// At least one moment. They don't fall, and are below 2^62.
    pub fn new(_alloc: Global, moments: Vec<u64>) -> MemClock
        requires { IsTrue (are_moments moments.items) }
        ensures { result ≡ record { moments = moments.items; readings = 0 } }
    {
        MemClock {
            moments,
            readings: 0,
        }
    }
}

impl Clock for MemClock {
    ghost latest = { latest_of };

    ghost moments = { moments_read };

    #[tactic(auto, using(crate::proofs::ClockLemmas::some_moment, crate::proofs::ClockLemmas::moment_below, crate::proofs::ClockLemmas::not_before, crate::proofs::ClockLemmas::is_latest, crate::proofs::ClockLemmas::is_reading))]
    fn now_ms(&mut self) -> u64
        ensures moment { result ≡ moment_at self.old.moments self.old.readings }
        ensures readings { self.new.readings ≡ raised self.old.readings }
        ensures same { self.new.moments ≡ self.old.moments }
        ensures after { latest_of self.old ≤ result }
        ensures latest { result ≤ latest_of self.new }
        ensures in_range { result < 2 ^ 62 }
        ensures moments { IsReading result (moments_read self.old) (moments_read self.new) }
    {
        let moment = moment_of(&self.moments, self.readings);
        self.readings = raised(self.readings);
        moment
    }
}

// The moment of a reading, counted from 0.
fn moment_of(moments: &[u64], reading: u64) -> u64
    requires { 1 ≤ length moments.now }
    ensures { result ≡ moment_at moments.now reading }
{
    let last = moments.len() - 1;
    moments[last.min(reading as usize)]
}
