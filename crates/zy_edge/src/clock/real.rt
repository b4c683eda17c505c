ghost use Rattle.std.specs.Prelude.{◌≡◌, ◌<◌, ◌≤◌, ◌^◌, None};

use super::Clock;
use std::time;

/// The system's monotonic clock. Where it errs or goes back, the last moment is told again. It tells no moments.
#[derive(Drop)]
pub struct RealClock<'a, R: time::Clock> {
    rt: &'a R,
    latest: u64,
    ghost in_range: { latest < 2 ^ 62 },
}

impl<'a, R: time::Clock> RealClock<'a, R> {
    pub fn new(rt: &'a R) -> RealClock<'a, R>
        ensures { ⟦<RealClock<'a, R> as Clock>⟧.latest result ≡ 0 }
    {
        RealClock { rt, latest: 0 }
    }
}

impl<R: time::Clock> Clock for RealClock<'_, R> {
    ghost latest = { λ c. c.latest };

    ghost moments = { λ _. None };

    fn now_ms(&mut self) -> u64 {
        if let Ok(since_start) = self.rt.monotonic() {
            self.latest = later(self.latest, since_start.as_millis());
        }
        self.latest
    }
}

// The moment, where it isn't before the last one and is in range.
fn later(latest: u64, now: u128) -> u64
    requires { latest < 2 ^ 62 }
    ensures later { latest ≤ result }
    ensures in_range { result < 2 ^ 62 }
{
    match u64::try_from(now) {
        Ok(now) => {
            if now >= latest && now < 1 << 62 {
                now
            } else {
                latest
            }
        }
        Err(_) => latest,
    }
}
