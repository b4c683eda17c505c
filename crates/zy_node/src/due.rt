ghost use Rattle.std.specs.Prelude.{◌≡◌, ◌<◌, ◌≤◌, ◌+◌, ◌^◌};

use zy_base::{TimerKind, Timers};

/// When each timer runs out, in milliseconds of the clock; `None` where it isn't to run, or begins to run with the next
/// reading.
#[derive(Clone, Copy, Debug, PartialEq, Eq)]
pub struct Due {
    pub request: Option<u64>,
    pub change: Option<u64>,
    pub answer: Option<u64>,
}

impl Due {
    ghost use Rattle.zy_node.specs.Timing.{moment_of, no_moments, kept_for, begun_at, again_at};

    pub(crate) fn none() -> Due
        ensures { result ≡ no_moments }
    {
        Due {
            request: None,
            change: None,
            answer: None,
        }
    }

    pub(crate) fn moment(&self, kind: TimerKind) -> Option<u64>
        ensures { result ≡ moment_of kind self.now }
    {
        match kind {
            TimerKind::Request => self.request,
            TimerKind::Change => self.change,
            TimerKind::Answer => self.answer,
        }
    }

    /// A timer that is no longer to run has no moment.
    pub(crate) fn kept_for(self, timers: Timers) -> Due
        ensures { result ≡ kept_for timers self }
    {
        Due {
            request: kept(timers.request, self.request),
            change: kept(timers.change, self.change),
            answer: kept(timers.answer, self.answer),
        }
    }

    /// A timer that has begun to run since the last reading of the clock runs out after its period.
    pub(crate) fn begun_at(self, now: u64, timers: Timers) -> Due
        requires { now < 2 ^ 62 }
        ensures { result ≡ begun_at now timers self }
    {
        Due {
            request: begun(
                now + period(TimerKind::Request),
                timers.request,
                self.request,
            ),
            change: begun(now + period(TimerKind::Change), timers.change, self.change),
            answer: begun(now + period(TimerKind::Answer), timers.answer, self.answer),
        }
    }

    /// A timer that fires runs out again after its period.
    pub(crate) fn again_at(self, now: u64, kind: TimerKind) -> Due
        requires { now < 2 ^ 62 }
        ensures { result ≡ again_at now kind self }
    {
        let moment = Some(now + period(kind));
        let Due {
            request,
            change,
            answer,
        } = self;
        match kind {
            TimerKind::Request => Due {
                request: moment,
                change,
                answer,
            },
            TimerKind::Change => Due {
                request,
                change: moment,
                answer,
            },
            TimerKind::Answer => Due {
                request,
                change,
                answer: moment,
            },
        }
    }
}

ghost use Rattle.zy_node.specs.Timing.{period_of, kept, begun, is_reached};

// In milliseconds.
fn period(kind: TimerKind) -> u64
    ensures value { result ≡ period_of kind }
    ensures short { result ≤ 2000 }
{
    match kind {
        TimerKind::Request => 500,
        TimerKind::Change => 2000,
        TimerKind::Answer => 400,
    }
}

fn kept(runs: bool, moment: Option<u64>) -> Option<u64>
    ensures { result ≡ kept runs moment }
{
    if runs { moment } else { None }
}

fn begun(next: u64, runs: bool, moment: Option<u64>) -> Option<u64>
    ensures { result ≡ begun next runs moment }
{
    match moment {
        Some(earlier) => Some(earlier),
        None => if runs { Some(next) } else { None },
    }
}

pub(crate) fn is_reached(now: u64, moment: Option<u64>) -> bool
    ensures { result ≡ is_reached now moment }
{
    match moment {
        Some(moment) => moment <= now,
        None => false,
    }
}
