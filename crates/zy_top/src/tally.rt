// A run in numbers.
ghost use Rattle.std.specs.Prelude.{◌≡◌, [], ◌∷◌, ◌+◌, ◌^◌, ◌<◌, ◌≤◌, count_by};
ghost use Rattle.zy_top.specs.Telling as telling;

use zy_table::Path;
use zy_world_law::Note;

/// How many events there were, how many of them completed a request, on a fast or on a slow path, and how many were refused.
#[derive(Clone, Copy)]
pub(crate) struct Tally {
    pub(crate) events: u64,
    pub(crate) fast: u64,
    pub(crate) slow: u64,
    pub(crate) refused: u64,
    ghost counted: { fast + slow + refused ≤ events },
}

impl Tally {
    /// No event.
    pub(crate) fn new() -> Tally
        ensures events { result.events ≡ 0 }
        ensures fast { result.fast ≡ 0 }
        ensures slow { result.slow ≡ 0 }
        ensures refused { result.refused ≡ 0 }
    {
        Tally {
            events: 0,
            fast: 0,
            slow: 0,
            refused: 0,
        }
    }

    /// One event more.
    pub(crate) fn with(self, note: &Note) -> Tally
        requires { self.events + 1 < 2 ^ 64 }
        ensures events { result.events ≡ self.events + 1 }
        ensures fast { result.fast ≡ self.fast + count_by telling.is_done_fast (note.now ∷ []) }
        ensures slow { result.slow ≡ self.slow + count_by telling.is_done_slow (note.now ∷ []) }
        ensures refused { result.refused ≡ self.refused + count_by telling.is_refused (note.now ∷ []) }
    {
        let events = self.events + 1;
        let Tally {
            fast,
            slow,
            refused,
            ..
        } = self;
        match note {
            Note::Quiet => Tally {
                events,
                fast,
                slow,
                refused,
            },
            Note::Done(_, done) => match done.path {
                Path::Fast => Tally {
                    events,
                    fast: fast + 1,
                    slow,
                    refused,
                },
                Path::Slow => Tally {
                    events,
                    fast,
                    slow: slow + 1,
                    refused,
                },
            },
            Note::Refused(..) => Tally {
                events,
                fast,
                slow,
                refused: refused + 1,
            },
        }
    }

    /// How many events completed a request.
    pub(crate) fn done(self) -> u64
        ensures { result ≡ self.fast + self.slow }
    {
        self.fast + self.slow
    }
}
