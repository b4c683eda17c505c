ghost use Rattle.std.specs.Prelude.{◌≡◌, IfOk};
ghost use Rattle.zy_node.specs.Rules.{Rules, is_refused};

use zy_base::{Answer, Event, Outgoing, Timers, Want};

/// What a step made of its event, as far as a node needs it: the core after it, the frames to send, and whether the event
/// was refused.
#[derive(Drop)]
pub struct Moved<C> {
    pub core: C,
    pub out: Outgoing,
    pub refused: bool,
}

/// A replica or a client, as its node sees it.
pub trait Core: Drop {
    // what a step makes of it, and when it is done
    ghost rules: { Rules Self };

    /// What an event makes of it.
    fn handle(self, event: Event) -> Result<Moved<Self>, Want>
        ensures core { IfOk result (λ m. m.core ≡ (rules.step event self).state) }
        ensures out { IfOk result (λ m. m.out ≡ (rules.step event self).sent) }
        ensures refused { IfOk result (λ m. m.refused ≡ (rules.step event self).refused) };

    /// The timers that are to run now.
    fn running_timers(&self) -> Timers
        ensures { result ≡ rules.timers self.now };

    /// Whether it waits for nothing more, so that no further turn is needed.
    fn is_done(&self) -> bool
        ensures { result ≡ rules.is_done self.now };
}

/// Whether a step refused its event.
pub(crate) fn is_refused(answer: Answer) -> bool
    ensures { result ≡ is_refused answer }
{
    match answer {
        Answer::Taken => false,
        Answer::Held => false,
        Answer::Refused(_) => true,
    }
}
