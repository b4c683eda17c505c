// A core that is a double: what a host does with its events can be seen in what it sends.

ghost use Rattle.std.specs.Prelude.{◌≡◌, [], ◌∷◌, IfOk};
ghost use Rattle.zy_base.specs.declared.ids.Party.TheVariants as parties;

use std::alloc::Global;
use zy_base::{Bytes, ClientId, Event, Items, Outgoing, Party, TimerKind, Timers, Want};
use zy_edge::{MemClock, MemLink};
use zy_node::{Core, Host, Moved};
use zy_pieces::MAX_DATAGRAM;

/// The one that it sends to.
pub(crate) const PEER: Party = Party::Client(ClientId(7));

/// A core that sends what it hears, and a byte for each timer that runs out: 1 for Request, which starts Change; 2 for
/// Change, which stops Request; 3 for Answer. It is done while no timer is to run.
#[derive(Drop)]
pub(crate) struct Probe {
    alloc: Global,
    request: bool,
    change: bool,
    answer: bool,
}

impl Probe {
    /// A core whose only timer that runs is Answer.
    pub(crate) fn answering(alloc: Global) -> Probe {
        Probe {
            alloc,
            request: false,
            change: false,
            answer: true,
        }
    }

    /// One whose only timer that runs is Request.
    pub(crate) fn requesting(alloc: Global) -> Probe {
        Probe {
            alloc,
            request: true,
            change: false,
            answer: false,
        }
    }

    /// One whose timers Request and Change run.
    pub(crate) fn changing(alloc: Global) -> Probe {
        Probe {
            alloc,
            request: true,
            change: true,
            answer: false,
        }
    }

    /// One that is done.
    pub(crate) fn idle(alloc: Global) -> Probe {
        Probe {
            alloc,
            request: false,
            change: false,
            answer: false,
        }
    }

    /// Whether Change runs.
    pub(crate) fn is_changing(&self) -> bool {
        self.change
    }
}

/// One turn of its host, whose link is not to fail.
pub(crate) fn turned(
    host: Host<Probe>,
    link: &mut MemLink,
    clock: &mut MemClock,
) -> Result<Host<Probe>, Want> {
    let mut room = [0; MAX_DATAGRAM];
    match host.turn(&mut room, link, clock) {
        Ok(host) => Ok(host),
        Err(_) => Err(Want),
    }
}

fn to_peer(alloc: Global, frame: Bytes) -> Result<Outgoing, Want>
    ensures { IfOk result (λ out. out ≡ (parties.Client (record { 0 = 7 }), frame) ∷ []) }
{
    let mut out = Items::new(alloc);
    out.push((Party::Client(ClientId(7)), frame))?;
    Ok(out)
}

fn told(alloc: Global, number: u8) -> Result<Outgoing, Want>
    ensures { IfOk result (λ out. out ≡ (parties.Client (record { 0 = 7 }), number ∷ []) ∷ []) }
{
    to_peer(alloc, Bytes::from_slice(alloc, &[number])?)
}

impl Core for Probe {
    ghost use Rattle.std.specs.Prelude.{[], ◌∷◌, true, false, not, ◌||◌};
    ghost use Rattle.zy_base.specs.declared.ids.Party.TheVariants.{Client};
    ghost use Rattle.zy_base.specs.declared.step.Event.TheVariants.{Heard, Timer};
    ghost use Rattle.zy_base.specs.declared.step.TimerKind.TheVariants.{Request, Change, Answer};
    ghost use Rattle.zy_trials.specs.declared.probe.Probe.{Probe};
    ghost use Rattle.zy_node.specs.Rules.{Deed};

    ghost rules = { record {
      step = λ event s. elim event as (λ _. Deed Probe) [
        | Heard bytes ↦ record { state = s; sent = (Client (record { 0 = 7 }), bytes) ∷ []; refused = false }
        | Timer kind ↦ elim kind as (λ _. Deed Probe) [
          | Request ↦ record { state = record s { change = true }; sent = (Client (record { 0 = 7 }), 1 ∷ []) ∷ []; refused = false }
          | Change ↦ record { state = record s { request = false }; sent = (Client (record { 0 = 7 }), 2 ∷ []) ∷ []; refused = false }
          | Answer ↦ record { state = s; sent = (Client (record { 0 = 7 }), 3 ∷ []) ∷ []; refused = false }
        ]
      ];
      timers = λ s. record { request = s.request; change = s.change; answer = s.answer };
      is_done = λ s. not (s.request || (s.change || s.answer));
    } };

    fn handle(self, event: Event) -> Result<Moved<Probe>, Want> {
        let Probe {
            alloc,
            request,
            change,
            answer,
        } = self;
        let (out, request, change) = match event {
            Event::Heard(frame) => (to_peer(alloc, frame)?, request, change),
            Event::Timer(TimerKind::Request) => (told(alloc, 1)?, request, true),
            Event::Timer(TimerKind::Change) => (told(alloc, 2)?, false, change),
            Event::Timer(TimerKind::Answer) => (told(alloc, 3)?, request, change),
        };
        let core = Probe {
            alloc,
            request,
            change,
            answer,
        };
        Ok(Moved {
            core,
            out,
            refused: false,
        })
    }

    fn running_timers(&self) -> Timers {
        Timers {
            request: self.request,
            change: self.change,
            answer: self.answer,
        }
    }

    fn is_done(&self) -> bool {
        !(self.request || self.change || self.answer)
    }
}
