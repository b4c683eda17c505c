ghost use Rattle.std.specs.Prelude.{◌≡◌, ◌∷◌, ◌++◌, [], IfOk};
ghost use Rattle.std.specs.List.{AllByRecursion};
ghost use Rattle.zy_base.specs.declared.step.Answer.TheVariants as answers;
ghost use Rattle.zy_frames.specs.Frames.{IsFrameInRange};
ghost use Rattle.zy_parts.specs.Statements.{IsAskInRange};
ghost use Rattle.zy_table.specs.declared.deeds.AnyFrame.TheVariants.{Plain};
ghost use Rattle.zy_table.specs.ClientState.{refused, taken};

use crate::Client;
use std::marker::Model;
use zy_base::{Answer, Cause, Want};
use zy_frames::Frame;
use zy_parts::Ask;
use zy_table::{AnyFrame, Sent, To};

// What an event made of a client, with the frames and the requests as they are.
#[derive(Drop)]
pub(crate) struct Moved {
    pub(crate) answer: Answer,
    pub(crate) client: Client,
    pub(crate) sent: Vec<Sent>,
    pub(crate) said: Vec<Ask>,
}

impl Model for Moved {
    ghost use Rattle.zy_table.specs.ClientState.{ClientOutcome};

    ghost Value = { ClientOutcome };

    ghost view = { λ m. record { answer = m.answer; state = m.client; sent = m.sent.items; said = m.said.items } };

    ghost use Rattle.zy_client.specs.Ready.{AreInRange};

    ghost invariant = { λ m. AreInRange m.sent.items m.said.items };
}

impl Client {
    pub(crate) fn refused(self, cause: Cause) -> Moved
        ensures { result ≡ refused cause self }
    {
        self.answered(Answer::Refused(cause))
    }

    pub(crate) fn taken(self) -> Moved
        ensures { result ≡ taken self }
    {
        self.answered(Answer::Taken)
    }

    // With one frame sent.
    pub(crate) fn sends(self, to: To, frame: Frame, said: Vec<Ask>) -> Result<Moved, Want>
        requires frame { IsFrameInRange frame }
        requires said { AllByRecursion IsAskInRange said.items }
        ensures { IfOk result (λ m. m ≡ record { answer = answers.Taken; state = self; sent = record { to = to; frame = Plain frame } ∷ []; said = said.items }) }
    {
        let sent = vec![in self.alloc;
            Sent {
                to,
                frame: AnyFrame::Plain(frame)
            },
        ]?;
        Ok(Moved {
            answer: Answer::Taken,
            client: self,
            sent,
            said,
        })
    }

    // With nothing sent and nothing said.
    fn answered(self, answer: Answer) -> Moved
        ensures { result ≡ record { answer = answer; state = self; sent = []; said = [] } }
    {
        let alloc = self.alloc;
        Moved {
            answer,
            client: self,
            sent: Vec::new(alloc),
            said: Vec::new(alloc),
        }
    }
}
