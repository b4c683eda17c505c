ghost use Rattle.std.specs.Prelude.{◌≡◌, Some};
ghost use Rattle.zy_change.specs.Owing as owing;

use crate::kept::Chosen;
use zy_base::{Answer, Cause, ReplicaId, View};
use zy_parts::Told;

/// The history that a replica has to adopt: the view that begins with it, the choice, and the report that gives its
/// entries.
#[derive(Drop)]
pub struct Adoption {
    pub view: View,
    pub chosen: Chosen,
    pub told: Told,
}

/// What a step owes, in the order of the fields. With a refusal nothing is owed.
#[derive(Drop)]
pub struct Owed {
    pub answer: Answer,
    /// The view to leave for: the report is to be signed.
    pub leave: Option<View>,
    /// The view of which the primary gives the reports: they are to be signed.
    pub gather: Option<View>,
    /// The choice to confirm: the confirmation is to be signed.
    pub confirm: Option<Chosen>,
    /// What is certified, and is to be adopted.
    pub adopt: Option<Adoption>,
    /// Who gets the kept view certificate.
    pub send: Option<ReplicaId>,
    /// How many statements that are to be signed for it.
    pub signs: u64,
}

impl Owed {
    /// The step is taken, and nothing more is owed.
    pub fn nothing() -> Owed
        ensures { result ≡ owing.nothing }
    {
        Owed {
            answer: Answer::Taken,
            leave: None,
            gather: None,
            confirm: None,
            adopt: None,
            send: None,
            signs: 0,
        }
    }

    /// The replica leaves for a view: its report is to be signed.
    pub(crate) fn leaving(view: View) -> Owed
        ensures { result ≡ record owing.nothing { leave = Some view; signs = 1 } }
    {
        Owed {
            leave: Some(view),
            signs: 1,
            ..Owed::nothing()
        }
    }

    /// The step is refused for a cause.
    pub fn refused(cause: Cause) -> Owed
        ensures { result ≡ owing.refused cause }
    {
        Owed {
            answer: Answer::Refused(cause),
            ..Owed::nothing()
        }
    }
}
