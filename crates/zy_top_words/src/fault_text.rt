ghost use Rattle.std.specs.Prelude.{◌≡◌, Some, option_map};
ghost use Rattle.zy_top_words.specs.Ends.{status_of};
ghost use Rattle.zy_top_words.specs.FaultText.{broken_text, fault_text, error_line};

use crate::{Broken, Exit};
use std::fmt;

/// The text of an exit on standard error, empty for `Done`.
#[derive(Clone, Copy)]
pub struct FaultText(pub(crate) Exit);

impl fmt::Display for FaultText {
    ghost output = { λ text. Some (fault_text text.0) };

    fn fmt<W: fmt::Write>(&self, f: &mut fmt::Formatter<W>) -> fmt::Result {
        match self.0 {
            Exit::Done => Ok(()),
            Exit::Usage(word) => write!(f, "word {word}"),
            Exit::ReadFault => write!(f, "read fault"),
            Exit::WriteFault => write!(f, "write fault"),
            Exit::Text { line, rule } => write!(f, "line {line} rule {rule}"),
            Exit::Group(field) => write!(f, "group field {field}"),
            Exit::Premise { event, what } => {
                write!(f, "premise {} at event {event}", broken_text(what))
            }
            Exit::LinkFault => write!(f, "link fault"),
            Exit::Want => write!(f, "out of memory"),
            Exit::TurnsSpent => write!(f, "turns spent"),
            Exit::TooLong => write!(f, "too long"),
            Exit::DiskFault => write!(f, "disk fault"),
            Exit::NotJournal => write!(f, "not a journal"),
            Exit::Damaged(gate) => write!(f, "damaged at {gate}"),
            Exit::JournalFull => write!(f, "journal full"),
        }
    }
}

fn broken_text(what: Broken) -> &'static str
    ensures { result.now ≡ broken_text what }
{
    match what {
        Broken::Forged => "forged",
        Broken::Clash => "clash",
    }
}

/// What a run that ended so leaves: the program's status, and its line on standard error, if it has one.
pub fn ending(exit: Exit) -> (u8, Option<FaultText>)
    ensures status { result.0 ≡ status_of exit }
    ensures line { option_map (λ text. fault_text text.0) result.1 ≡ error_line exit }
{
    let line = match exit {
        Exit::Done => None,
        _ => Some(FaultText(exit)),
    };
    (exit.status(), line)
}
