ghost use Rattle.std.specs.Prelude.{◌≡◌};
ghost use Rattle.zy_top_words.specs.Calls.{exit_of_fault, exit_of_group_fault};
ghost use Rattle.zy_top_words.specs.Ends.{status_of};
ghost use Rattle.zy_top_words.specs.declared.exit.Exit.TheVariants as exits;

use std::alloc::{AllocError, AllocFailed};
use zy_group::GroupFault;
use zy_schedule::ScheduleFault;

/// Why an event of a run isn't honest: it shows a signature of a correct party that this party didn't make, or a digest of
/// two texts.
#[derive(Clone, Copy, Debug, PartialEq, Eq)]
pub enum Broken {
    Forged,
    Clash,
}

/// How a run ended.
#[derive(Clone, Copy, Debug, PartialEq, Eq)]
pub enum Exit {
    /// The input was read to its end, and the whole report was written.
    Done,
    /// The word with this number, counted from 1, isn't allowed, is missing or is too many; it is the first such.
    Usage(u64),
    /// A file could not be chosen or read.
    ReadFault,
    /// The sink failed. What it took is a front of the report.
    WriteFault,
    /// The first line that can't be read, counted from 1, and the rule of its first fault.
    Text { line: u64, rule: u8 },
    /// The first field of a group file that is missing, of another type or out of its range.
    Group(u8),
    /// The event with this number, counted from 1, is the first that isn't honest. What was written is of those before it.
    Premise { event: u64, what: Broken },
    /// A call of the link failed. Nothing was written.
    LinkFault,
    /// Want of memory.
    Want,
    /// All turns were taken.
    TurnsSpent,
    /// A file gave more than 16,777,216 bytes.
    TooLong,
    /// A call of the disk failed. Nothing was written.
    DiskFault,
    /// The file that is to hold the journal is another's journal, or none.
    NotJournal,
    /// The gate at this place of the journal is open, and no record stands behind it that spells an event.
    Damaged(u64),
    /// A record doesn't fit the journal any more. Nothing was written.
    JournalFull,
}

impl Exit {
    /// The status that the program ends with.
    pub fn status(self) -> u8
        ensures { result ≡ status_of self }
    {
        match self {
            Exit::Done => 0,
            Exit::Usage(_) => 2,
            Exit::ReadFault => 3,
            Exit::WriteFault => 4,
            Exit::Text { .. } => 5,
            Exit::Group(_) => 6,
            Exit::Premise { .. } => 7,
            Exit::LinkFault => 8,
            Exit::Want => 9,
            Exit::TurnsSpent => 10,
            Exit::TooLong => 11,
            Exit::DiskFault => 12,
            Exit::NotJournal => 13,
            Exit::Damaged(_) => 14,
            Exit::JournalFull => 15,
        }
    }
}

impl From<AllocError> for Exit {
    ghost from_gives = { λ _ e. e ≡ exits.Want };

    fn from(_: AllocError) -> Exit {
        Exit::Want
    }
}

impl<T: Drop> From<AllocFailed<T>> for Exit {
    ghost from_gives = { λ _ e. e ≡ exits.Want };

    fn from(_: AllocFailed<T>) -> Exit {
        Exit::Want
    }
}

impl From<zy_base::Want> for Exit {
    ghost from_gives = { λ _ e. e ≡ exits.Want };

    fn from(_: zy_base::Want) -> Exit {
        Exit::Want
    }
}

impl From<ScheduleFault> for Exit {
    ghost from_gives = { λ f e. e ≡ exit_of_fault f };

    fn from(fault: ScheduleFault) -> Exit {
        match fault {
            ScheduleFault::Text { line, rule } => Exit::Text { line, rule },
            ScheduleFault::Want => Exit::Want,
        }
    }
}

impl From<GroupFault> for Exit {
    ghost from_gives = { λ f e. e ≡ exit_of_group_fault f };

    fn from(fault: GroupFault) -> Exit {
        match fault {
            GroupFault::Field(field) => Exit::Group(field),
            GroupFault::Want => Exit::Want,
        }
    }
}
