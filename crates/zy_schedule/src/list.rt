// Lists of parts.
ghost use Rattle.std.specs.Prelude.{◌≡◌, ◌<◌, ℕ, List, Result, option_copied};
ghost use Rattle.zy_schedule.specs.Reading as reading;
ghost use Rattle.zy_tuple.specs.Reading.{Gives};

use crate::parts::{Part, keyword, value};
use std::alloc::Global;
use zy_base::Items;
use zy_tuple::LineFault;

/// What ends a list.
#[derive(Clone, Copy)]
pub(crate) enum ListEnd {
    /// The word `to`.
    To,
    /// The word `reply`.
    Reply,
    /// The end of the line.
    Line,
}

/// What is left behind the end of a list, where it ends here.
fn ended(line: &[u8], end: ListEnd) -> Option<&[u8]>
    ensures { option_copied result ≡ reading.ended_at end line.now }
{
    match end {
        ListEnd::To => keyword(line, b"to").ok(),
        ListEnd::Reply => keyword(line, b"reply").ok(),
        ListEnd::Line if line.is_empty() => Some(line),
        ListEnd::Line => None,
    }
}

/// One part or more, up to the end of the list, and what is left.
#[tactic(auto, unfolding(crate::specs::Reading::list_at))]
pub(crate) fn list<'a, T: Part + Drop>(
    alloc: Global,
    line: &'a [u8],
    end: ListEnd,
    limit: usize,
) -> Result<(Items<T>, &'a [u8]), LineFault>
    requires { 0 < limit }
    ensures { Gives (λ x. (x.0, x.1.now)) result (reading.list_at T.part_read end limit line.now) }
{
    let (first, mut rest) = value::<T>(line)?;
    let mut items = Vec::new(alloc);
    items.push(first)?;
    'items: loop {
        if let Some(left) = ended(rest, end) {
            return Ok((Items::from(items), left));
        }
        let (item, left) = value::<T>(rest)?;
        if items.len() == limit {
            return Err(LineFault::Rule(3));
        }
        items.push(item)?;
        rest = left;
    }
}
