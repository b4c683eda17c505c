ghost use Rattle.std.specs.Prelude.{◌≡◌, ◌-◌, ◌++◌, length, replicate, drop, position, is_some, None, OnOk, OnErr};

use std::alloc::AllocError;
use std::collections::VecDeque;

// Fills a queue up with empty slots to a length, or leaves it as it is.
pub(crate) fn fill_up_to<T: Drop>(
    queue: &mut VecDeque<Option<T>>,
    len: usize,
) -> Result<(), AllocError>
    ensures ok { OnOk result (queue.new.items ≡ queue.old.items ++ replicate (len - length queue.old.items) None) }
    ensures err { OnErr result (queue.new.items ≡ queue.old.items) }
{
    let missing = len.saturating_sub(queue.len());
    queue.reserve(missing)?;
    for _ in 0..missing {
        queue.push_back_reserved(None);
    }
    Ok(())
}

pub(crate) fn drop_front<T: Drop>(queue: &mut VecDeque<T>, count: u64)
    ensures { queue.new.items ≡ drop count queue.old.items }
{
    for _ in 0..count {
        queue.pop_front();
    }
}

// How many empty slots come before the first filled one, behind the slots that are skipped.
pub(crate) fn first_filled<T>(queue: &VecDeque<Option<T>>, skipped: usize) -> Option<usize>
    ensures { result ≡ position is_some (drop skipped queue.now.items) }
{
    queue.iter().skip(skipped).position(|slot| slot.is_some())
}
