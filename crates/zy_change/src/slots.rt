ghost use Rattle.std.specs.Prelude.{◌≡◌, replicate, None, IfOk};

use std::alloc::Global;
use zy_base::Want;
use zy_parts::Signed;

// Nothing is kept of so many replicas.
pub(crate) fn no_slots<S: Drop>(
    alloc: Global,
    replicas: u64,
) -> Result<Vec<Option<Signed<S>>>, Want>
    ensures { IfOk result (λ v. v.items ≡ replicate replicas None) }
{
    let mut slots = Vec::with_capacity(alloc, replicas as usize)?;
    for _ in 0..replicas {
        slots.push(None)?;
    }
    Ok(slots)
}
