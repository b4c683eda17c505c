ghost use Rattle.std.specs.Prelude.{◌≡◌};
ghost use Rattle.zy_cert.specs.Misbehaviour.{misbehaved};

use zy_base::{Cause, View};
use zy_parts::{Order, Signed};

/// The view whose primary two orders prove to misbehave: one signer gives one place of one view to different histories
/// or requests. `NoConflict` exactly where the views, the places or the signers differ, or the orders are equal. Takes
/// no memory.
pub fn pom(first: &Signed<Order>, second: &Signed<Order>) -> Result<View, Cause>
    ensures { result ≡ misbehaved first.now second.now }
{
    let (one, other) = (&first.stmt, &second.stmt);
    let is_conflict = one.view == other.view
        && one.place == other.place
        && first.by == second.by
        && one != other;
    if is_conflict {
        Ok(one.view)
    } else {
        Err(Cause::NoConflict)
    }
}
