//! What a replica owns, in two halves: by these it is let go as two values and not as twelve, each of which would be written out at each way out.

use zy_admit::Admission;
use zy_base::{Items, Machine};
use zy_change::ViewMachine;
use zy_check::Checkpoints;
use zy_exec::Exec;
use zy_parts::{Fetch, Hate, Hole, Local, Signed, Spec};
use zy_seal::{Directory, Sealer};
use zy_table::Pending;

/// What it signs and believes by, and what it says of views.
#[derive(Drop)]
pub(super) struct Voice {
    pub(super) directory: Directory,
    pub(super) sealer: Sealer,
    pub(super) views: ViewMachine,
    pub(super) hole: Option<Signed<Hole>>,
    pub(super) hate: Option<Signed<Hate>>,
    pub(super) fetches: Items<Signed<Fetch>>,
}

/// Its history, and what it keeps for the places above.
#[derive(Drop)]
pub(super) struct Work<M: Machine> {
    pub(super) exec: Exec<M>,
    pub(super) orders: Admission,
    pub(super) board: Checkpoints,
    pub(super) specs: Items<Signed<Spec>>,
    pub(super) pending: Vec<Option<Pending>>,
    pub(super) locals: Items<Signed<Local>>,
}
