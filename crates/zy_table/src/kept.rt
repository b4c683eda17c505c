use zy_parts::{Ask, Check, Confirm, Signed, Spec};

/// A request that waits at a backup for its order, and what was said of it to the primary.
#[derive(Clone, Debug, Drop)]
pub struct Pending {
    pub confirm: Signed<Confirm>,
    pub ask: Signed<Ask>,
}

/// What the own history says at a multiple of the checkpoint interval: the response to the entry there, and the
/// checkpoint.
#[derive(Clone, Copy, Debug)]
pub struct OwnCheckpoint {
    pub spec: Spec,
    pub check: Check,
}
