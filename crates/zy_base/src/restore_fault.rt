ghost use Rattle.std.specs.Prelude.{◌≡◌};
ghost use Rattle.zy_base.specs.declared.restore_fault.RestoreFault.TheVariants.{Want};

use std::alloc::{AllocError, AllocFailed};

/// Why bytes give no machine.
#[derive(Clone, Copy, Debug, PartialEq, Eq)]
pub enum RestoreFault {
    /// The bytes spell no state.
    NotState,
    Want,
}

impl From<crate::Want> for RestoreFault {
    ghost from_gives = { λ _ e. e ≡ Want };

    fn from(_: crate::Want) -> Self {
        RestoreFault::Want
    }
}

impl From<AllocError> for RestoreFault {
    ghost from_gives = { λ _ e. e ≡ Want };

    fn from(_: AllocError) -> Self {
        RestoreFault::Want
    }
}

impl<T: Drop> From<AllocFailed<T>> for RestoreFault {
    ghost from_gives = { λ _ e. e ≡ Want };

    fn from(_: AllocFailed<T>) -> Self {
        RestoreFault::Want
    }
}
