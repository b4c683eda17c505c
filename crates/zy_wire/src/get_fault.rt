ghost use Rattle.std.specs.Prelude.{◌≡◌};
ghost use Rattle.zy_wire.specs.declared.get_fault.GetFault.TheVariants as faults;

use std::alloc::{AllocError, AllocFailed};
use zy_base::{FrameFault, Want};

/// Why no value was read.
#[derive(Clone, Copy, Debug, PartialEq, Eq)]
pub enum GetFault {
    /// The bytes spell none.
    Frame(FrameFault),
    /// Want of memory.
    Want,
}

impl From<FrameFault> for GetFault {
    ghost from_gives = { λ fault e. e ≡ faults.Frame fault };

    fn from(fault: FrameFault) -> GetFault {
        GetFault::Frame(fault)
    }
}

impl From<Want> for GetFault {
    ghost from_gives = { λ _ e. e ≡ faults.Want };

    fn from(_: Want) -> GetFault {
        GetFault::Want
    }
}

impl From<AllocError> for GetFault {
    ghost from_gives = { λ _ e. e ≡ faults.Want };

    fn from(_: AllocError) -> GetFault {
        GetFault::Want
    }
}

impl<T: Drop> From<AllocFailed<T>> for GetFault {
    ghost from_gives = { λ _ e. e ≡ faults.Want };

    fn from(_: AllocFailed<T>) -> GetFault {
        GetFault::Want
    }
}
