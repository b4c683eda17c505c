ghost use Rattle.std.specs.Prelude.{◌≡◌};
ghost use Rattle.zy_exec.specs.declared.install_fault.InstallFault.TheVariants as faults;
ghost use Rattle.zy_exec.specs.Reading.{fault_of_get, fault_of_restore};

use zy_base::{FrameFault, RestoreFault};
use zy_wire::GetFault;

/// Why no snapshot was installed.
#[derive(Clone, Copy, Debug, PartialEq, Eq)]
pub enum InstallFault {
    /// The bytes are no snapshot.
    NotState,
    Want,
}

impl From<FrameFault> for InstallFault {
    ghost from_gives = { λ _ e. e ≡ faults.NotState };

    fn from(_: FrameFault) -> InstallFault {
        InstallFault::NotState
    }
}

impl From<GetFault> for InstallFault {
    ghost from_gives = { λ fault e. e ≡ fault_of_get fault };

    fn from(fault: GetFault) -> InstallFault {
        match fault {
            GetFault::Frame(_) => InstallFault::NotState,
            GetFault::Want => InstallFault::Want,
        }
    }
}

impl From<RestoreFault> for InstallFault {
    ghost from_gives = { λ fault e. e ≡ fault_of_restore fault };

    fn from(fault: RestoreFault) -> InstallFault {
        match fault {
            RestoreFault::NotState => InstallFault::NotState,
            RestoreFault::Want => InstallFault::Want,
        }
    }
}

impl From<zy_base::Want> for InstallFault {
    ghost from_gives = { λ _ e. e ≡ faults.Want };

    fn from(_: zy_base::Want) -> InstallFault {
        InstallFault::Want
    }
}
