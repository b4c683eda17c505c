use std::alloc::AllocError;
use zy_base::{Digest, Party, Want};
use zy_world_setup::TextFault;

/// Why a world can't go on. It is gone then.
#[derive(Clone, Copy, Debug, PartialEq, Eq)]
pub enum WorldFault {
    /// The frame shows a signature that verifies under this correct party's key, on a text that it didn't say.
    Forged(Party),
    /// Two texts have this SHA-256 value.
    Clash(Digest),
    Want,
}

impl From<Want> for WorldFault {
    ghost use Rattle.std.specs.Prelude.{◌≡◌};
    ghost use Rattle.zy_world.specs.declared.fault.WorldFault.TheVariants as faults;

    ghost from_gives = { λ _ fault. fault ≡ faults.Want };

    fn from(_: Want) -> WorldFault {
        WorldFault::Want
    }
}

impl From<AllocError> for WorldFault {
    ghost use Rattle.std.specs.Prelude.{◌≡◌};
    ghost use Rattle.zy_world.specs.declared.fault.WorldFault.TheVariants as faults;

    ghost from_gives = { λ _ fault. fault ≡ faults.Want };

    fn from(_: AllocError) -> WorldFault {
        WorldFault::Want
    }
}

impl From<TextFault> for WorldFault {
    ghost use Rattle.std.specs.Prelude.{◌≡◌};
    ghost use Rattle.zy_world.specs.Answered.{world_fault};

    ghost from_gives = { λ fault world. world ≡ world_fault fault };

    fn from(fault: TextFault) -> WorldFault {
        match fault {
            TextFault::Clash(digest) => WorldFault::Clash(digest),
            TextFault::Want => WorldFault::Want,
        }
    }
}
