ghost use Rattle.std.specs.Prelude.{◌≡◌};
ghost use Rattle.zy_wire.specs.declared.encode_fault.EncodeFault.TheVariants as faults;

use zy_base::Want;

/// Why a value was not encoded.
#[derive(Clone, Copy, Debug, PartialEq, Eq)]
pub enum EncodeFault {
    /// It has more than 8,388,608 bytes.
    TooLong,
    /// Want of memory.
    Want,
}

impl From<Want> for EncodeFault {
    ghost from_gives = { λ _ e. e ≡ faults.Want };

    fn from(_: Want) -> EncodeFault {
        EncodeFault::Want
    }
}
