use zy_base::{Digest, Want};

/// Why a text isn't kept.
#[derive(Clone, Copy, Debug, PartialEq, Eq)]
pub enum TextFault {
    /// Another text is kept under its digest.
    Clash(Digest),
    Want,
}

impl From<Want> for TextFault {
    ghost use Rattle.std.specs.Prelude.{◌≡◌};
    ghost use Rattle.zy_world_setup.specs.declared.fault.TextFault.TheVariants as faults;

    ghost from_gives = { λ _ fault. fault ≡ faults.Want };

    fn from(_: Want) -> Self {
        TextFault::Want
    }
}
