use zy_base::Want;

/// Why a text isn't kept.
#[derive(Clone, Copy, Debug, PartialEq, Eq)]
pub enum KeepFault {
    /// Another text is kept under the digest.
    Clash,
    Want,
}

impl From<Want> for KeepFault {
    ghost use Rattle.std.specs.Prelude.{◌≡◌};
    ghost use Rattle.zy_book.specs.declared.fault.KeepFault.TheVariants.{Want as NoRoom};

    ghost from_gives = { λ _ fault. fault ≡ NoRoom };

    fn from(_: Want) -> Self {
        KeepFault::Want
    }
}
