ghost use Rattle.std.specs.Prelude.{◌≡◌};

use zy_base::Want;

/// Why a file isn't taken.
#[derive(Clone, Copy, Debug, PartialEq, Eq)]
pub enum GroupFault {
    /// The first field, in their order, that is missing, of another type or out of its range. Field 0 is the text itself.
    Field(u8),
    Want,
}

impl From<Want> for GroupFault {
    ghost use Rattle.zy_group.specs.declared.fault.GroupFault.TheVariants as faults;

    ghost from_gives = { λ _ fault. fault ≡ faults.Want };

    fn from(_: Want) -> GroupFault {
        GroupFault::Want
    }
}
