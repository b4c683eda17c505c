ghost use Rattle.std.specs.Prelude.{◌≡◌};
ghost use Rattle.zy_check.specs.Judging.{is_refused};

use zy_base::Cause;

/// What another replica's response or checkpoint comes to.
#[derive(Clone, Copy, Debug, PartialEq, Eq)]
pub enum Kept {
    /// It is kept. The own history has not come to its place, so nothing is known of what it says.
    Held,
    /// It is kept and says what the own history has at its place; so many kept statements are equal to the own one.
    Kept(u64),
    /// It is not kept, and why.
    Refused(Cause),
}

impl Kept {
    pub(crate) fn is_refused(&self) -> bool
        ensures { result ≡ is_refused self.now }
    {
        match self {
            Kept::Held | Kept::Kept(_) => false,
            Kept::Refused(_) => true,
        }
    }
}
