ghost use Rattle.std.specs.Prelude.{◌≡◌, option_copied, Some};
ghost use Rattle.zy_check.specs.Board.{specs_at, checks_at};
ghost use Rattle.zy_check.specs.Judging.{first_cause, beside_spec, beside_check};

use crate::votes::has_signer;
use crate::{Checkpoints, Kept};
use zy_base::{Cause, Party};
use zy_parts::{Check, Signed, Spec};

// Why a party's statement isn't compared with the own one, where this speaks against its place and these are kept there.
pub(crate) fn first_cause<S>(cause: Option<Cause>, list: &[Signed<S>], by: Party) -> Option<Cause>
    ensures { result ≡ first_cause cause by list.now }
{
    match cause {
        Some(cause) => Some(cause),
        None => {
            if has_signer(list, by) {
                Some(Cause::Repeat)
            } else {
                None
            }
        }
    }
}

impl Checkpoints {
    // A Spec beside the own one and those that are kept at its place.
    pub(crate) fn beside_spec(&self, vote: &Signed<Spec>, own: Option<&Spec>) -> Kept
        ensures { result ≡ beside_spec (specs_at self.now vote.now.stmt.place.0) vote.now (option_copied own.entry) }
    {
        match own {
            None => Kept::Held,
            Some(own) => self.compare_spec(vote, own),
        }
    }

    fn compare_spec(&self, vote: &Signed<Spec>, own: &Spec) -> Kept
        ensures { result ≡ beside_spec (specs_at self.now vote.now.stmt.place.0) vote.now (Some own.now) }
    {
        if vote.stmt.head != own.head {
            return Kept::Refused(Cause::OtherHistory(own.head, vote.stmt.head));
        }
        if vote.stmt != *own {
            return Kept::Refused(Cause::Unmatched);
        }
        Kept::Kept(self.specs_with(vote, own))
    }

    // A Check beside the own one and those that are kept at its place.
    pub(crate) fn beside_check(&self, vote: &Signed<Check>, own: Option<&Check>) -> Kept
        ensures { result ≡ beside_check (checks_at self.now vote.now.stmt.place.0) vote.now (option_copied own.entry) }
    {
        match own {
            None => Kept::Held,
            Some(own) => self.compare_check(vote, own),
        }
    }

    fn compare_check(&self, vote: &Signed<Check>, own: &Check) -> Kept
        ensures { result ≡ beside_check (checks_at self.now vote.now.stmt.place.0) vote.now (Some own.now) }
    {
        if vote.stmt.head != own.head {
            return Kept::Refused(Cause::OtherHistory(own.head, vote.stmt.head));
        }
        if vote.stmt.state != own.state {
            return Kept::Refused(Cause::WrongState(own.state, vote.stmt.state));
        }
        Kept::Kept(self.checks_with(vote, own))
    }
}
