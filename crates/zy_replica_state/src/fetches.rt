//! What a replica asked others for.

ghost use Rattle.std.specs.Prelude.{◌≡◌, ◌++◌, ◌∷◌, [], find, option_copied, IfOk};
ghost use Rattle.std.specs.Option.{ForSome};
ghost use Rattle.zy_parts.specs.Reports.{IsFetchInRange};
ghost use Rattle.zy_parts.specs.Signing.{IsSignedInRange};
ghost use Rattle.zy_cert.specs.Equal.{same_fetch};
ghost use Rattle.zy_table.specs.Beginning.{fetch_said};

use crate::Core;
use crate::copies::signed_copy;
use zy_base::{Machine, Want};
use zy_parts::{Fetch, Signed};

// The first of some fetches that asks for this.
fn fetch_among<'a>(said: &'a [Signed<Fetch>], wanted: &Fetch) -> Option<&'a Signed<Fetch>>
    ensures { option_copied result ≡ find (λ one. same_fetch one.stmt wanted.now) said.now }
{
    said.iter().find(|one| one.stmt == *wanted)
}

impl<M: Machine> Core<M> {
    /// A copy of the fetch of this snapshot that was said before.
    pub fn fetch_said(&self, wanted: &Fetch) -> Result<Option<Signed<Fetch>>, Want>
        ensures said { IfOk result (λ said. said ≡ fetch_said self.now wanted.now) }
        ensures range { IfOk result (λ said. ForSome said (IsSignedInRange IsFetchInRange)) }
    {
        match fetch_among(self.fetches.as_slice(), wanted) {
            Some(said) => Ok(Some(signed_copy(said)?)),
            None => Ok(None),
        }
    }

    /// A fetch that was said is kept for good.
    pub fn keep_fetch(mut self, said: Signed<Fetch>) -> Result<Core<M>, Want>
        requires { IsSignedInRange IsFetchInRange said }
        ensures { IfOk result (λ r. r ≡ record self { fetches = self.fetches ++ said ∷ [] }) }
    {
        match self.fetches.push(said) {
            Ok(()) => Ok(self),
            Err(want) => Err(want),
        }
    }
}
