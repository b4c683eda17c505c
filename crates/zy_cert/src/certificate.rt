ghost use Rattle.std.specs.Prelude.{◌≡◌, ◌<◌};
ghost use Rattle.zy_cert.specs.Certificates.{certified, point_of_equal};

use crate::Located;
use crate::signers::{has_other, has_repeat};
use zy_base::{Cause, Digest, Place, View};
use zy_parts::Signed;

/// The view, the place and the head that a list of signed statements certifies: exactly so many, no two of one party,
/// all equal. `TooFew` with the length where there are fewer; `Mixed` where there are more; `Repeat` where a party
/// signed two; `Mixed` where two differ; in this order. The list has at most a certificate's length when its signers
/// are compared. Takes no memory.
pub fn check_cert<S: Located>(
    count: u64,
    list: &[Signed<S>],
) -> Result<(View, Place, Digest), Cause>
    requires { 0 < count }
    ensures { result ≡ certified S.eq S.point_of count list.now }
{
    let len = list.len() as u64;
    if len < count {
        return Err(Cause::TooFew(len));
    }
    if len > count {
        return Err(Cause::Mixed);
    }
    if has_repeat(list) {
        return Err(Cause::Repeat);
    }
    point_of_equal(list)
}

// The point of equal statements.
fn point_of_equal<S: Located>(list: &[Signed<S>]) -> Result<(View, Place, Digest), Cause>
    ensures { result ≡ point_of_equal S.eq S.point_of list.now }
{
    match list {
        [] => Err(Cause::Mixed),
        [first, others @ ..] => {
            if has_other(others, &first.stmt) {
                Err(Cause::Mixed)
            } else {
                Ok(first.stmt.point())
            }
        }
    }
}
