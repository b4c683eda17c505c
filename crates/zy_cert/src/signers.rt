ghost use Rattle.std.specs.Prelude.{◌≡◌};
ghost use Rattle.zy_cert.specs.Signers.{same_party, has_signer, has_repeat, has_other};

use crate::Matching;
use zy_base::Party;
use zy_parts::Signed;

fn is_same_party(a: Party, b: Party) -> bool
    ensures { result ≡ same_party a b }
{
    a == b
}

/// One of the statements is this party's. Takes no memory.
pub fn has_signer<S>(list: &[Signed<S>], by: Party) -> bool
    ensures { result ≡ has_signer by list.now }
{
    list.iter().any(|signed| is_same_party(signed.by, by))
}

/// Two of the statements are one party's. Takes no memory.
pub fn has_repeat<S>(list: &[Signed<S>]) -> bool
    ensures { result ≡ has_repeat list.now }
{
    let mut rest = list;
    while let [first, others @ ..] = rest {
        if has_signer(others, first.by) {
            return true;
        }
        rest = others;
    }
    false
}

// One of the statements is another than this.
pub(crate) fn has_other<S: Matching>(list: &[Signed<S>], stmt: &S) -> bool
    ensures { result ≡ has_other S.eq stmt.now list.now }
{
    list.iter().any(|signed| signed.stmt != *stmt)
}
