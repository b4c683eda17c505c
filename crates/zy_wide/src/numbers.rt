ghost use Rattle.std.specs.Prelude.{◌≡◌, ◌+◌, ◌*◌, ◌≤◌, IfSome, IsSome, ◌↔◌};

use zy_base::Counts;

/// The numbers of the wide profile for `f` lying replicas: `5f + 1` replicas, `4f + 1` for a fast completion and for a view change,
/// `3f + 1` for a certificate and for local commits, and `2f + 1` reports that agree. `None` exactly for `f` outside 1 to 2. Takes
/// no memory.
pub fn wide(f: u64) -> Option<Counts>
    ensures within { IsSome result ↔ ((1 ≤ f) × (f ≤ 2)) }
    ensures replicas { IfSome result (λ c. (c.n ≡ 5 * f + 1) × (c.f ≡ f) × (c.fast ≡ 4 * f + 1)) }
    ensures quorums { IfSome result (λ c. (c.cert ≡ 3 * f + 1) × (c.local ≡ 3 * f + 1) × (c.change ≡ 4 * f + 1)) }
    ensures agree { IfSome result (λ c. c.agree ≡ 2 * f + 1) }
{
    if f < 1 || f > 2 {
        return None;
    }
    let all_but_silent = 4 * f + 1;
    let quorum = 3 * f + 1;
    Some(Counts {
        n: 5 * f + 1,
        f,
        fast: all_but_silent,
        cert: quorum,
        local: quorum,
        change: all_but_silent,
        agree: 2 * f + 1,
    })
}
