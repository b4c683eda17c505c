ghost use Rattle.std.specs.Prelude.{◌≡◌, ◌+◌, ◌*◌, ◌%◌, ◌<◌, ◌≤◌, IfSome, IsSome, ◌↔◌};
ghost use Rattle.zy_base.specs.Counts.{IsSound};

use crate::{ReplicaId, View};

/// How many replicas there are, how many of them may lie, and how many agreeing statements each decision takes.
#[derive(Clone, Copy, Debug)]
pub struct Counts {
    /// The replicas.
    pub n: u64,
    /// How many of them may lie.
    pub f: u64,
    /// The matching responses on which a client completes at once.
    pub fast: u64,
    /// The matching statements of a certificate.
    pub cert: u64,
    /// The local commits on which a client completes, and the checkpoints of a stable proof.
    pub local: u64,
    /// The reports from which a new view begins.
    pub change: u64,
    /// The reports that have to agree on a place which no certificate proves.
    pub agree: u64,
    pub ghost sound: { IsSound n f fast cert local change agree },
}

impl Counts {
    /// The numbers of Zyzzyva for `f` lying replicas: `3f + 1` replicas, all of them for a fast completion, `2f + 1`
    /// for a certificate, for local commits and for a view change, and `f + 1` reports that agree. `None` exactly for
    /// `f` outside 1 to 4.
    pub fn plain(f: u64) -> Option<Counts>
        ensures within { IsSome result ↔ ((1 ≤ f) × (f ≤ 4)) }
        ensures replicas { IfSome result (λ c. (c.n ≡ 3 * f + 1) × (c.f ≡ f) × (c.fast ≡ 3 * f + 1)) }
        ensures quorums { IfSome result (λ c. (c.cert ≡ 2 * f + 1) × (c.local ≡ 2 * f + 1) × (c.change ≡ 2 * f + 1)) }
        ensures agree { IfSome result (λ c. c.agree ≡ f + 1) }
    {
        if f < 1 || f > 4 {
            return None;
        }
        let replicas = 3 * f + 1;
        let quorum = 2 * f + 1;
        Some(Counts {
            n: replicas,
            f,
            fast: replicas,
            cert: quorum,
            local: quorum,
            change: quorum,
            agree: f + 1,
        })
    }

    /// The primary of a view: the view's number modulo the number of replicas.
    pub fn primary(&self, view: View) -> ReplicaId
        ensures { result.0 ≡ view.0 % self.now.n }
    {
        ReplicaId((view.0 % self.n) as u8)
    }
}
