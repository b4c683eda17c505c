//! Who may do what.

ghost use Rattle.std.specs.Prelude.{◌≡◌, ◌<◌, IfNone};
ghost use Rattle.zy_guard.specs.GuardedSpace as space;

use crate::{Access, ClientSet, Denial, GuardOp};
use zy_base::ClientId;

impl ClientSet {
    /// Whether one of the 64 clients is in the set.
    pub fn has(self, client: ClientId) -> bool
        requires { client.0 < 64 }
        ensures { result ≡ space.has client.0 self.0 }
    {
        (self.0 >> client.0) % 2 == 1
    }

    /// Whether each client of the set is one of the others.
    pub fn is_within(self, others: ClientSet) -> bool
        ensures { result ≡ space.is_within self.0 others.0 }
    {
        self.0 & others.0 == self.0
    }
}

impl Denial {
    /// The number of the rule that failed.
    pub fn rule(self) -> u8
        ensures { result ≡ space.rule_of self }
    {
        match self {
            Denial::UnknownClient => 1,
            Denial::OwnerNotReader => 2,
            Denial::TakerNotReader => 3,
            Denial::NotTaker => 4,
        }
    }
}

fn access_denial(client: ClientId, access: Access) -> Option<Denial>
    requires { client.0 < 64 }
    ensures { result ≡ space.access_denial client.0 access }
{
    if !access.readers.has(client) {
        return Some(Denial::OwnerNotReader);
    }
    if !access.takers.is_within(access.readers) {
        return Some(Denial::TakerNotReader);
    }
    None
}

/// The first of the rules that look at no tuple and fail.
pub fn denial(client: ClientId, op: &GuardOp) -> Option<Denial>
    ensures denial { result ≡ space.denial client.0 op.now }
    ensures client { IfNone result (client.0 < 64) }
{
    if client.0 >= 64 {
        return Some(Denial::UnknownClient);
    }
    match op {
        GuardOp::Out(access, _) | GuardOp::Cas(_, access, _) => access_denial(client, *access),
        GuardOp::Rdp(_) | GuardOp::Inp(_) => None,
    }
}
