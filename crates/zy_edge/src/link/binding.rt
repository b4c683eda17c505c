ghost use Rattle.std.specs.Prelude.{◌≡◌, None, Some};
ghost use Rattle.zy_edge.specs.Faults.{raised};

use crate::faults::raised;
use zy_base::Party;

/// Where a party is heard: loopback, at a port that counts from that of its group's replica 0.
#[derive(Clone, Copy, Debug, PartialEq, Eq)]
pub struct Address {
    pub port: u16,
    pub party: Party,
}

/// What was asked of a link by `bind`.
#[derive(Clone, Copy, Debug, PartialEq, Eq)]
pub struct Binding {
    /// How often an address was asked for: a number that stays at 2^64 - 1.
    pub times: u64,
    /// The last one, also where it could not be had.
    pub last: Option<Address>,
    /// How many receives were made before it was asked for.
    pub receives: u64,
}

impl Binding {
    pub(crate) fn none() -> Binding
        ensures { result ≡ record { times = 0; last = None; receives = 0 } }
    {
        Binding {
            times: 0,
            last: None,
            receives: 0,
        }
    }

    /// One address more was asked for, after so many receives.
    pub(crate) fn after(self, address: Address, receives: u64) -> Binding
        ensures { result ≡ record { times = raised self.times; last = Some address; receives = receives } }
    {
        Binding {
            times: raised(self.times),
            last: Some(address),
            receives,
        }
    }
}
