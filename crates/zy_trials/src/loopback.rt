// A link over loopback for a test. Each test runs in a process of its own, so that its number makes the ports of a group.

use std::net::Net;
use std::test::Fail;
use std::time::Clock;
use zy_base::Party;
use zy_edge::{Bound, Link, UdpLink};

/// The port of replica 0.
pub(crate) fn first_port(process: u32) -> u16 {
    20_000 + 50 * (process % 800) as u16
}

/// A link with the address of a party.
pub(crate) fn bound_link<'a, R: Net + Clock>(
    rt: &'a R,
    port: u16,
    party: Party,
) -> Result<UdpLink<'a, R>, Fail> {
    let mut link = UdpLink::new(rt);
    match link.bind(port, party) {
        Bound::Bound => Ok(link),
        Bound::Failed => Err(Fail::from("no address")),
    }
}
