ghost use Rattle.std.specs.Prelude.{◌≡◌, None};
ghost use Rattle.std.specs.Io.{ReadsAtMost};
ghost use Rattle.zy_edge.specs.Binding.{calls_of};

use super::binding::{Address, Binding};
use super::{Bound, Heard, Link, Sent};
use crate::faults::raised;
use std::io::{Error, ErrorKind};
use std::net::{Ipv4Addr, Net, UdpSocket};
use std::time::{Clock, Duration};
use std::{io, thread};
use zy_base::{ClientId, Party, ReplicaId};

/// How far the port of client 0 lies above that of replica 0.
const FIRST_CLIENT: u64 = 16;
/// A socket that nobody reads keeps a dozen datagrams of 8,229 bytes: after so many in a row to one party the sender lets
/// it read.
const BURST: u8 = 4;

const PAUSE_MS: u64 = 1;

/// Datagrams over loopback. It tells nothing of contents.
#[derive(Drop)]
pub struct UdpLink<'a, R: Net + Clock> {
    rt: &'a R,
    port: u16,
    socket: Option<UdpSocket>,
    last: Option<Party>,
    burst: u8,
    faults: u64,
    receives: u64,
    binding: Binding,
}

impl<'a, R: Net + Clock> UdpLink<'a, R> {
    /// It has no address yet: until it is bound, `receive` and `send` fail.
    pub fn new(rt: &'a R) -> UdpLink<'a, R>
        ensures faults { ⟦<UdpLink<'a, R> as Link>⟧.faults result ≡ 0 }
        ensures receives { ⟦<UdpLink<'a, R> as Link>⟧.receives result ≡ 0 }
        ensures binding { ⟦<UdpLink<'a, R> as Link>⟧.binding result ≡ record { times = 0; last = None; stood = record { receives = 0; mail = None } } }
    {
        UdpLink {
            rt,
            port: 0,
            socket: None,
            last: None,
            burst: 0,
            faults: 0,
            receives: 0,
            binding: Binding::none(),
        }
    }
}

impl<R: Net + Clock> Link for UdpLink<'_, R> {
    ghost faults = { λ l. l.faults };

    ghost receives = { λ l. l.receives };

    ghost mail = { λ _. None };

    ghost binding = { λ l. calls_of l.binding None };

    fn bind(&mut self, port: u16, me: Party) -> Bound {
        let asked = Address { port, party: me };
        self.binding = self.binding.after(asked, self.receives);
        match socket_of(self.rt, port, me) {
            Ok(socket) => {
                self.port = port;
                self.socket = Some(socket);
                Bound::Bound
            }
            Err(_) => {
                self.faults = raised(self.faults);
                Bound::Failed
            }
        }
    }

    fn receive(&mut self, buf: &mut [u8], wait_ms: u64) -> Heard {
        self.receives = raised(self.receives);
        self.last = None;
        match next_of(&self.socket, buf, wait_ms) {
            Ok(len) => Heard::Datagram(len),
            Err(e) => {
                if is_quiet(e.kind()) {
                    return Heard::Quiet;
                }
                self.faults = raised(self.faults);
                Heard::Failed
            }
        }
    }

    fn send(&mut self, to: Party, bytes: &[u8]) -> Sent {
        if self.last != Some(to) {
            self.last = Some(to);
            self.burst = 0;
        }
        if self.burst >= BURST {
            thread::sleep(self.rt, Duration::from_millis(PAUSE_MS));
            self.burst = 0;
        }
        self.burst += 1;
        match send_from(&self.socket, self.port, to, bytes) {
            Ok(_) => Sent::Sent,
            Err(_) => {
                self.faults = raised(self.faults);
                Sent::Failed
            }
        }
    }
}

fn address(port: u16, party: Party) -> io::Result<(Ipv4Addr, u16)> {
    let number = match party {
        Party::Replica(ReplicaId(id)) => u64::from(id),
        Party::Client(ClientId(id)) => FIRST_CLIENT + u64::from(id),
    };
    match u16::try_from(u64::from(port) + number) {
        Ok(port) => Ok((Ipv4Addr::LOCALHOST, port)),
        Err(_) => Err(Error::from(ErrorKind::InvalidInput)),
    }
}

fn socket_of(net: &impl Net, port: u16, me: Party) -> io::Result<UdpSocket> {
    UdpSocket::bind(net, address(port, me)?)
}

fn next_of(socket: &Option<UdpSocket>, buf: &mut [u8], wait_ms: u64) -> io::Result<usize>
    ensures { ReadsAtMost result buf.new }
{
    let Some(socket) = socket else {
        return Err(Error::from(ErrorKind::NotConnected));
    };
    socket.set_read_timeout(Some(Duration::from_millis(wait_ms.max(1))))?;
    socket.recv(buf)
}

fn send_from(socket: &Option<UdpSocket>, port: u16, to: Party, bytes: &[u8]) -> io::Result<usize> {
    let Some(socket) = socket else {
        return Err(Error::from(ErrorKind::NotConnected));
    };
    socket.send_to(bytes, address(port, to)?)
}

/// Whether an error says no more than that nothing came: the wait ended, or a signal came in its place, as to a process
/// that was stopped and goes on.
pub(crate) fn is_quiet(kind: ErrorKind) -> bool {
    matches!(
        kind,
        ErrorKind::WouldBlock | ErrorKind::TimedOut | ErrorKind::Interrupted
    )
}
