ghost use Rattle.std.specs.Prelude.{◌≡◌, ℕ, Option};
ghost use Rattle.zy_edge.specs.Binding.{BindCalls, after_binding};
ghost use Rattle.zy_edge.specs.Faults.{IsCounted, raised};
ghost use Rattle.zy_edge.specs.Link.{Mail, StaysAsTold, IsHeard, IsSent, bind_failed, receive_failed, send_failed};

use zy_base::Party;

pub(crate) mod binding;
pub(crate) mod memory;
pub(crate) mod udp;

/// What a `bind` did.
#[derive(Clone, Copy, Debug, PartialEq, Eq)]
pub enum Bound {
    /// Datagrams to the own party are heard from now on.
    Bound,
    Failed,
}

/// What a `receive` did.
#[derive(Clone, Copy, Debug, PartialEq, Eq)]
pub enum Heard {
    /// So many bytes of a datagram stand at the front of the buffer: the whole, or as much as the buffer holds.
    Datagram(usize),
    /// No datagram came.
    Quiet,
    Failed,
}

/// What a `send` did.
#[derive(Clone, Copy, Debug, PartialEq, Eq)]
pub enum Sent {
    /// The datagram is on its way. Nobody says that it arrives.
    Sent,
    Failed,
}

/// A way on which datagrams go to parties and come from them.
pub trait Link {
    /// How often a call has failed: a number that never falls, and stays at 2^64 - 1.
    ghost faults: { Self → ℕ };

    /// How often `receive` was called: a number that stays at 2^64 - 1.
    ghost receives: { Self → ℕ };

    /// The datagrams that are left to be heard and those that were sent, where they are told.
    ghost mail: { Self → Option Mail };

    /// How often an address was asked for, which one last, and where the link stood then.
    ghost binding: { Self → BindCalls };

    /// Becomes the party. The own address is loopback with port `port + i` for replica i, and `port + 16 + c` for
    /// client c.
    fn bind(&mut self, port: u16, me: Party) -> Bound
        ensures mail { StaysAsTold (mail self.old) (mail self.new) }
        ensures binding { binding self.new ≡ after_binding (record { port = port; party = me }) (record { receives = receives self.old; mail = mail self.old }) (binding self.old) }
        ensures receives { receives self.new ≡ receives self.old }
        ensures count { IsCounted (bind_failed result) (faults self.old) (faults self.new) };

    /// Waits for a datagram, at most so many milliseconds, and puts it to the front of the buffer. What doesn't fit there
    /// is lost.
    fn receive(&mut self, buf: &mut [u8], wait_ms: u64) -> Heard
        ensures mail { IsHeard result buf.new (mail self.old) (mail self.new) }
        ensures binding { binding self.new ≡ binding self.old }
        ensures receives { receives self.new ≡ raised (receives self.old) }
        ensures count { IsCounted (receive_failed result) (faults self.old) (faults self.new) };

    fn send(&mut self, to: Party, bytes: &[u8]) -> Sent
        ensures mail { IsSent result to bytes.now (mail self.old) (mail self.new) }
        ensures binding { binding self.new ≡ binding self.old }
        ensures receives { receives self.new ≡ receives self.old }
        ensures count { IsCounted (send_failed result) (faults self.old) (faults self.new) };
}
