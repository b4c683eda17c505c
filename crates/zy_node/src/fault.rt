ghost use Rattle.std.specs.Prelude.{◌≡◌};
ghost use Rattle.zy_node.specs.declared.fault.NodeFault.TheVariants as node_faults;
ghost use Rattle.zy_node.specs.AskFaults.{ask_fault_of, of_node_fault};
ghost use Rattle.zy_node.specs.declared.fault.AskFault.TheVariants as ask_faults;
ghost use Rattle.zy_node.specs.declared.fault.SendFault.TheVariants as send_faults;
ghost use Rattle.zy_node.specs.declared.fault.TakeFault.TheVariants as take_faults;
ghost use Rattle.zy_node.specs.declared.fault.RecoverFault.TheVariants as recover_faults;
ghost use Rattle.zy_node.specs.Recovering.{recover_fault_of};

use zy_base::Want;
use zy_journal::NextFault;

/// Why a node's turns end early.
#[derive(Debug, Drop)]
pub enum NodeFault<N> {
    /// A call of the link failed. The node has taken the steps that were made until then.
    Link(N),
    Want,
}

impl<N> From<Want> for NodeFault<N> {
    ghost from_gives = { λ _ fault. fault ≡ node_faults.Want };

    fn from(_: Want) -> NodeFault<N> {
        NodeFault::Want
    }
}

/// Why not all datagrams were sent.
#[derive(Clone, Copy, Debug, PartialEq, Eq)]
pub(crate) enum SendFault {
    /// A call of the link failed.
    Link,
    Want,
}

impl From<Want> for SendFault {
    ghost from_gives = { λ _ fault. fault ≡ send_faults.Want };

    fn from(_: Want) -> SendFault {
        SendFault::Want
    }
}

/// Why an ask ends without an answer. Its client is gone.
#[derive(Clone, Copy, Debug, PartialEq, Eq)]
pub enum AskFault {
    /// A call of the link failed.
    Link,
    Want,
}

impl From<Want> for AskFault {
    ghost from_gives = { λ _ fault. fault ≡ ask_faults.Want };

    fn from(_: Want) -> AskFault {
        AskFault::Want
    }
}

impl From<SendFault> for AskFault {
    ghost from_gives = { λ fault ask. ask ≡ ask_fault_of fault };

    fn from(fault: SendFault) -> AskFault {
        match fault {
            SendFault::Link => AskFault::Link,
            SendFault::Want => AskFault::Want,
        }
    }
}

// In a place of its own, the node is dropped as one value: where it is dropped in a match over what was hosted, each of its
// fields is.
impl<N: Drop> From<NodeFault<N>> for AskFault {
    ghost from_gives = { λ fault ask. ask ≡ of_node_fault fault };

    fn from(fault: NodeFault<N>) -> AskFault {
        match fault {
            NodeFault::Link(_) => AskFault::Link,
            NodeFault::Want => AskFault::Want,
        }
    }
}

/// Why a turn that is stored ends early. Its node is gone; the journal has what was stored of it.
#[derive(Clone, Copy, Debug, PartialEq, Eq)]
pub enum TakeFault {
    /// A call of the disk failed.
    Disk,
    /// The link failed, and nothing was heard.
    Link,
    /// A record doesn't fit the journal.
    Full,
    Want,
}

impl From<Want> for TakeFault {
    ghost from_gives = { λ _ fault. fault ≡ take_faults.Want };

    fn from(_: Want) -> TakeFault {
        TakeFault::Want
    }
}

/// Why not all that was owed was sent.
#[derive(Debug, Drop)]
pub enum GiveFault<N> {
    /// A call of the link failed. The node goes on; what wasn't sent is lost, as a datagram may be.
    Link(N),
}

/// Why a journal's records make no node.
#[derive(Clone, Copy, Debug, PartialEq, Eq)]
pub enum RecoverFault {
    /// A call of the disk failed.
    Disk,
    /// The gate at this place is open, and has no record behind it, or one that spells no event.
    Damaged(u64),
    Want,
}

impl From<Want> for RecoverFault {
    ghost from_gives = { λ _ fault. fault ≡ recover_faults.Want };

    fn from(_: Want) -> RecoverFault {
        RecoverFault::Want
    }
}

impl From<NextFault> for RecoverFault {
    ghost from_gives = { λ fault recover. recover ≡ recover_fault_of fault };

    fn from(fault: NextFault) -> RecoverFault {
        match fault {
            NextFault::Disk => RecoverFault::Disk,
            NextFault::Damaged(gate) => RecoverFault::Damaged(gate),
            NextFault::Want => RecoverFault::Want,
        }
    }
}
