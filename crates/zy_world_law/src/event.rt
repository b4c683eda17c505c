use zy_base::{Bytes, ClientId, Items, Party, TimerKind, View};

/// What can happen to a world. Frames are named by their numbers in the bag, from 1; operations and replies are given
/// by their bytes.
#[derive(Debug, Drop)]
pub enum WorldEvent {
    /// A client asks.
    Ask {
        client: ClientId,
        op: Bytes,
    },
    /// A frame reaches the named party, or the one that it is addressed to.
    Deliver {
        frame: u64,
        to: Option<Party>,
    },
    /// A timer runs out at a party.
    Timer {
        party: Party,
        kind: TimerKind,
    },
    /// A liar signs the order whose history is that of these requests, and an ORDER with the last of them goes to each
    /// of these parties.
    Order {
        liar: Party,
        view: View,
        asks: Items<u64>,
        to: Items<Party>,
    },
    /// A liar likewise signs a speculative response with this reply.
    Spec {
        liar: Party,
        view: View,
        asks: Items<u64>,
        to: Items<Party>,
        reply: Bytes,
    },
    /// A liar signs the statement whose number and fields the bytes spell.
    Statement {
        liar: Party,
        bytes: Bytes,
        to: Items<Party>,
    },
    /// These bytes are sent as they are.
    Raw {
        bytes: Bytes,
        to: Items<Party>,
    },
    /// A statement is signed under a correct party's key, made anew, with its last signature.
    Forge {
        party: Party,
        bytes: Bytes,
        to: Items<Party>,
    },
}
