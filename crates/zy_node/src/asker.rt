use crate::host::Host;
use std::marker::Model;
use zy_base::Cause;
use zy_client::Client;

/// A client whose request waits for its completion, with the frames that are being gathered for it and the moment at
/// which its timer runs out.
#[derive(Drop)]
pub struct Asker {
    pub(crate) host: Host<Client>,
}

impl Model for Asker {
    ghost use Rattle.zy_node.specs.Turn.{HostState};
    ghost use Rattle.zy_table.specs.ClientState.{ClientState};

    ghost Value = { HostState ClientState };

    ghost view = { λ a. a.host };
}

/// What an ask begins with.
#[derive(Drop)]
pub enum Begun {
    /// The request was sent.
    Waiting(Asker),
    /// The client waits for an earlier request, or its key has no signature left. Nothing was sent.
    Refused(Client, Cause),
}

/// What an ask came to.
#[derive(Drop)]
pub enum Asked {
    /// The request is complete.
    Done(Client),
    /// All turns were taken, and it isn't.
    Spent(Client),
    /// As `Begun::Refused`.
    Refused(Client, Cause),
}
