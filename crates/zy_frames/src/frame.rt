use zy_base::{Bytes, Items};
use zy_parts::{Ask, Check, Confirm, Hate, Hole, Local, Order, Signed, Spec};

/// A primary's order and the request that it orders.
#[derive(Clone, Debug, Drop)]
pub struct OrderFrame {
    pub order: Signed<Order>,
    pub ask: Signed<Ask>,
}

/// What replicas and clients send while no view changes, by the kinds 1 to 10.
#[derive(Clone, Debug, Drop)]
pub enum Frame {
    /// A client asks.
    Request(Signed<Ask>),
    /// The primary orders a request.
    Order(OrderFrame),
    /// A replica has executed a request: its reply of at most 1,100 bytes, and the order where it has it.
    SpecResponse {
        spec: Signed<Spec>,
        reply: Bytes,
        order: Option<Signed<Order>>,
    },
    /// A client's commit certificate: from 1 to 16 equal responses.
    Commit(Items<Signed<Spec>>),
    /// A replica holds a commit certificate.
    LocalCommit(Signed<Local>),
    /// A backup asks the primary to order a request.
    ConfirmReq {
        confirm: Signed<Confirm>,
        ask: Signed<Ask>,
    },
    /// A replica asks for orders that it lacks.
    FillHole(Signed<Hole>),
    /// A replica wants to leave the view.
    Hate(Signed<Hate>),
    /// A proof of misbehaviour: two orders of one primary for one place.
    Pom(Signed<Order>, Signed<Order>),
    /// A replica's checkpoint.
    Checkpoint(Signed<Check>),
}
