// What a trace tells of a frame: its kind, and the statement that it holds first.
ghost use Rattle.std.specs.Prelude.{◌≡◌, IfOk, option_map, slice_get};
ghost use Rattle.zy_trace.specs.Frames as frames;

use std::alloc::Global;
use zy_base::{Bytes, Party, Want};
use zy_frames::{Frame, OrderFrame};
use zy_parts::{New, Order, Signed, Spec};
use zy_seal::signature_number;
use zy_table::AnyFrame;
use zy_vframes::{ViewCert, ViewFrame};
use zy_world_setup::read_frame;

/// What a statement says.
#[derive(Clone, Copy)]
pub(crate) enum Saying {
    Ask,
    Order,
    Response,
    Local,
    Confirm,
    Hole,
    Hate,
    Checkpoint,
    Report,
    View,
    Began,
    Fetch,
}

/// A signed statement: who is said to have signed it, the number that the signature tells, what it says, and the view and the place that
/// it speaks of. Of a wish for orders the place is the first.
#[derive(Clone, Copy)]
pub(crate) struct Statement {
    pub(crate) by: Party,
    pub(crate) spent: Option<u32>,
    pub(crate) saying: Saying,
    pub(crate) view: Option<u64>,
    pub(crate) place: Option<u64>,
}

/// The statement that a frame holds first. None where the bytes are no frame, or one that holds no statement.
pub(crate) fn statement_in(alloc: Global, bytes: &[u8]) -> Result<Option<Statement>, Want>
    ensures { IfOk result (λ statement. statement ≡ frames.statement_in bytes.now) }
{
    match read_frame(alloc, bytes)? {
        Some(frame) => Ok(frame_statement(&frame)),
        None => Ok(None),
    }
}

fn frame_statement(frame: &AnyFrame) -> Option<Statement>
    ensures { result ≡ frames.frame_statement frame.now }
{
    match frame {
        AnyFrame::Plain(frame) => plain_statement(frame),
        AnyFrame::View(frame) => view_statement(frame),
    }
}

fn plain_statement(frame: &Frame) -> Option<Statement>
    ensures { result ≡ frames.plain_statement frame.now }
{
    match frame {
        Frame::Request(ask) => Some(stated(ask.by, &ask.sig, Saying::Ask, None, None)),
        Frame::Order(OrderFrame { order, .. }) => Some(order_stated(order)),
        Frame::SpecResponse { spec, .. } => Some(response_stated(spec)),
        Frame::Commit(specs) => first_response(specs.as_slice()),
        Frame::LocalCommit(local) => Some(stated(
            local.by,
            &local.sig,
            Saying::Local,
            Some(local.stmt.view.0),
            Some(local.stmt.place.0),
        )),
        Frame::ConfirmReq { confirm, .. } => Some(stated(
            confirm.by,
            &confirm.sig,
            Saying::Confirm,
            Some(confirm.stmt.view.0),
            None,
        )),
        Frame::FillHole(hole) => Some(stated(
            hole.by,
            &hole.sig,
            Saying::Hole,
            Some(hole.stmt.view.0),
            Some(hole.stmt.from.0),
        )),
        Frame::Hate(hate) => Some(stated(
            hate.by,
            &hate.sig,
            Saying::Hate,
            Some(hate.stmt.view.0),
            None,
        )),
        Frame::Pom(first, _) => Some(order_stated(first)),
        Frame::Checkpoint(check) => Some(stated(
            check.by,
            &check.sig,
            Saying::Checkpoint,
            Some(check.stmt.view.0),
            Some(check.stmt.place.0),
        )),
    }
}

fn view_statement(frame: &ViewFrame) -> Option<Statement>
    ensures { result ≡ frames.view_statement frame.now }
{
    match frame {
        ViewFrame::ViewChange(change) => Some(stated(
            change.by,
            &change.sig,
            Saying::Report,
            Some(change.stmt.view.0),
            None,
        )),
        ViewFrame::NewView(new) => Some(view_stated(new)),
        ViewFrame::ViewConfirm(began) => Some(stated(
            began.by,
            &began.sig,
            Saying::Began,
            Some(began.stmt.view.0),
            Some(began.stmt.place.0),
        )),
        ViewFrame::ViewCert(ViewCert { new, .. }) => Some(view_stated(new)),
        ViewFrame::Fetch(fetch) => Some(stated(
            fetch.by,
            &fetch.sig,
            Saying::Fetch,
            None,
            Some(fetch.stmt.place.0),
        )),
        ViewFrame::State { .. } => None,
    }
}

fn order_stated(order: &Signed<Order>) -> Statement
    ensures { result ≡ frames.order_stated order.now }
{
    stated(
        order.by,
        &order.sig,
        Saying::Order,
        Some(order.stmt.view.0),
        Some(order.stmt.place.0),
    )
}

fn response_stated(spec: &Signed<Spec>) -> Statement
    ensures { result ≡ frames.response_stated spec.now }
{
    stated(
        spec.by,
        &spec.sig,
        Saying::Response,
        Some(spec.stmt.view.0),
        Some(spec.stmt.place.0),
    )
}

fn first_response(specs: &[Signed<Spec>]) -> Option<Statement>
    ensures { result ≡ option_map frames.response_stated (slice_get specs.now 0) }
{
    match specs.first() {
        Some(spec) => Some(response_stated(spec)),
        None => None,
    }
}

fn view_stated(new: &Signed<New>) -> Statement
    ensures { result ≡ frames.view_stated new.now }
{
    stated(new.by, &new.sig, Saying::View, Some(new.stmt.view.0), None)
}

fn stated(
    by: Party,
    sig: &Bytes,
    saying: Saying,
    view: Option<u64>,
    place: Option<u64>,
) -> Statement
    ensures { result ≡ frames.stated by sig.now saying view place }
{
    Statement {
        by,
        spent: signature_number(sig.as_slice()),
        saying,
        view,
        place,
    }
}

pub(crate) fn saying_name(saying: Saying) -> &'static str
    ensures { result.now ≡ frames.saying_name saying }
{
    match saying {
        Saying::Ask => "ask",
        Saying::Order => "order",
        Saying::Response => "response",
        Saying::Local => "local",
        Saying::Confirm => "confirm",
        Saying::Hole => "hole",
        Saying::Hate => "hate",
        Saying::Checkpoint => "checkpoint",
        Saying::Report => "report",
        Saying::View => "view",
        Saying::Began => "began",
        Saying::Fetch => "fetch",
    }
}

/// A frame's kind by the second of its bytes, or a dash where this is no kind.
pub(crate) fn kind_name(frame: &[u8]) -> &'static str
    ensures { result.now ≡ frames.kind_name frame.now }
{
    match frame.get(1) {
        Some(kind) => kind_numbered(*kind),
        None => "-",
    }
}

fn kind_numbered(kind: u8) -> &'static str
    ensures { result.now ≡ frames.kind_numbered kind }
{
    match kind {
        1 => "REQUEST",
        2 => "ORDER",
        3 => "SPEC-RESPONSE",
        4 => "COMMIT",
        5 => "LOCAL-COMMIT",
        6 => "CONFIRM-REQ",
        7 => "FILL-HOLE",
        8 => "HATE",
        9 => "POM",
        10 => "CHECKPOINT",
        11 => "VIEW-CHANGE",
        12 => "NEW-VIEW",
        13 => "VIEW-CONFIRM",
        14 => "VIEW-CERT",
        15 => "FETCH",
        16 => "STATE",
        _ => "-",
    }
}
