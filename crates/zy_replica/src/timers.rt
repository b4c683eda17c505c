//! What a replica does when a timer runs out.

ghost use Rattle.std.specs.Prelude.{◌≡◌, if◌then◌else◌, IfOk};
ghost use Rattle.std.specs.Option.{ForSome};
ghost use Rattle.zy_vframes.specs.declared.frame.ViewFrame.TheVariants as view_frames;
ghost use Rattle.zy_change.specs.Views.{change_for as change_of, own_change};
ghost use Rattle.zy_table.specs.Sending.{CanBeSent};
ghost use Rattle.zy_table.specs.declared.deeds.AnyFrame.TheVariants as any;
ghost use Rattle.zy_table.specs.State.{own_view};
ghost use Rattle.zy_base.specs.declared.step.Answer.TheVariants as Answer;
ghost use Rattle.zy_table.specs.Deeds.{begin};
ghost use Rattle.zy_table.specs.Leaving.{goes};
ghost use Rattle.zy_table.specs.Beginning.{finished};
ghost use Rattle.zy_table.specs.Hates.{then_ask, has_pending as some_pending, hate_from as hate_row, on_request_timer as request_row, on_change_timer as change_row, change_again as again_change};

use crate::asking::ask_for_hole;
use crate::judging::taken;
use crate::own_hate::hate_and_ask;
use zy_base::{Answer, Machine, Mode, Want};
use zy_parts::{Change, Signed};
use zy_replica_state::{Core, Moved, Progress};
use zy_table::To;
use zy_vframes::ViewFrame;

// Nothing is to be done.
fn idle<M: Machine>(core: Core<M>) -> Moved<M>
    ensures { result ≡ finished M.rules core (goes Answer.Taken (begin core)) }
{
    taken(core.begin())
}

// ---- requests

// No request waits: what is missing is asked for again.
fn idle_and_ask<M: Machine>(core: Core<M>) -> Result<Moved<M>, Want>
    ensures { IfOk result (λ m. m ≡ finished M.rules core (then_ask (goes Answer.Taken (begin core)))) }
{
    Ok(taken(ask_for_hole(core.begin())?))
}

fn request_while_active<M: Machine>(core: Core<M>) -> Result<Moved<M>, Want>
    ensures { IfOk result (λ m. m ≡ finished M.rules core (then_ask (if some_pending core then hate_row M.rules (begin core) else goes Answer.Taken (begin core)))) }
{
    if core.has_pending() {
        hate_and_ask(core.begin())
    } else {
        idle_and_ask(core)
    }
}

/// The timer of requests: while it is active and a request waits, the replica hates its view; and it asks for missing orders
/// again, of all, if it is still active then.
pub fn on_request_timer<M: Machine>(core: Core<M>) -> Result<Moved<M>, Want>
    ensures { IfOk result (λ m. m ≡ finished M.rules core (request_row M.rules core core.views.mode)) }
{
    match core.mode() {
        Mode::Active(_) => request_while_active(core),
        Mode::Leaving(_) => Ok(idle(core)),
    }
}

// ---- changes

fn change_copy(change: &Signed<Change>) -> Result<Signed<Change>, Want>
    ensures { IfOk result (λ copy. copy ≡ change.now) }
{
    Ok(change.clone()?)
}

// A copy of what it said as it left for its view.
fn change_for<M: Machine>(core: &Core<M>) -> Result<Option<Signed<Change>>, Want>
    ensures change { IfOk result (λ change. change ≡ change_of (own_view core.now) (own_change core.now.views)) }
    ensures sends { IfOk result (λ change. ForSome change (λ c. CanBeSent (any.View (view_frames.ViewChange c)))) }
{
    let views = core.views();
    match views.own_change() {
        Some(change) if change.stmt.view == views.view() => Ok(Some(change_copy(change)?)),
        _ => Ok(None),
    }
}

fn change_again<M: Machine>(
    progress: Progress<M>,
    change: Option<Signed<Change>>,
) -> Result<Progress<M>, Want>
    requires { ForSome change (λ c. CanBeSent (any.View (view_frames.ViewChange c))) }
    ensures { IfOk result (λ g. g ≡ again_change change progress) }
{
    match change {
        None => Ok(progress),
        Some(change) => progress.send_view(To::All, ViewFrame::ViewChange(change)),
    }
}

fn tell_again<M: Machine>(core: Core<M>) -> Result<Progress<M>, Want>
    ensures { IfOk result (λ g. g ≡ again_change (change_of (own_view core) (own_change core.views)) (begin core)) }
{
    let change = change_for(&core)?;
    change_again(core.begin(), change)
}

// Nothing is asked for: it isn't in its view.
fn tell_leaving<M: Machine>(core: Core<M>) -> Result<Moved<M>, Want>
    ensures { IfOk result (λ m. m ≡ finished M.rules core (then_ask (hate_row M.rules (again_change (change_of (own_view core) (own_change core.views)) (begin core))))) }
{
    hate_and_ask(tell_again(core)?)
}

/// The timer of changes: while it is leaving, what it said as it left goes to all again, and the replica hates the view for
/// which it left, since that doesn't begin.
pub fn on_change_timer<M: Machine>(core: Core<M>) -> Result<Moved<M>, Want>
    ensures { IfOk result (λ m. m ≡ finished M.rules core (change_row M.rules core core.views.mode)) }
{
    match core.mode() {
        Mode::Active(_) => Ok(idle(core)),
        Mode::Leaving(_) => tell_leaving(core),
    }
}
