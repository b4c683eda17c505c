//! A view begins with its choice.

ghost use Rattle.std.specs.Prelude.{◌≡◌, ◌≤◌, length, slice_get, Some, IfOk};
ghost use Rattle.zy_parts.specs.declared.reports.Change.{Change};
ghost use Rattle.zy_parts.specs.declared.signed.Signed.{Signed};
ghost use Rattle.zy_vframes.specs.declared.frame.ViewFrame.TheVariants as frames;
ghost use Rattle.zy_change.specs.Fit.{IsCertified};
ghost use Rattle.zy_table.specs.Sending.{CanBeSent};
ghost use Rattle.zy_table.specs.declared.deeds.AnyFrame.TheVariants as sent;
ghost use Rattle.zy_table.specs.declared.deeds.Verdict.TheVariants.{Take};
ghost use Rattle.zy_table.specs.State.{signs_left, own_view};
ghost use Rattle.zy_table.specs.Adopting.{checkpoints_between, verdict_of};
ghost use Rattle.zy_table.specs.Beginning.{begin_view as beginning, take_up as taking_up};

use crate::responding::respond_up_to;
use zy_base::{Machine, Want};
use zy_change::Chosen;
use zy_replica_state::Progress;
use zy_vframes::ViewCert;

/// The view of a certificate begins with its choice, which can be taken up: nothing is signed yet.
pub fn begin_view<M: Machine>(
    progress: Progress<M>,
    cert: ViewCert,
    chosen: Chosen,
) -> Result<Progress<M>, Want>
    requires certified { IsCertified progress.state.views.counts progress.state.views.interval cert chosen }
    requires sends { CanBeSent (sent.View (frames.ViewCert cert)) }
    requires later { own_view progress.state ≤ cert.new.stmt.view.0 }
    requires takes { (provider : Signed Change) → slice_get cert.new.stmt.changes chosen.provider ≡ Some provider → verdict_of M.rules progress.state.kept progress.state.board.stable provider.stmt.told chosen.place chosen.head ≡ Take }
    ensures { (provider : Signed Change) → slice_get cert.new.stmt.changes chosen.provider ≡ Some provider → IfOk result (λ g. g ≡ beginning M.rules cert chosen provider.stmt.told progress) }
{
    let Progress { core, deeds } = progress;
    let view = cert.new.stmt.view;
    let (core, common, gots) = core.begin_view(cert, chosen)?;
    Progress { core, deeds }.adopts(view, common, gots)
}

/// The same, and its checkpoints above the stable place are answered anew. There are leaves for that.
#[tactic(auto, unfolding(zy_table::specs::Beginning::take_up))]
pub fn take_up<M: Machine>(
    progress: Progress<M>,
    cert: ViewCert,
    chosen: Chosen,
) -> Result<Progress<M>, Want>
    requires certified { IsCertified progress.state.views.counts progress.state.views.interval cert chosen }
    requires sends { CanBeSent (sent.View (frames.ViewCert cert)) }
    requires later { own_view progress.state ≤ cert.new.stmt.view.0 }
    requires takes { (provider : Signed Change) → slice_get cert.new.stmt.changes chosen.provider ≡ Some provider → verdict_of M.rules progress.state.kept progress.state.board.stable provider.stmt.told chosen.place chosen.head ≡ Take }
    requires left { (provider : Signed Change) → slice_get cert.new.stmt.changes chosen.provider ≡ Some provider → length (checkpoints_between progress.state.kept.interval (beginning M.rules cert chosen provider.stmt.told progress).state.board.stable.place.0 chosen.place.0) ≤ signs_left progress.state }
    ensures { (provider : Signed Change) → slice_get cert.new.stmt.changes chosen.provider ≡ Some provider → IfOk result (λ g. g ≡ taking_up M.rules cert chosen provider.stmt.told progress) }
{
    let place = chosen.place;
    let begun = begin_view(progress, cert, chosen)?;
    respond_up_to(begun, place)
}
