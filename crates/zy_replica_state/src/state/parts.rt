//! A replica's state taken apart, for a change on whose way its report may break a rule.

ghost use Rattle.std.specs.Prelude.{◌≡◌};
ghost use Rattle.zy_replica_state.specs.Ready.{IsReady};

use super::owned::{Voice, Work};
use crate::Core;
use std::alloc::Global;
use std::marker::Model;
use zy_admit::Admission;
use zy_base::{Counts, Items, Machine, ReplicaId};
use zy_change::ViewMachine;
use zy_check::Checkpoints;
use zy_exec::Exec;
use zy_parts::{Fetch, Hate, Hole, Local, Signed, Spec};
use zy_seal::{Directory, Sealer};
use zy_table::Pending;

pub(super) struct Parts<M: Machine> {
    pub(super) alloc: Global,
    pub(super) me: ReplicaId,
    pub(super) counts: Counts,
    pub(super) directory: Directory,
    pub(super) sealer: Sealer,
    pub(super) views: ViewMachine,
    pub(super) exec: Exec<M>,
    pub(super) orders: Admission,
    pub(super) board: Checkpoints,
    pub(super) hole: Option<Signed<Hole>>,
    pub(super) specs: Items<Signed<Spec>>,
    pub(super) pending: Vec<Option<Pending>>,
    pub(super) locals: Items<Signed<Local>>,
    pub(super) hate: Option<Signed<Hate>>,
    pub(super) fetches: Items<Signed<Fetch>>,
}

// As a replica's own.
impl<M: Machine> Drop for Parts<M> {
    fn drop(self) {
        let Parts {
            alloc: _,
            me: _,
            counts: _,
            directory,
            sealer,
            views,
            exec,
            orders,
            board,
            hole,
            specs,
            pending,
            locals,
            hate,
            fetches,
        } = self;
        let _voice = Voice {
            directory,
            sealer,
            views,
            hole,
            hate,
            fetches,
        };
        let _work = Work {
            exec,
            orders,
            board,
            specs,
            pending,
            locals,
        };
    }
}

impl<M: Machine> Model for Parts<M> {
    ghost use Rattle.zy_table.specs.State.{State};

    ghost Value = { State M.State };

    ghost view = { λ r. record {
      me = r.me;
      counts = r.counts;
      keys = r.directory;
      sealer = r.sealer;
      views = r.views;
      kept = r.exec;
      orders = r.orders;
      board = r.board;
      hole = r.hole;
      specs = r.specs;
      pending = r.pending.items;
      locals = r.locals;
      hate = r.hate;
      fetches = r.fetches;
    } };
}

impl<M: Machine> Core<M> {
    pub(super) fn apart(self) -> Parts<M>
        ensures same { result ≡ self }
        ensures ready { IsReady self }
    {
        let Core {
            alloc,
            me,
            counts,
            directory,
            sealer,
            views,
            exec,
            orders,
            board,
            hole,
            specs,
            pending,
            locals,
            hate,
            fetches,
        } = self;
        Parts {
            alloc,
            me,
            counts,
            directory,
            sealer,
            views,
            exec,
            orders,
            board,
            hole,
            specs,
            pending,
            locals,
            hate,
            fetches,
        }
    }
}

impl<M: Machine> Parts<M> {
    pub(super) fn together(self) -> Core<M>
        requires { IsReady self }
        ensures { result ≡ self }
    {
        let Parts {
            alloc,
            me,
            counts,
            directory,
            sealer,
            views,
            exec,
            orders,
            board,
            hole,
            specs,
            pending,
            locals,
            hate,
            fetches,
        } = self;
        Core {
            alloc,
            me,
            counts,
            directory,
            sealer,
            views,
            exec,
            orders,
            board,
            hole,
            specs,
            pending,
            locals,
            hate,
            fetches,
        }
    }
}
