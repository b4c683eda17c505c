ghost use Rattle.std.specs.Prelude.{◌≡◌, ◌≤◌, ◌<◌, ◌^◌, length, [], None, is_some, IfOk};
ghost use Rattle.std.specs.List.{list_any};
ghost use Rattle.sha2.specs.Sha256.{sha256};
ghost use Rattle.zy_base.specs.declared.ids.Party.TheVariants as parties;
ghost use Rattle.zy_check.specs.Board as boards;
ghost use Rattle.zy_exec.specs.Kept.{now_of, last_place};
ghost use Rattle.zy_exec.specs.Replay.{origin};
ghost use Rattle.zy_exec.specs.Shots.{digest_of_snapshot};
ghost use Rattle.zy_exec.specs.Snapshot.{snapshot_of};

mod adopting;
mod owned;
mod parts;

pub use adopting::told_in;
use owned::{Voice, Work};
use sha2::{Digest as Hasher, Sha256};
use std::alloc::Global;
use std::marker::Model;
use zy_admit::Admission;
use zy_base::{Counts, Digest, Items, Machine, Mode, Place, ReplicaId, Stood, Timers, View, Want};
use zy_change::ViewMachine;
use zy_check::Checkpoints;
use zy_exec::{Exec, nothing};
use zy_parts::{Fetch, Hate, Hole, Local, Signed, Spec};
use zy_seal::{Directory, Sealer};
use zy_table::Pending;

/// A replica's state: its keys, what it keeps for changes of view, its history with the machine at the end, the orders that it keeps, the
/// requests that wait, and what it has said.
pub struct Core<M: Machine> {
    pub(crate) alloc: Global,
    pub(crate) me: ReplicaId,
    pub(crate) counts: Counts,
    pub(crate) directory: Directory,
    pub(crate) sealer: Sealer,
    pub(crate) views: ViewMachine,
    pub(crate) exec: Exec<M>,
    pub(crate) orders: Admission,
    pub(crate) board: Checkpoints,
    pub(crate) hole: Option<Signed<Hole>>,
    pub(crate) specs: Items<Signed<Spec>>,
    pub(crate) pending: Vec<Option<Pending>>,
    pub(crate) locals: Items<Signed<Local>>,
    pub(crate) hate: Option<Signed<Hate>>,
    pub(crate) fetches: Items<Signed<Fetch>>,
}

// A derived drop would be written out again at each way out of a function.
impl<M: Machine> Drop for Core<M> {
    fn drop(self) {
        let Core {
            alloc: _,
            me: _,
            counts: _,
            directory,
            sealer,
            views,
            exec,
            orders,
            board,
            hole,
            specs,
            pending,
            locals,
            hate,
            fetches,
        } = self;
        let _voice = Voice {
            directory,
            sealer,
            views,
            hole,
            hate,
            fetches,
        };
        let _work = Work {
            exec,
            orders,
            board,
            specs,
            pending,
            locals,
        };
    }
}

impl<M: Machine> Model for Core<M> {
    ghost use Rattle.zy_table.specs.State.{State};

    ghost Value = { State M.State };

    ghost view = { λ r. record {
      me = r.me;
      counts = r.counts;
      keys = r.directory;
      sealer = r.sealer;
      views = r.views;
      kept = r.exec;
      orders = r.orders;
      board = r.board;
      hole = r.hole;
      specs = r.specs;
      pending = r.pending.items;
      locals = r.locals;
      hate = r.hate;
      fetches = r.fetches;
    } };

    ghost use Rattle.zy_replica_state.specs.Ready.{IsReady};

    ghost invariant = { λ r. IsReady (record {
      me = r.me;
      counts = r.counts;
      keys = r.directory;
      sealer = r.sealer;
      views = r.views;
      kept = r.exec;
      orders = r.orders;
      board = r.board;
      hole = r.hole;
      specs = r.specs;
      pending = r.pending.items;
      locals = r.locals;
      hate = r.hate;
      fetches = r.fetches;
    }) };
}

// Some request waits.
fn some_wait(pending: &[Option<Pending>]) -> bool
    ensures { result ≡ list_any is_some pending.now }
{
    pending.iter().any(|slot| slot.is_some())
}

// SHA-256 of the snapshot of the empty history.
fn empty_digest<M: Machine>(exec: &Exec<M>) -> Digest
    requires base { exec.now.base ≡ origin M.rules }
    requires entries { exec.now.entries ≡ [] }
    ensures { result ≡ digest_of_snapshot (snapshot_of M.rules (origin M.rules)) }
{
    match exec.snapshot_digest_at(Place(0)) {
        Some(digest) => digest,
        None => unreachable!(),
    }
}

// The empty history with the machine at its start, and the board on which its checkpoint is stable.
fn empty_history<M: Machine>(alloc: Global, k: u64) -> Result<(Exec<M>, Checkpoints), Want>
    requires least { 4 ≤ k }
    requires most { k ≤ 32 }
    ensures exec { IfOk result (λ r. r.0 ≡ record { interval = k; base = origin M.rules; entries = [] }) }
    ensures board { IfOk result (λ r. r.1 ≡ boards.start_of k (digest_of_snapshot (snapshot_of M.rules (origin M.rules)))) }
{
    let exec = Exec::start(alloc, M::empty(alloc)?, k)?;
    let board = Checkpoints::start(alloc, k, empty_digest(&exec));
    Ok((exec, board))
}

impl<M: Machine> Core<M> {
    ghost use Rattle.zy_table.specs.State.{start_of, stood_of, timers_of, waits};

    /// The replica with this number, active in view 0 with the empty history. Snapshots are `k` places apart.
    pub fn start(
        alloc: Global,
        counts: Counts,
        me: ReplicaId,
        k: u64,
        sealer: Sealer,
        directory: Directory,
    ) -> Result<Core<M>, Want>
        requires me { me.0 < counts.n }
        requires signer { sealer.me ≡ parties.Replica me }
        requires replicas { length directory.replicas ≤ counts.n }
        requires clients { length directory.clients ≤ 64 }
        requires least { 4 ≤ k }
        requires most { k ≤ 32 }
        ensures { IfOk result (λ r. r ≡ start_of M.rules k me counts directory sealer) }
    {
        let pending = nothing(alloc)?;
        let (exec, board) = empty_history(alloc, k)?;
        let views = ViewMachine::start(alloc, counts, me, k)?;
        Ok(Core {
            alloc,
            me,
            counts,
            sealer: sealer.beside(&directory),
            directory,
            views,
            exec,
            orders: Admission::start(alloc),
            board,
            hole: None,
            specs: Items::new(alloc),
            pending,
            locals: Items::new(alloc),
            hate: None,
            fetches: Items::new(alloc),
        })
    }

    /// What it checked and signed is known from now on to all that share its store of signatures.
    pub fn take_in(&self) {
        self.directory.take_in();
        self.sealer.take_in();
    }

    /// Whether it takes part in its view, and which that is.
    pub fn mode(&self) -> Mode
        ensures { result ≡ self.now.views.mode }
    {
        self.views.mode()
    }

    /// The last view in which it was active.
    pub fn last_view(&self) -> View
        ensures { result ≡ self.now.views.last_view }
    {
        self.views.last_view()
    }

    /// The place of the last entry of its history.
    pub fn length(&self) -> Place
        ensures place { result.0 ≡ last_place self.now.kept }
        ensures now { result.0 ≡ (now_of M.rules self.now.kept).place }
        ensures fits { result.0 < 2 ^ 62 }
    {
        self.exec.end()
    }

    /// The head of its history.
    pub fn head(&self) -> Digest
        ensures { result ≡ (now_of M.rules self.now.kept).head }
    {
        self.exec.head()
    }

    /// The number of its next signature.
    pub fn key_next(&self) -> u32
        ensures { result ≡ self.now.sealer.key.next }
    {
        self.sealer.next_leaf()
    }

    /// Whether a request waits for its order.
    pub fn has_pending(&self) -> bool
        ensures { result ≡ list_any is_some self.now.pending }
    {
        some_wait(&self.pending)
    }

    // Something is missing, or a request waits.
    fn waits(&self) -> bool
        ensures { result ≡ waits self.now }
    {
        self.hole.is_some() || some_wait(&self.pending)
    }

    /// The timers that are to run now.
    pub fn timers(&self) -> Timers
        ensures { result ≡ timers_of self.now }
    {
        match self.mode() {
            Mode::Active(_) => Timers {
                request: self.waits(),
                change: false,
                answer: false,
            },
            Mode::Leaving(_) => Timers {
                request: false,
                change: true,
                answer: false,
            },
        }
    }

    /// Its history, as far as it is kept.
    pub fn exec(&self) -> &Exec<M>
        ensures { result.now ≡ self.now.kept }
    {
        &self.exec
    }

    /// SHA-256 (FIPS 180-4) of the snapshot at the end of its history.
    pub fn state_digest(&self) -> Result<Digest, Want>
        ensures { IfOk result (λ digest. digest ≡ record { 0 = sha256 (snapshot_of M.rules (now_of M.rules self.now.kept)) }) }
    {
        let snapshot = self.exec.snapshot()?;
        let mut hasher = Sha256::new();
        hasher.update(snapshot.as_slice());
        Ok(Digest(hasher.finalize()))
    }

    /// Its mode, and the length and head of its history.
    pub fn stood(&self) -> Stood
        ensures { result ≡ stood_of M.rules self.now }
    {
        Stood {
            mode: self.mode(),
            length: self.exec.end(),
            head: self.exec.head(),
        }
    }
}
