ghost use Rattle.std.specs.Prelude.{◌≡◌, ◌≤◌, ◌<◌, length, IfOk};
ghost use Rattle.std.specs.List.{AllByRecursion};
ghost use Rattle.sha2.specs.Sha256.{sha256};
ghost use Rattle.zy_base.specs.declared.cause.Cause.{Cause};
ghost use Rattle.zy_base.specs.declared.ids.Party.TheVariants as parties;
ghost use Rattle.zy_base.specs.declared.step.Answer.TheVariants.{Refused};
ghost use Rattle.zy_chain.specs.Entries.{IsEntryInRange};
ghost use Rattle.zy_exec.specs.Kept.{now_of, last_place};
ghost use Rattle.zy_exec.specs.Snapshot.{snapshot_of};
ghost use Rattle.zy_table.specs.Whole.{whole_step as step_row};
ghost use Rattle.zy_table.specs.Deeds.{outgoing_of, said_from, gains_in};
ghost use Rattle.zy_replica.specs.Refusing.{IsUnchanged};

use crate::outcome::finish;
use crate::step::moves;
use std::alloc::Global;
use std::marker::Model;
use zy_base::{
    Answer, Counts, Digest, Event, Machine, Mode, Outgoing, Place, ReplicaId, Said, Stood, Timers,
    View, Want,
};
use zy_exec::Exec;
use zy_replica_state::Core;
use zy_seal::{Directory, Sealer};
use zy_table::Gains;

/// A replica: its keys, its view, its history with the machine at the end, and the orders that it keeps.
#[derive(Drop)]
pub struct Replica<M: Machine> {
    pub(crate) core: Core<M>,
}

impl<M: Machine> Model for Replica<M> {
    ghost use Rattle.zy_table.specs.State.{State};

    ghost Value = { State M.State };

    ghost view = { λ r. r.core };
}

/// What a step made of its event: the replica after it, the answer, the frames to send, the timers that are to run
/// from now on, the statements that were signed, and the entries that were executed.
#[derive(Drop)]
pub struct Stepped<M: Machine> {
    pub replica: Replica<M>,
    pub answer: Answer,
    pub out: Outgoing,
    pub timers: Timers,
    pub said: Said,
    pub got: Gains,
}

impl<M: Machine> Replica<M> {
    ghost use Rattle.zy_table.specs.State.{start_of, stood_of, timers_of};

    /// The replica with this number, active in view 0 with the empty history. Snapshots are `k` places apart.
    pub fn start(
        alloc: Global,
        counts: Counts,
        me: ReplicaId,
        k: u64,
        sealer: Sealer,
        directory: Directory,
    ) -> Result<Replica<M>, Want>
        requires me { me.0 < counts.n }
        requires signer { sealer.me ≡ parties.Replica me }
        requires replicas { length directory.replicas ≤ counts.n }
        requires clients { length directory.clients ≤ 64 }
        requires least { 4 ≤ k }
        requires most { k ≤ 32 }
        ensures { IfOk result (λ r. r ≡ start_of M.rules k me counts directory sealer) }
    {
        let core = Core::start(alloc, counts, me, k, sealer, directory)?;
        Ok(Replica { core })
    }

    /// What an event makes of the replica: the whole answer table, for every frame and timer. After a refusal all is as
    /// before, and nothing is sent.
    pub fn step(self, event: Event) -> Result<Stepped<M>, Want>
        ensures answer { IfOk result (λ s. s.answer ≡ (step_row M.rules self event).answer) }
        ensures replica { IfOk result (λ s. s.replica ≡ (step_row M.rules self event).state) }
        ensures out { IfOk result (λ s. s.out ≡ outgoing_of (step_row M.rules self event).state.me.0 (step_row M.rules self event).state.counts.n (step_row M.rules self event).deeds.sent) }
        ensures timers { IfOk result (λ s. s.timers ≡ timers_of (step_row M.rules self event).state) }
        ensures said { IfOk result (λ s. s.said ≡ said_from (parties.Replica (step_row M.rules self event).state.me) 0 (step_row M.rules self event).deeds.acts) }
        ensures got { IfOk result (λ s. s.got ≡ gains_in (step_row M.rules self event).deeds.acts) }
        ensures range { IfOk result (λ s. AllByRecursion (λ got. IsEntryInRange got.entry) s.got) }
        ensures refused { IfOk result (λ s. (cause : Cause) → s.answer ≡ Refused cause → IsUnchanged self s.replica s.timers s.out s.said s.got) }
    {
        let Replica { core } = self;
        finish(moves(core, event)?)
    }

    /// What it checked and signed is known from now on to all that share its store of signatures.
    pub fn take_in(&self) {
        self.core.take_in();
    }

    /// Whether it takes part in its view, and which that is.
    pub fn mode(&self) -> Mode
        ensures { result ≡ self.now.views.mode }
    {
        self.core.mode()
    }

    /// The last view in which it was active.
    pub fn last_view(&self) -> View
        ensures { result ≡ self.now.views.last_view }
    {
        self.core.last_view()
    }

    /// The place of the last entry of its history.
    pub fn length(&self) -> Place
        ensures { result.0 ≡ last_place self.now.kept }
    {
        self.core.length()
    }

    /// The head of its history.
    pub fn head(&self) -> Digest
        ensures { result ≡ (now_of M.rules self.now.kept).head }
    {
        self.core.head()
    }

    /// Its stable checkpoint: the view, the place, the head of the history there, and SHA-256 (FIPS 180-4) of the
    /// snapshot there. Place 0 in view 0 until another is stable.
    pub fn stable(&self) -> (View, Place, Digest, Digest)
        ensures { result ≡ (self.now.board.stable.view, self.now.board.stable.place, self.now.board.stable.head, self.now.board.stable.state) }
    {
        self.core.board().stable()
    }

    /// The number of its next signature.
    pub fn key_next(&self) -> u32
        ensures { result ≡ self.now.sealer.key.next }
    {
        self.core.key_next()
    }

    /// The timers that are to run now.
    pub fn timers(&self) -> Timers
        ensures { result ≡ timers_of self.now }
    {
        self.core.timers()
    }

    /// Its history, as far as it is kept.
    pub fn exec(&self) -> &Exec<M>
        ensures { result.now ≡ self.now.kept }
    {
        self.core.exec()
    }

    /// SHA-256 (FIPS 180-4) of the snapshot at the end of its history.
    pub fn state_digest(&self) -> Result<Digest, Want>
        ensures { IfOk result (λ digest. digest ≡ record { 0 = sha256 (snapshot_of M.rules (now_of M.rules self.now.kept)) }) }
    {
        self.core.state_digest()
    }

    /// Its mode, and the length and head of its history.
    pub fn stood(&self) -> Stood
        ensures { result ≡ stood_of M.rules self.now }
    {
        self.core.stood()
    }
}
