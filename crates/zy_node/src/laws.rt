//! What a journal's records are worth.

ghost use Rattle.std.specs.Prelude.{ℕ, List, Result};
ghost use Rattle.zy_node.specs.Events.{IsSameAsKept};
ghost use Rattle.zy_node.specs.Keeping.{KeptState};
ghost use Rattle.zy_node.specs.Replicas.{replica_rules};
ghost use Rattle.zy_node.specs.Serving.{KeepsRun, KeepsWord};
ghost use Rattle.zy_node.specs.Told.{Outside};
ghost use Rattle.zy_node.specs.Turn.{HostState, Turn};
ghost use Rattle.zy_node.specs.declared.fault.TakeFault.{TakeFault};
ghost use Rattle.zy_table.specs.State.{State};

use zy_base::Machine;
use zy_journal::Disk;

/// What turns make of a replica, and what they send, is what those of their events do that aren't refused.
pub fn stored_events<M: Machine>()
    ensures { (turns : List Turn) (host : HostState (State M.State)) → IsSameAsKept (replica_rules M.rules) turns host }
{}

/// However a run ends whose turns are stored before anything of them is sent: what was sent is a front of what the first so
/// many of its events owe, and whatever a crash leaves then has the records of those.
pub fn stored_before_sent<D: Disk, M: Machine>()
    ensures { (turns : ℕ) (before : KeptState (State M.State)) (result : Result (KeptState (State M.State)) TakeFault) (from to : Outside) (old new : D)
        → KeepsRun D.contents D.may_leave D.moment D.left_since (replica_rules M.rules) turns before result from to old new
        → KeepsWord D.contents D.may_leave (replica_rules M.rules) before.host.core from.mail to.mail old new }
{}
