ghost use Rattle.std.specs.Prelude.{◌≡◌, ◌<◌, ◌≤◌, List, None, true};
ghost use Rattle.zy_admit.specs.Judging.{entry_of, ordered_entry};
ghost use Rattle.zy_exec.specs.Replay.{Point, step};
ghost use Rattle.zy_frames.specs.declared.frame.Frame.TheVariants as frames;
ghost use Rattle.zy_frames.specs.declared.frame.OrderFrame.{OrderFrame};
ghost use Rattle.zy_parts.specs.declared.signed.Signed.{Signed};
ghost use Rattle.zy_parts.specs.declared.statements.Ask.{Ask};
ghost use Rattle.zy_parts.specs.declared.statements.Spec.{Spec};
ghost use Rattle.zy_table.specs.Commits.{local_said};
ghost use Rattle.zy_table.specs.State.{State, is_primary, signs_left};
ghost use Rattle.zy_table.specs.Whole.{plain_row};
ghost use Rattle.zy_calm_rows.specs.Calm.{IsCalm, IsNext};
ghost use Rattle.zy_calm_rows.specs.Outcomes.{calm_order, committed_calmly, ordered_calmly, taken_calmly};
ghost use Rattle.zy_calm_rows.specs.Waiting.{Answered, IsCertificateOf, local_to};

use zy_base::Machine;

/// What a calm primary makes of a request that may be run next: it orders it for all, runs it and answers its client, and is calm one
/// entry on. That takes two signatures.
pub fn calm_requests<M: Machine>()
    ensures row { (p : Point M.State) (s : State M.State) (ask : Signed Ask) → IsCalm M.rules p s → IsNext p s.kept.interval (entry_of ask) → is_primary s ≡ true → 2 ≤ signs_left s → plain_row M.rules s (frames.Request ask) ≡ ordered_calmly M.rules p s ask }
    ensures calm { (p : Point M.State) (s : State M.State) (ask : Signed Ask) → IsCalm M.rules p s → IsNext p s.kept.interval (entry_of ask) → IsCalm M.rules (step M.rules p (entry_of ask)) (ordered_calmly M.rules p s ask).state }
{}

/// What a calm replica makes of the order of a request that may be run next: it runs it and answers its client, and is calm one entry
/// on. That takes one signature.
pub fn calm_orders<M: Machine>()
    ensures row { (p : Point M.State) (s : State M.State) (o : OrderFrame) → IsCalm M.rules p s → IsNext p s.kept.interval (ordered_entry o) → o.order.stmt ≡ calm_order M.rules p (ordered_entry o) → 1 ≤ signs_left s → plain_row M.rules s (frames.Order o) ≡ taken_calmly M.rules p s o }
    ensures calm { (p : Point M.State) (s : State M.State) (o : OrderFrame) → IsCalm M.rules p s → IsNext p s.kept.interval (ordered_entry o) → o.order.stmt ≡ calm_order M.rules p (ordered_entry o) → IsCalm M.rules (step M.rules p (ordered_entry o)) (taken_calmly M.rules p s o).state }
{}

/// What a calm replica makes of a certificate for its last place, of which it said no local commit yet: it keeps it and says that, by
/// one signature, and is as calm as before.
pub fn calm_commits<M: Machine>()
    ensures row { (p : Point M.State) (s : State M.State) (a : Answered) (specs : List (Signed Spec)) → IsCalm M.rules p s → 0 < p.place → p.place < s.kept.interval → a.spec.place.0 ≡ p.place → a.spec.head ≡ p.head → a.spec.view ≡ record { 0 = 0 }
        → IsCertificateOf a s.counts.cert specs → local_said s (local_to a) ≡ None → 1 ≤ signs_left s → plain_row M.rules s (frames.Commit specs) ≡ committed_calmly M.rules s specs a.spec.client (local_to a) }
    ensures calm { (p : Point M.State) (s : State M.State) (a : Answered) (specs : List (Signed Spec)) → IsCalm M.rules p s → IsCalm M.rules p (committed_calmly M.rules s specs a.spec.client (local_to a)).state }
{}
