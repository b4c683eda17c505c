ghost use Rattle.std.specs.Prelude.{◌≡◌, ◌<◌, ◌≤◌, [], length};
ghost use Rattle.zy_calm.specs.Calm.{IsCalm};
ghost use Rattle.zy_calm.specs.Example.{one_ask};
ghost use Rattle.zy_table.specs.declared.client.Path.TheVariants.{Fast};
ghost use Rattle.zy_tuple.specs.Bytes.{op_bytes};
ghost use Rattle.zy_tuple.specs.declared.values.Op.{Op};
ghost use Rattle.zy_world_law.specs.Setup.{IsSetup, Setup};

/// What the law speaks of, in a small schedule of four replicas of which none is silent: `ask c0 ..`, `flow 8`. It is calm where its
/// operation is no longer than one may be.
pub fn a_calm_schedule()
    ensures { (s : Setup) (op : Op) → IsSetup s → s.counts.n ≡ 4 → s.counts.fast ≡ 4 → s.liars ≡ [] → s.lying_clients ≡ [] → 0 < s.clients → 1 < s.interval → length (op_bytes op) ≤ 1100 → IsCalm s Fast [] (one_ask op) }
{}
