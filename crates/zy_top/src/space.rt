// A script's operations on one space that begins empty.
ghost use Rattle.std.specs.Prelude.{◌≡◌, ◌++◌, [], All, IfOk};
ghost use Rattle.zy_edge.specs.Faults.{IsCounted};
ghost use Rattle.zy_space.specs.TupleSpace.{step};
ghost use Rattle.zy_tuple.specs.Values.{IsOp};
ghost use Rattle.zy_top_words.specs.Calls.{IsSent, stops_writing};
ghost use Rattle.zy_top.specs.Verdict.{reply_line, report_from};

use std::alloc::Global;
use zy_base::{ClientId, Machine, Want};
use zy_edge::Sink;
use zy_space::Space;
use zy_top_words::{Exit, write_all};
use zy_tuple::{Op, reply_text_put};

/// The report is written whenever it has so many bytes, and at its end.
const PIECE: usize = 16_384;

/// The script is run for one client.
const CLIENT: ClientId = ClientId(0);

/// Runs the operations, and writes the reply of each on a line of its own.
pub(crate) fn run_script<S: Sink>(alloc: Global, ops: &[Op], out: &mut S) -> Result<(), Exit>
    requires { All IsOp ops.now }
    ensures written { IsSent (S.taken out.old) (S.taken out.new) (report_from [] ops.now) result }
    ensures count { IsCounted (stops_writing result) (S.faults out.old) (S.faults out.new) }
{
    let mut space = Space::empty(alloc)?;
    let mut report = Vec::new(alloc);
    for op in ops {
        run_one(alloc, &mut space, op, &mut report)?;
        if report.len() >= PIECE {
            write_all(out, &report)?;
            report.clear();
        }
    }
    write_all(out, &report)
}

/// Runs one operation, gives up the way back over it, and adds its reply's line.
fn run_one(alloc: Global, space: &mut Space, op: &Op, report: &mut Vec<u8>) -> Result<(), Want>
    requires op { IsOp op.now }
    requires trail { space.old.trail ≡ [] }
    ensures tuples { IfOk result (λ _. space.new.tuples ≡ (step op.now space.old.tuples).tuples) }
    ensures trail { IfOk result (λ _. space.new.trail ≡ []) }
    ensures report { IfOk result (λ _. report.new.items ≡ report.old.items ++ reply_line (step op.now space.old.tuples).reply) }
{
    let reply = space.run_op(CLIENT, op)?;
    space.forget();
    reply_text_put(alloc, report, &reply)?;
    report.push(b'\n')?;
    Ok(())
}
