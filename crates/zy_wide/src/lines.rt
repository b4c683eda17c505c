//! The lines of a calm schedule.

ghost use Rattle.std.specs.Prelude.{◌≡◌, ◌++◌, ◌+◌, ◌≤◌, All, IfOk, OnOk, codes, map};
ghost use Rattle.std.specs.List.{flat_map, range_with_len};
ghost use Rattle.zy_schedule.specs.Making.{numbered};
ghost use Rattle.zy_schedule.specs.Texts.{IsSaid};
ghost use Rattle.zy_wide.specs.Calm.{calm_lines, job_lines, mute_line};

use std::alloc::Global;
use zy_base::{Bytes, ClientId, Counts, Party, ReplicaId, Want};
use zy_schedule::Line;
use zy_tuple::{Field, Op, Tuple};

/// The lines of a calm schedule under these numbers: `mute` for each of the last `silent` replicas, the lowest first, and then for
/// each of `asks` jobs, numbered from 0, `ask c0 out ("job" I)` and `flow 2N`, N being the number of replicas.
pub fn calm(alloc: Global, counts: &Counts, silent: u64, asks: u32) -> Result<Vec<Line>, Want>
    requires few_silent { silent ≤ counts.now.f }
    requires some { 1 ≤ asks }
    requires in_one_window { asks ≤ 31 }
    ensures lines { IfOk result (λ lines. lines.items ≡ calm_lines counts.now.n silent asks) }
    ensures said { IfOk result (λ lines. All IsSaid lines.items) }
{
    let mut lines = Vec::new(alloc);
    put_mutes(&mut lines, counts.n - silent, silent)?;
    put_jobs(alloc, &mut lines, counts.n, asks)?;
    Ok(lines)
}

/// Puts a `mute` for each of so many replicas, from the first on.
fn put_mutes(lines: &mut Vec<Line>, first: u64, silent: u64) -> Result<(), Want>
    requires { first + silent ≤ 16 }
    ensures { OnOk result (lines.new.items ≡ lines.old.items ++ map mute_line (range_with_len first silent)) }
{
    for place in 0..silent {
        let id = ReplicaId((first + place) as u8);
        lines.push(Line::Mute(Party::Replica(id)))?;
    }
    Ok(())
}

/// Puts so many jobs, each with its flow.
fn put_jobs(alloc: Global, lines: &mut Vec<Line>, n: u64, asks: u32) -> Result<(), Want>
    requires { n ≤ 16 }
    ensures { OnOk result (lines.new.items ≡ lines.old.items ++ flat_map (job_lines n) (range_with_len 0 asks)) }
{
    for number in 0..asks {
        put_job(alloc, lines, n, number)?;
    }
    Ok(())
}

fn put_job(alloc: Global, lines: &mut Vec<Line>, n: u64, number: u32) -> Result<(), Want>
    requires { n ≤ 16 }
    ensures { OnOk result (lines.new.items ≡ lines.old.items ++ job_lines n number) }
{
    let op = Op::Out(job(alloc, number)?);
    let client = ClientId(0);
    lines.push(Line::Ask { client, op })?;
    lines.push(Line::Flow(2 * n))?;
    Ok(())
}

/// The tuple `("job" N)`.
fn job(alloc: Global, number: u32) -> Result<Tuple, Want>
    ensures { IfOk result (λ tuple. tuple ≡ numbered (codes "job") number) }
{
    let name = Bytes::from_slice(alloc, b"job")?;
    let mut fields = Vec::new(alloc);
    fields.push(Field::Text(name))?;
    fields.push(Field::Int(i64::from(number)))?;
    Ok(Tuple::from(fields))
}
