//! Schedules that are made from a number.

ghost use Rattle.std.specs.Prelude.{◌≡◌, ◌++◌, ◌*◌, ◌<◌, ◌^◌, All, IfOk, OnOk, length};
ghost use Rattle.zy_schedule.specs.Making as making;
ghost use Rattle.zy_schedule.specs.Texts.{IsSaid};

use crate::Line;
use std::alloc::Global;
use zy_base::{Bytes, ClientId, Want};
use zy_tuple::{Field, Op, Slot, Template, Tuple};

/// Numbers of 31 bits are drawn.
const MODULUS: u64 = 1 << 31;

/// How many clients ask in turn.
const CLIENTS: u32 = 4;

/// How many deliveries may follow an ask.
const FLOW: u64 = 1_000;

/// The schedule of so many asks that a number makes. Four clients ask in turn, each for what is drawn: `out ("job" N)`,
/// `rdp ("job" *)`, `inp ("job" *)` or `cas ("lock" *) ("lock" N)`, where N counts the asks from 0; and behind each ask it flows.
pub fn make(alloc: Global, number: u32, asks: u32) -> Result<Vec<Line>, Want>
    ensures made { IfOk result (λ lines. lines.items ≡ making.made_lines number asks) }
    ensures said { IfOk result (λ lines. All IsSaid lines.items) }
    ensures two_each { IfOk result (λ lines. length lines.items ≡ 2 * asks) }
{
    let mut lines = Vec::new(alloc);
    let mut draw = u64::from(number) % MODULUS;
    for n in 0..asks {
        draw = next_number(draw);
        put_ask(alloc, &mut lines, draw, n)?;
    }
    Ok(lines)
}

fn next_number(n: u64) -> u64
    requires { n < 2 ^ 31 }
    ensures next { result ≡ making.next_number n }
    ensures below { result < 2 ^ 31 }
{
    (n * 1_103_515_245 + 12_345) % MODULUS
}

/// Puts the ask with this number, for which this was drawn.
fn put_ask(alloc: Global, lines: &mut Vec<Line>, draw: u64, n: u32) -> Result<(), Want>
    ensures { OnOk result (lines.new.items ≡ lines.old.items ++ making.lines_of_ask draw n) }
{
    let op = op_of(alloc, draw / 65_536 % 4, n)?;
    let client = ClientId(n % CLIENTS);
    lines.push(Line::Ask { client, op })?;
    lines.push(Line::Flow(FLOW))?;
    Ok(())
}

fn op_of(alloc: Global, kind: u64, n: u32) -> Result<Op, Want>
    ensures { IfOk result (λ op. op ≡ making.op_of kind n) }
{
    match kind {
        0 => Ok(Op::Out(numbered(alloc, b"job", n)?)),
        1 => Ok(Op::Rdp(any_numbered(alloc, b"job")?)),
        2 => Ok(Op::Inp(any_numbered(alloc, b"job")?)),
        _ => Ok(Op::Cas(any_numbered(alloc, b"lock")?, numbered(alloc, b"lock", n)?)),
    }
}

/// The tuple of a name and a number.
fn numbered(alloc: Global, name: &[u8], n: u32) -> Result<Tuple, Want>
    ensures { IfOk result (λ tuple. tuple ≡ making.numbered name.now n) }
{
    let name = Bytes::from_slice(alloc, name)?;
    let mut fields = Vec::new(alloc);
    fields.push(Field::Text(name))?;
    fields.push(Field::Int(i64::from(n)))?;
    Ok(Tuple::from(fields))
}

/// The template of a name with any number.
fn any_numbered(alloc: Global, name: &[u8]) -> Result<Template, Want>
    ensures { IfOk result (λ template. template ≡ making.any_numbered name.now) }
{
    let name = Bytes::from_slice(alloc, name)?;
    let mut slots = Vec::new(alloc);
    slots.push(Slot::Is(Field::Text(name)))?;
    slots.push(Slot::Any)?;
    Ok(Template::from(slots))
}
