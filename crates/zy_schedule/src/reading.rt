//! Schedules and scripts.

ghost use Rattle.std.specs.Prelude.{◌≡◌, Ok, All, IfOk, List};
ghost use Rattle.std.specs.List.{AllZip};
ghost use Rattle.zy_schedule.specs.Lines.{IsOpLine, IsTextRead, said_lines, script_of};
ghost use Rattle.zy_schedule.specs.Reading.{line_read, schedule_of, worded_read};
ghost use Rattle.zy_schedule.specs.Texts.{IsSaid, IsScheduleLine};
ghost use Rattle.zy_tuple.specs.Reading.{Gives, op_read};
ghost use Rattle.zy_tuple.specs.Values.{IsOp};
ghost use Rattle.zy_tuple.specs.declared.values.Op as ops;
ghost use Rattle.zy_schedule.specs.declared.line.Line as schedule;

use crate::lines::{FromLine, read_text};
use crate::parts::first_word;
use crate::{Line, ScheduleFault, forms};
use std::alloc::Global;
use zy_tuple::{LineFault, Op, op_text_read};

impl FromLine for Op {
    ghost said = { op_read };

    fn read(alloc: Global, line: &[u8]) -> Result<Op, LineFault> {
        op_text_read(alloc, line)
    }
}

impl FromLine for Line {
    ghost said = { line_read };

    #[tactic(auto, unfolding(crate::specs::Reading::line_read))]
    fn read(alloc: Global, line: &[u8]) -> Result<Line, LineFault> {
        let (word, rest) = first_word(line);
        worded(alloc, word, rest)
    }
}

/// The line with this first word.
#[tactic(auto, unfolding(crate::specs::Reading::worded_read))]
fn worded(alloc: Global, word: &[u8], rest: &[u8]) -> Result<Line, LineFault>
    ensures { Gives (λ x. x) result (worded_read word.now rest.now) }
{
    if word == b"ask".as_slice() {
        forms::ask(alloc, rest)
    } else if word == b"deliver".as_slice() {
        forms::deliver(rest)
    } else if word == b"timer".as_slice() {
        forms::timer(rest)
    } else if word == b"order".as_slice() {
        forms::order(alloc, rest)
    } else if word == b"spec".as_slice() {
        forms::spec(alloc, rest)
    } else if word == b"statement".as_slice() {
        forms::statement(alloc, rest)
    } else if word == b"raw".as_slice() {
        forms::raw(alloc, rest)
    } else if word == b"forge".as_slice() {
        forms::forge(alloc, rest)
    } else if word == b"flow".as_slice() {
        forms::flow(rest)
    } else if word == b"drop".as_slice() {
        forms::drop(rest)
    } else if word == b"mute".as_slice() {
        forms::mute(rest)
    } else if word == b"unmute".as_slice() {
        forms::unmute(rest)
    } else {
        Err(LineFault::Rule(1))
    }
}

/// The lines of a schedule. Lines end with a line feed, which the last may lack; an empty line, or one that begins
/// with `#`, says nothing. `Text` names the first other line that is no line of a schedule, counted from 1 with
/// those that say nothing.
pub fn read_schedule(alloc: Global, bytes: &[u8]) -> Result<Vec<Line>, ScheduleFault>
    // What is read are the lines whose texts stand there.
    ensures found { IfOk result (λ lines. AllZip IsScheduleLine lines.items (said_lines bytes.now)) }
    ensures said { IfOk result (λ lines. All IsSaid lines.items) }
    // Where the texts of lines stand there, they are read, unless memory runs out.
    ensures only { (lines : List schedule.Line) → AllZip IsScheduleLine lines (said_lines bytes.now) → IsTextRead (Ok lines) result }
    // Which line and which rule it is.
    ensures exact { IsTextRead (schedule_of bytes.now) result }
{
    read_text(alloc, bytes)
}

/// The operations of a script, one on a line, between lines that say nothing. `Text` names the first other line
/// that is no operation's text.
pub fn read_script(alloc: Global, bytes: &[u8]) -> Result<Vec<Op>, ScheduleFault>
    ensures found { IfOk result (λ ops. AllZip IsOpLine ops.items (said_lines bytes.now)) }
    ensures ops { IfOk result (λ ops. All IsOp ops.items) }
    ensures only { (ops : List ops.Op) → AllZip IsOpLine ops (said_lines bytes.now) → IsTextRead (Ok ops) result }
    ensures exact { IsTextRead (script_of bytes.now) result }
{
    read_text(alloc, bytes)
}
