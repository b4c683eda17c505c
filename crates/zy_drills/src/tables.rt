//! Runs a table: reads its file, goes over its lines, and prints the rows that differ and how many agree.

use crate::lines::{Row, Stage, run_line};
use std::{fs, io};

/// How many rows there are, and how many of them agree.
#[derive(Clone, Copy)]
struct Count {
    rows: usize,
    agree: usize,
}

/// Runs the table with this name. A file without rows prints nothing.
pub(crate) fn run_table(rt: &HostRuntime, table: &str, stage: &mut Stage) -> io::Result<()> {
    let file = fs::read_to_string(rt, table)?;
    let mut count = Count { rows: 0, agree: 0 };
    for line in file.split('\n') {
        count = counted(rt, table, line, run_line(rt.alloc(), stage, line), count)?;
    }
    if count.rows == 0 {
        return Ok(());
    }
    println!(rt; "{table}: {} of {} agree", count.agree, count.rows)
}

/// The count after a line. A line that can't be read is a row that differs.
fn counted(
    rt: &HostRuntime,
    table: &str,
    line: &str,
    done: io::Result<Option<Row>>,
    count: Count,
) -> io::Result<Count> {
    let agrees = match done {
        Ok(None) => return Ok(count),
        Ok(Some(row)) => is_as_wanted(rt, table, line, &row)?,
        Err(fault) => is_unread(rt, table, line, fault)?,
    };
    Ok(Count {
        rows: count.rows.saturating_add(1),
        agree: count.agree.saturating_add(usize::from(agrees)),
    })
}

/// Whether the answer is the wanted one. Prints the row if it isn't.
fn is_as_wanted(rt: &HostRuntime, table: &str, line: &str, row: &Row) -> io::Result<bool> {
    let agrees = row.got.as_str() == row.want.as_str();
    if !agrees {
        println!(rt; "{table}: {line}: {} and not {}", row.got, row.want)?;
    }
    Ok(agrees)
}

/// Never: the line is printed with what is wrong with it.
fn is_unread(rt: &HostRuntime, table: &str, line: &str, fault: io::Error) -> io::Result<bool> {
    println!(rt; "{table}: {line}: {fault}")?;
    Ok(false)
}
