//! The lines of parts of the documents are written by threads, one each.
ghost use Rattle.std.specs.Prelude.{◌≡◌, ◌++◌, IfOk, OnOk};
ghost use Rattle.history_model.specs.Lines.{store_lines};
ghost use Rattle.history_log.specs.Rows.{pairs_in, document_lines};

use crate::rows::{Row, document_lines, rows_of};
use crate::store_line;
use ejson_codec::Lines;
use ejson_value::{Contents, Mem, Text};
use std::alloc::Global;
use std::thread::{Threads, join_mut};

// The lines of both parts.
fn joined(first: Vec<Text>, second: Vec<Text>) -> Result<Vec<Text>, Mem>
    ensures { IfOk result (λ lines. lines.items ≡ first.items ++ second.items) }
{
    let mut lines = first;
    let mut more = second;
    lines.append(&mut more)?;
    Ok(lines)
}

// Lines are written by a thread, while this one waits: a thread that has just been made may wait for the
// processor of the one that made it.
fn written_by_one<R: Threads>(rt: &R, alloc: Global, rows: &[Row<'_>]) -> Result<Vec<Text>, Mem>
    ensures { IfOk result (λ lines. lines.items ≡ document_lines (pairs_in rows.now)) }
{
    let mut write = || document_lines(alloc, rows);
    let mut wait = || {};
    let (lines, _) = join_mut(rt, &mut write, &mut wait);
    lines
}

// The same by two threads.
fn written_by_two<R: Threads>(rt: &R, alloc: Global, rows: &[Row<'_>]) -> Result<Vec<Text>, Mem>
    ensures { IfOk result (λ lines. lines.items ≡ document_lines (pairs_in rows.now)) }
{
    let middle = rows.len() / 2;
    let (now, later) = rows.split_at(middle);
    let mut write = || document_lines(alloc, now);
    let mut others = || written_by_one(rt, alloc, later);
    let (first, second) = join_mut(rt, &mut write, &mut others);
    joined(first?, second?)
}

// The same by three threads.
fn written_by_three<R: Threads>(rt: &R, alloc: Global, rows: &[Row<'_>]) -> Result<Vec<Text>, Mem>
    ensures { IfOk result (λ lines. lines.items ≡ document_lines (pairs_in rows.now)) }
{
    let middle = rows.len() / 3;
    let (now, later) = rows.split_at(middle);
    let mut write = || document_lines(alloc, now);
    let mut others = || written_by_two(rt, alloc, later);
    let (first, second) = join_mut(rt, &mut write, &mut others);
    joined(first?, second?)
}

// The same by four threads.
fn written_by_four<R: Threads>(rt: &R, alloc: Global, rows: &[Row<'_>]) -> Result<Vec<Text>, Mem>
    ensures { IfOk result (λ lines. lines.items ≡ document_lines (pairs_in rows.now)) }
{
    let middle = rows.len() / 4;
    let (now, later) = rows.split_at(middle);
    let mut write = || document_lines(alloc, now);
    let mut others = || written_by_three(rt, alloc, later);
    let (first, second) = join_mut(rt, &mut write, &mut others);
    joined(first?, second?)
}

// Puts the lines behind the others.
fn add_lines(lines: &mut Lines, more: Vec<Text>) -> Result<(), Mem>
    ensures { OnOk result (lines.new ≡ lines.old ++ more.items) }
{
    for line in more {
        lines.push(line)?;
    }
    Ok(())
}

/// What `store` prints of these documents behind a history of so many entries, the documents' lines written
/// by four threads of this runtime.
pub fn store_lines<R: Threads>(
    rt: &R,
    alloc: Global,
    entries: u64,
    contents: &Contents,
) -> Result<Lines, Mem>
    ensures { IfOk result (λ lines. lines ≡ store_lines entries contents.now) }
{
    let rows = rows_of(alloc, contents)?;
    let written = written_by_four(rt, alloc, rows.as_slice())?;
    let mut lines = Lines::new(alloc);
    lines.push(store_line(alloc, entries)?)?;
    add_lines(&mut lines, written)?;
    Ok(lines)
}
