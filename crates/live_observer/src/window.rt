//! The window of a cursor with a limit.
ghost use Rattle.std.specs.Prelude.{◌≡◌, ◌+◌, ◌*◌, ◌≤◌, [], Some, length, IfOk, OnOk};
ghost use Rattle.map_model.specs.Maps.{set};
ghost use Rattle.value_model.specs.Order.{text_cmp};
ghost use Rattle.ejson_value.specs.Rows.{rows_of};
ghost use Rattle.sort_window.specs.Windows.{IsPlan};
ghost use Rattle.live_observer.specs.Noting.{row_at, news_with, all_news, put_row, put_rows, rows_with, window_with};

use crate::shown::{row, row_if};
use ejson_value::{Change, Contents, Doc, Mem, Text};
use publication::Cursor;
use selector_match::{Steps, holds};
use sort_window::{Moves, Rows, Window};
use std::alloc::Global;
use std::sync::ledger::Ledger;

// News of the id of a change in the cursor's collection.
fn add_own<L: Ledger>(
    alloc: Global,
    news: &mut Rows,
    cursor: &Cursor,
    change: &Change,
    steps: &mut Steps<L>,
) -> Result<(), Mem>
    ensures value { OnOk result (news.new ≡ set text_cmp news.old change.now.key.id (Some (row_at cursor.now change.now.key.id change.now.after))) }
    ensures grows { steps.old ≤ steps.new }
    ensures ticks { steps.new ≤ steps.old + 1 }
{
    let row = row_if(alloc, cursor, &change.key.id, &change.after, steps)?;
    news.push(change.key.id.copy()?, row)
}

fn add<L: Ledger>(
    alloc: Global,
    news: &mut Rows,
    cursor: &Cursor,
    change: &Change,
    steps: &mut Steps<L>,
) -> Result<(), Mem>
    ensures value { OnOk result (news.new ≡ news_with cursor.now news.old change.now) }
    ensures grows { steps.old ≤ steps.new }
    ensures ticks { steps.new ≤ steps.old + 1 }
{
    if cursor.collection == change.key.collection {
        add_own(alloc, news, cursor, change, steps)
    } else {
        Ok(())
    }
}

fn add_all<L: Ledger>(
    alloc: Global,
    news: &mut Rows,
    cursor: &Cursor,
    changes: &[Change],
    steps: &mut Steps<L>,
) -> Result<(), Mem>
    ensures value { OnOk result (news.new ≡ all_news cursor.now news.old changes.now) }
    ensures grows { steps.old ≤ steps.new }
    ensures ticks { steps.new ≤ steps.old + length changes.now }
{
    for change in changes {
        add(alloc, news, cursor, change, steps)?;
    }
    Ok(())
}

/// What becomes of the cursor's window as the contents change.
pub(crate) fn moves<L: Ledger>(
    alloc: Global,
    window: &Window,
    cursor: &Cursor,
    changes: &[Change],
    steps: &mut Steps<L>,
) -> Result<Moves, Mem>
    ensures plan { IfOk result (λ moves. IsPlan window.now (all_news cursor.now [] changes.now) moves) }
    ensures grows { steps.old ≤ steps.new }
    ensures ticks { steps.new ≤ steps.old + length changes.now }
{
    let mut news = Rows::new(alloc);
    add_all(alloc, &mut news, cursor, changes, steps)?;
    window.plan(&news)
}

// News of a document of the cursor's collection, if it matches.
fn put_row(alloc: Global, news: &mut Rows, cursor: &Cursor, id: &Text, doc: &Doc) -> Result<(), Mem>
    ensures { OnOk result (news.new ≡ put_row cursor.now news.old id.now doc.now) }
{
    if holds(&cursor.selector, id, doc) {
        let row = row(alloc, cursor, doc)?;
        news.push(id.copy()?, Some(row))
    } else {
        Ok(())
    }
}

fn put_rows(alloc: Global, news: &mut Rows, cursor: &Cursor, all: &Contents) -> Result<(), Mem>
    ensures { OnOk result (news.new ≡ put_rows cursor.now news.old (rows_of cursor.now.collection all.now)) }
{
    for (key, doc) in all.of_collection(&cursor.collection)? {
        put_row(alloc, news, cursor, &key.id, doc)?;
    }
    Ok(())
}

// Fills a window of no rows with the news.
fn fill(window: &mut Window, news: &Rows) -> Result<(), Mem>
    ensures { OnOk result (window.new ≡ window_with window.old news.now) }
{
    let moves = window.plan(news)?;
    window.commit(moves);
    Ok(())
}

/// A window of the documents that match.
pub(crate) fn filled(
    alloc: Global,
    cursor: &Cursor,
    limit: u32,
    all: &Contents,
) -> Result<Window, Mem>
    ensures { IfOk result (λ window. window ≡
        record { sort = cursor.now.sort; limit = limit; rows = rows_with [] (put_rows cursor.now [] (rows_of cursor.now.collection all.now)) }) }
{
    let mut news = Rows::new(alloc);
    put_rows(alloc, &mut news, cursor, all)?;
    let mut window = Window::new(alloc, cursor.sort.copy()?, limit);
    fill(&mut window, &news)?;
    Ok(window)
}
