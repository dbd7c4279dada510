//! The items, in records.
ghost use Rattle.std.specs.Prelude.{◌≡◌, ◌<◌, ◌++◌, ◌∷◌, [], map, true, length, option_map, slice_get, OnOk, OnErr, IsTrue};
ghost use Rattle.std.specs.Vec.{vec_len, vec_capacity};
ghost use Rattle.session_state.specs.Journal.{new_journal, reserved, pushed, are_equal_advances, is_run, runs, max_items};
ghost use Rattle.session_state.specs.Kept.{as_run, expanded, goes_on, put_behind, counted_on};

use ejson_value::{Mem, Text};
use session_journal_laws::Stored;
use std::alloc::Global;
use std::marker::Model;

/// An item, and the id that a print of it shows, if it shows one.
#[derive(Drop)]
pub struct Line {
    pub item: Stored,
    pub id: Option<Text>,
}

// So many equal items, one behind the other.
#[derive(Drop)]
struct Record {
    line: Line,
    count: u64,
}

/// The journal of a session: its items, and how many texts each has. A run of equal advances of one
/// subscription is kept as one record with a count.
#[derive(Drop)]
pub struct Journal {
    records: Vec<Record>,
    counts: Vec<usize>,
    // Whether there is room for one more item.
    has_room: bool,
}

impl Model for Journal {
    ghost use Rattle.session_state.specs.Journal.{AJournal};
    ghost use Rattle.session_state.specs.Kept.{journal_of, IsKept};

    ghost Value = { AJournal };

    ghost view = { journal_of };

    ghost invariant = { IsKept };
}

fn are_equal_advances(last: Stored, item: Stored) -> bool
    ensures { result ≡ are_equal_advances last item }
{
    match (last, item) {
        (Stored::Advance { sub: s, count: c }, Stored::Advance { sub, count }) => {
            s == sub && c == count
        }
        _ => false,
    }
}

// Whether the line goes on with the run of the last.
fn is_run(last: &Line, line: &Line) -> bool
    ensures { result ≡ is_run last.now line.now }
{
    are_equal_advances(last.item, line.item) && last.id.is_none() && line.id.is_none()
}

// Whether the last record goes on with the line.
fn goes_on(records: &[Record], line: &Line) -> bool
    ensures { result ≡ goes_on (map as_run records.now) line.now }
{
    match records.last() {
        Some(last) => is_run(&last.line, line),
        None => false,
    }
}

// The last record stands for one more.
fn count_on(records: &mut Vec<Record>)
    requires { length (expanded records.old.items) < max_items }
    ensures { records.new.items ≡ counted_on records.old.items }
{
    if let Some(last) = records.last_mut() {
        last.count += 1;
    }
}

// Puts the line behind the others, in the room that was made.
fn put(records: &mut Vec<Record>, line: Line)
    requires room { vec_len records.old < vec_capacity records.old }
    requires fits { length (expanded records.old.items) < max_items }
    ensures lines { expanded records.new.items ≡ expanded records.old.items ++ line ∷ [] }
    ensures runs { map as_run records.new.items ≡ put_behind (map as_run records.old.items) line }
{
    if goes_on(records.as_slice(), &line) {
        count_on(records);
    } else {
        records.push(Record { line, count: 1 }).unwrap();
    }
}

impl Journal {
    /// No items.
    pub fn new(alloc: Global) -> Journal
        ensures { result ≡ new_journal }
    {
        Journal {
            records: Vec::new(alloc),
            counts: Vec::new(alloc),
            has_room: false,
        }
    }

    /// How many items there are.
    pub fn len(&self) -> usize
        ensures { result ≡ length self.now.lines }
    {
        self.counts.len()
    }

    /// How many records there are: runs of equal neighbouring advances, and other items.
    pub fn records(&self) -> u64
        ensures { result ≡ length (runs self.now.lines) }
    {
        self.records.len() as u64
    }

    /// Makes room for one more item.
    pub fn reserve(&mut self) -> Result<(), Mem>
        ensures ok { OnOk result (self.new ≡ reserved self.old) }
        ensures err { OnErr result (self.new ≡ self.old) }
    {
        self.counts.reserve(1)?;
        self.records.reserve(1)?;
        self.has_room = true;
        Ok(())
    }

    /// Puts an item behind the others, in the room that was made; it has so many texts.
    pub fn push(&mut self, line: Line, count: usize)
        requires room { IsTrue self.old.has_room }
        requires fits { length self.old.lines < max_items }
        ensures { self.new ≡ pushed self.old line count }
    {
        put(&mut self.records, line);
        self.counts.push(count).unwrap();
        self.has_room = false;
    }

    /// How many texts each item has.
    pub fn counts(&self) -> &[usize]
        ensures { result.now ≡ self.now.counts }
    {
        self.counts.as_slice()
    }

    /// The record at this place: its item, and how many items it stands for.
    pub fn record(&self, place: usize) -> Option<(&Line, u64)>
        ensures { option_map (λ r. (r.0.now, r.1)) result ≡ slice_get (runs self.now.lines) place }
    {
        let record = self.records.get(place)?;
        Some((&record.line, record.count))
    }
}
