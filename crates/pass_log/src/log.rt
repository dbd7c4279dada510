// The log, and the tokens: a writer, passes and notes.
ghost use Rattle.std.specs.Prelude.{◌≡◌, ◌<◌, ◌≤◌, ◌^◌, [], ◌∷◌, ◌++◌, length, false};
ghost use mathlib.Core.List.{IsPrefix};
ghost use Rattle.pass_log.specs.History.{IsToken, longer};

use crate::steps::{
    Added, Append, JoinIntoPass, JoinIntoWriter, Load, OneHistory, SplitFromPass, SplitFromWriter,
    View,
};
use atomic_table::{Seat, Table};
use std::alloc::{AllocError, Global};
use std::marker::{Brand, Model, PhantomData};

/// Which log it is. A type parameter with this bound stands for one log: whatever bears it belongs to that log.
pub trait LogName {
    ghost use Rattle.atomic_table.specs.Seated.{TableId};

    ghost log: { TableId };
}

impl LogName for Brand {
    ghost use Rattle.std.specs.Prelude.{[]};

    ghost log = { record { words = 0; slots = 0; views_name = 0; atom = 0; block = 0; offset = 0; slot_names = [] } };
}

/// A log with an empty history, which bears no name yet. Contracts see it as what tells it from every other log.
#[derive(Drop)]
pub struct Opened<E> {
    table: Table<u8, View<E>, (), OneHistory<E>, Global>,
    seat: Seat<u8, View<E>>,
}

impl<E> Model for Opened<E> {
    ghost use Rattle.std.specs.Prelude.{◌≡◌, []};
    ghost use Rattle.atomic_table.specs.Seated.{TableId, table_id_coded};
    ghost use Rattle.pass_log.specs.History.{writer_of};

    ghost Value = { TableId };

    ghost coded = { table_id_coded };

    ghost view = { λ o. o.table.shared.table_id };

    ghost invariant = { λ o. (o.table.shared.table_id.words ≡ 1) × (o.seat.table_id ≡ o.table.shared.table_id) × (o.seat.me ≡ (writer_of [], [])) };
}

impl<E> Opened<E> {
    /// A new log. It gets its name by `named`.
    pub fn make(alloc: Global) -> Result<Opened<E>, AllocError> {
        let (table, seat) = Table::of_words(alloc, &[0], &())?;
        Ok(Opened { table, seat })
    }

    /// The log under the name `N`, its writer, and a pass of it.
    pub fn named<N: LogName>(self) -> (Log<E, N>, Writer<E, N>, Pass<E, N>)
        requires { self ≡ N.log }
        ensures writer { result.1 ≡ [] }
        ensures pass { result.2 ≡ [] }
    {
        let Opened { table, seat } = self;
        let log = Log {
            table,
            name: PhantomData,
        };
        let mut writer = Writer {
            len: 0,
            seat,
            name: PhantomData,
        };
        let pass = writer.note(&log).pass();
        (log, writer, pass)
    }
}

/// What all tokens of the log `N` share: one word, the length of the history.
#[derive(Drop)]
pub struct Log<E, N: LogName> {
    table: Table<u8, View<E>, (), OneHistory<E>, Global>,
    name: PhantomData<N>,
    ghost one_word: { table.shared.table_id.words ≡ 1 },
    ghost named: { table.shared.table_id ≡ N.log },
}

/// The one writer of the log `N`. It stands for the whole history.
#[derive(Drop)]
pub struct Writer<E, N: LogName> {
    len: u64,
    seat: Seat<u8, View<E>>,
    name: PhantomData<N>,
}

impl<E, N: LogName> Model for Writer<E, N> {
    ghost use Rattle.std.specs.Prelude.{List, true};
    ghost use Rattle.pass_log.specs.History.{IsToken};

    ghost Value = { List E };

    ghost view = { λ w. w.seat.me.0.list };

    ghost invariant = { λ w. IsToken true N.log w.seat.table_id w.seat.me w.len };
}

impl<E, N: LogName> Writer<E, N> {
    /// Adds an entry to the history, and answers its place.
    pub fn append(&mut self, log: &Log<E, N>, entry: &E) -> u64
        requires { length self.old < 2 ^ 63 }
        ensures history { self.new ≡ self.old ++ entry.now ∷ [] }
        ensures place { result ≡ length self.old }
    {
        self.append_told::<Brand>(log, entry)
    }

    // A step sees no argument of the call that makes it, so the entry comes as the name of a type.
    fn append_told<A: Added<E>>(&mut self, log: &Log<E, N>, entry: &E) -> u64
        requires room { length self.old < 2 ^ 63 }
        requires added { A.entries ≡ entry.now ∷ [] }
        ensures history { self.new ≡ self.old ++ entry.now ∷ [] }
        ensures place { result ≡ length self.old }
    {
        let _entry = entry;
        self.append_as::<A>(log)
    }

    /// Adds the one entry that `A` names. No value of it is needed.
    pub fn append_as<A: Added<E>>(&mut self, log: &Log<E, N>) -> u64
        requires room { length self.old < 2 ^ 63 }
        requires one { length A.entries ≡ 1 }
        ensures history { self.new ≡ self.old ++ A.entries }
        ensures place { result ≡ length self.old }
    {
        let place = log
            .table
            .shared
            .fetch_add::<Append<A>>(&mut self.seat, 0, 1);
        self.len += 1;
        place
    }

    /// A note of the whole history as it is now.
    pub fn note(&mut self, log: &Log<E, N>) -> Note<E, N>
        ensures same { self.new ≡ self.old }
        ensures note { result ≡ self.old }
    {
        let seat = log
            .table
            .shared
            .split_seat::<SplitFromWriter>(&mut self.seat);
        Note::of(self.len, seat)
    }

    /// Takes a note. It tells the writer nothing new, and that the history begins with the note's list.
    pub fn meet(&mut self, log: &Log<E, N>, note: Note<E, N>)
        ensures same { self.new ≡ self.old }
        ensures longer { self.new ≡ longer self.old note }
        ensures note { IsPrefix note self.new }
    {
        let Pass {
            len: _,
            seat,
            name: _,
        } = note.pass();
        log.table
            .shared
            .join_seat::<JoinIntoWriter>(&mut self.seat, seat);
        let _ = log.table.shared.load::<Load>(&mut self.seat, 0);
    }
}

/// A token of the log `N` that stands for a prefix of the history.
#[derive(Drop)]
pub struct Pass<E, N: LogName> {
    len: u64,
    seat: Seat<u8, View<E>>,
    name: PhantomData<N>,
}

impl<E, N: LogName> Model for Pass<E, N> {
    ghost use Rattle.std.specs.Prelude.{List, false};
    ghost use Rattle.pass_log.specs.History.{IsToken};

    ghost Value = { List E };

    ghost view = { λ p. p.seat.me.0.list };

    ghost invariant = { λ p. IsToken false N.log p.seat.table_id p.seat.me p.len };
}

impl<E, N: LogName> Pass<E, N> {
    /// The length of the pass's own list.
    pub fn len(&self) -> u64
        ensures { result ≡ length self.now }
    {
        self.len
    }

    /// A note of the pass's list.
    pub fn note(&mut self, log: &Log<E, N>) -> Note<E, N>
        ensures same { self.new ≡ self.old }
        ensures note { result ≡ self.old }
    {
        let seat = log.table.shared.split_seat::<SplitFromPass>(&mut self.seat);
        Note::of(self.len, seat)
    }

    /// Takes a note: the pass now stands for the longer of the two lists, which begins with both.
    pub fn meet(&mut self, log: &Log<E, N>, note: Note<E, N>)
        ensures longer { self.new ≡ longer self.old note }
        ensures own { IsPrefix self.old self.new }
        ensures note { IsPrefix note self.new }
    {
        let Pass { len, seat, name: _ } = note.pass();
        log.table
            .shared
            .join_seat::<JoinIntoPass>(&mut self.seat, seat);
        let _ = log.table.shared.load::<Load>(&mut self.seat, 0);
        self.len = self.len.max(len);
    }

    /// The length of the history now. What stands there beyond the pass's own list, only a note can tell.
    pub fn confirm(&mut self, log: &Log<E, N>) -> u64
        ensures same { self.new ≡ self.old }
        ensures least { length self.old ≤ result }
    {
        log.table.shared.load::<Load>(&mut self.seat, 0)
    }
}

/// A prefix of the history of the log `N`, on its way to a writer or a pass that meets it once.
#[derive(Drop)]
pub struct Note<E, N: LogName> {
    pass: Pass<E, N>,
}

impl<E, N: LogName> Model for Note<E, N> {
    ghost use Rattle.std.specs.Prelude.{List};

    ghost Value = { List E };

    ghost view = { λ n. n.pass };
}

impl<E, N: LogName> Note<E, N> {
    fn of(len: u64, seat: Seat<u8, View<E>>) -> Note<E, N>
        requires { IsToken false N.log seat.table_id seat.me len }
        ensures { result ≡ seat.me.0.list }
    {
        let pass = Pass {
            len,
            seat,
            name: PhantomData,
        };
        Note { pass }
    }

    /// A pass with the note's list.
    pub fn pass(self) -> Pass<E, N>
        ensures { result ≡ self }
    {
        self.pass
    }
}
