//! The berths, and who takes from them.
ghost use Rattle.std.specs.Prelude.{◌≡◌, ◌<◌, [], ◌∷◌, MatchBool, None, Some, length, map, IfOk};
ghost use Rattle.berths.specs.Kept.{Holds, AllFit};

use crate::steps::{Copy, EachFits, Fits, Lock, Unlock};
use atomic_table::{Seat, Table};
use std::alloc::{AllocError, Global};
use std::marker::{Brand, Model, PhantomData};
use std::sync::Wait;
use std::thread;

/// By which berths are told from all others.
pub trait BerthsName {
    ghost use Rattle.atomic_table.specs.Seated.{TableId};

    ghost berths: { TableId };
}

impl BerthsName for Brand {
    ghost use Rattle.std.specs.Prelude.{[]};

    ghost berths = { record { words = 0; slots = 0; views_name = 0; atom = 0; block = 0; offset = 0; slot_names = [] } };
}

/// Berths without a name. Contracts see what tells them from all others.
#[derive(Drop)]
pub struct Built<T: Fits> {
    table: Table<Option<T>, u8, (), EachFits<T>, Global>,
    seat: Seat<Option<T>, u8>,
}

impl<T: Fits> Model for Built<T> {
    ghost use Rattle.std.specs.Prelude.{◌≡◌, []};
    ghost use Rattle.atomic_table.specs.Seated.{TableId, table_id_coded};

    ghost Value = { TableId };

    ghost coded = { table_id_coded };

    ghost view = { λ o. o.table.shared.table_id };

    ghost invariant = { λ o. (o.table.shared.table_id.words ≡ o.table.shared.table_id.slots) × (o.seat.table_id ≡ o.table.shared.table_id)
        × (o.seat.me.1 ≡ []) };
}

fn filled<T: Drop>(alloc: Global, values: Vec<T>) -> Result<Vec<Option<T>>, AllocError>
    ensures { IfOk result (λ v. v.items ≡ map Some values.items) }
{
    let mut slots = Vec::new(alloc);
    slots.reserve(values.len())?;
    for value in values {
        slots.push(Some(value))?;
    }
    Ok(slots)
}

impl<T: Fits + Drop> Built<T> {
    /// Berths for these values, each in its place.
    pub fn make(alloc: Global, values: Vec<T>) -> Result<Built<T>, AllocError>
        requires { AllFit T.fits values.items }
        ensures { IfOk result (λ b. b.slots ≡ length values.items) }
    {
        let words = vec![in alloc; 1u64; values.len()]?;
        let slots = filled(alloc, values)?;
        match Table::new(alloc, words.as_slice(), slots, &()) {
            Ok((table, seat)) => Ok(Built { table, seat }),
            Err(_) => Err(AllocError),
        }
    }

    /// The berths under the name `B`, and a hand that takes from them.
    pub fn named<B: BerthsName>(self) -> (Berths<T, B>, Hand<T, B>)
        requires { self ≡ B.berths }
    {
        let Built { table, seat } = self;
        let berths = Berths {
            table,
            name: PhantomData,
        };
        let hand = Hand {
            seat,
            name: PhantomData,
        };
        (berths, hand)
    }
}

/// Berths, which threads share: one value each, which fits its berth.
#[derive(Drop)]
pub struct Berths<T: Fits, B: BerthsName> {
    table: Table<Option<T>, u8, (), EachFits<T>, Global>,
    name: PhantomData<B>,
    ghost named: { table.shared.table_id ≡ B.berths },
    ghost one_each: { table.shared.table_id.words ≡ table.shared.table_id.slots },
}

/// A hand that holds nothing: each thread has one of its own.
#[derive(Drop)]
pub struct Hand<T, B: BerthsName> {
    seat: Seat<Option<T>, u8>,
    name: PhantomData<B>,
    ghost named: { seat.table_id ≡ B.berths },
    ghost empty: { seat.me.1 ≡ [] },
}

/// The right to put a value back into the berth from which one was taken. Where it is let go, that berth stays empty.
#[derive(Drop)]
pub struct Taken<T, B: BerthsName> {
    /// The berth's place, from 0.
    pub place: usize,
    seat: Seat<Option<T>, u8>,
    name: PhantomData<B>,
    ghost named: { seat.table_id ≡ B.berths },
    ghost within: { place < B.berths.slots },
    ghost out: { seat.me.1 ≡ (place, None) ∷ [] },
}

impl<T: Fits + Drop, B: BerthsName> Berths<T, B> {
    /// How many berths there are.
    pub fn len(&self) -> usize
        ensures { result ≡ B.berths.slots }
    {
        self.table.slot_count()
    }

    /// One more hand.
    pub fn another(&self, hand: &mut Hand<T, B>) -> Hand<T, B>
        requires { 0 < B.berths.slots }
    {
        let seat = self.table.shared.split_seat::<Copy>(&mut hand.seat);
        Hand {
            seat,
            name: PhantomData,
        }
    }

    // Takes the right to the berth's value, where no other hand has it.
    fn try_lock(&self, seat: &mut Seat<Option<T>, u8>, place: usize) -> bool
        requires { (seat.old.table_id ≡ B.berths) × (place < B.berths.slots) × (seat.old.me.1 ≡ []) }
        ensures named { seat.new.table_id ≡ B.berths }
        ensures took { MatchBool result (Holds T.fits place seat.new.me.1) (seat.new.me.1 ≡ []) }
    {
        self.table
            .shared
            .compare_exchange::<Lock<T>>(seat, place, 1, 0)
            == 1
    }

    // Takes the value to which the seat has the right.
    fn lift(&self, mut seat: Seat<Option<T>, u8>, place: usize) -> (T, Taken<T, B>)
        requires named { seat.table_id ≡ B.berths }
        requires within { place < B.berths.slots }
        requires took { Holds T.fits place seat.me.1 }
        ensures fits { T.fits place result.0 }
        ensures place { result.1.place ≡ place }
    {
        let Some(value) = self.table.shared.exchange(&mut seat, place, None) else {
            unreachable!()
        };
        let taken = Taken {
            place,
            seat,
            name: PhantomData,
        };
        (value, taken)
    }

    /// The value of the berth, and the right to put one back. The hand comes back where another one has the value now.
    pub fn try_take(&self, hand: Hand<T, B>, place: usize) -> Result<(T, Taken<T, B>), Hand<T, B>>
        requires { place < B.berths.slots }
        ensures fits { IfOk result (λ taken. T.fits place taken.0) }
        ensures place { IfOk result (λ taken. taken.1.place ≡ place) }
    {
        let Hand { mut seat, name: _ } = hand;
        if self.try_lock(&mut seat, place) {
            Ok(self.lift(seat, place))
        } else {
            Err(Hand {
                seat,
                name: PhantomData,
            })
        }
    }

    /// The value of the berth, once no other hand has it, and the right to put one back.
    pub fn take<R: Wait>(&self, rt: &R, hand: Hand<T, B>, place: usize) -> (T, Taken<T, B>)
        requires { place < B.berths.slots }
        ensures fits { T.fits place result.0 }
        ensures place { result.1.place ≡ place }
    {
        let mut hand = hand;
        for _ in rt.forever() {
            match self.try_take(hand, place) {
                Ok(taken) => return taken,
                Err(back) => hand = back,
            }
            thread::yield_now();
        }
        unreachable!()
    }

    /// Puts a value into the berth from which the last one was taken.
    pub fn put(&self, taken: Taken<T, B>, value: T) -> Hand<T, B>
        requires { T.fits taken.place value }
    {
        let Taken {
            place,
            mut seat,
            name: _,
        } = taken;
        let _ = self.table.shared.exchange(&mut seat, place, Some(value));
        self.table.shared.store::<Unlock>(&mut seat, place, 1);
        Hand {
            seat,
            name: PhantomData,
        }
    }
}
