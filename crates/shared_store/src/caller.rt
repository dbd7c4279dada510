//! The callers of a store, and what each made.
ghost use Rattle.std.specs.Prelude.{◌≡◌, ◌≤◌, ◌<◌, [], true, not, None, Some, is_some, IfOk, IfSome, OnErr};
ghost use mathlib.Core.List.{IsPrefix};
ghost use Rattle.shared_store.specs.Counting.{made_by};
ghost use Rattle.shared_store.specs.Callers.{is_given, is_out, out_of, returned, place_of, given_to};

use crate::given::Given;
use ejson_value::Mem;
use pass_log::{Log, Pass};
use std::alloc::Global;
use std::marker::Model;
use std::sync::ledger::Share;
use store_machine::Entry;
use store_name::StoreName;

/// Who makes entries of one number: the calls of the session with this number, or for 0 the operations. What it made is
/// counted, and a pass of its own has at least these entries.
#[derive(Drop)]
pub struct Caller<N: StoreName> {
    pub(crate) number: u32,
    pub(crate) made: u64,
    pub(crate) pass: Pass<Entry, N>,
    pub(crate) share: Share<N>,
}

impl<N: StoreName> Model for Caller<N> {
    ghost use Rattle.std.specs.Coded.{codes};
    ghost use Rattle.value_model.specs.Coding.{val_code};
    ghost use Rattle.shared_store.specs.Callers.{ACaller, IsCounting};

    ghost Value = { ACaller };

    ghost coded = { Prim.hlevel (codes, val_code) };

    ghost view = { λ c. record { number = c.number; made = c.made; list = c.pass } };

    ghost invariant = { λ c. IsCounting c.number c.made c.pass c.share.parts c.share.amount };
}

impl<N: StoreName> Caller<N> {
    /// The caller's number.
    pub fn number(&self) -> u32
        ensures { result ≡ self.now.number }
    {
        self.number
    }

    /// How many entries it made. Its pass has them.
    pub fn made(&self) -> u64
        ensures made { result ≡ self.now.made }
        ensures backed { self.now.made ≤ made_by self.now.number self.now.list }
    {
        self.made
    }
}

/// The callers that were made, with what each made that is back.
#[derive(Drop)]
pub struct Callers<N: StoreName> {
    pub(crate) out: u64,
    pub(crate) given: Vec<Given>,
    pub(crate) pass: Pass<Entry, N>,
    pub(crate) share: Share<N>,
}

impl<N: StoreName> Model for Callers<N> {
    ghost use Rattle.std.specs.Coded.{codes};
    ghost use Rattle.value_model.specs.Coding.{val_code};
    ghost use Rattle.shared_store.specs.Callers.{SomeCallers, AreCounted};

    ghost Value = { SomeCallers };

    ghost coded = { Prim.hlevel (codes, val_code) };

    ghost view = { λ c. record { given = c.given.items; list = c.pass } };

    ghost invariant = { λ c. AreCounted c.out c.given.items c.pass c.share.parts c.share.amount };
}

// The place of a number among those given out.
fn place_of(given: &[Given], number: u32) -> Option<usize>
    ensures { result ≡ place_of number given.now }
{
    for (place, one) in given.iter().enumerate() {
        if one.number == number {
            return Some(place);
        }
    }
    None
}

impl<N: StoreName> Callers<N> {
    /// No caller was made.
    pub(crate) fn new(alloc: Global, pass: Pass<Entry, N>, share: Share<N>) -> Callers<N>
        requires parts { share.parts ≡ 65537 }
        requires amount { share.amount ≡ 0 }
        ensures { result ≡ record { given = []; list = pass } }
    {
        Callers {
            out: 0,
            given: Vec::new(alloc),
            pass,
            share,
        }
    }

    /// How many callers were made and are not back.
    pub fn out(&self) -> u64
        ensures { result ≡ out_of self.now.given }
    {
        self.out
    }

    /// A caller of this number. None where one was made before.
    pub fn caller(&mut self, log: &Log<Entry, N>, number: u32) -> Result<Option<Caller<N>>, Mem>
        requires { out_of self.old.given < 65536 }
        ensures none { IfOk result (λ caller. is_some caller ≡ not (is_given number self.old.given)) }
        ensures caller { IfOk result (λ caller. IfSome caller (λ c. (c.number ≡ number) × (c.made ≡ 0) × (c.list ≡ self.old.list))) }
        ensures given { IfOk result (λ caller. self.new.given ≡ given_to number (is_some caller) self.old.given) }
        ensures list { self.new.list ≡ self.old.list }
        ensures same { OnErr result (self.new ≡ self.old) }
    {
        if place_of(self.given.as_slice(), number).is_some() {
            return Ok(None);
        }
        self.given.push(Given { number, made: None })?;
        self.out += 1;
        let pass = self.pass.note(log).pass();
        let share = self.share.split_off(1, 0);
        Ok(Some(Caller {
            number,
            made: 0,
            pass,
            share,
        }))
    }

    /// A caller is back.
    pub fn back(&mut self, log: &Log<Entry, N>, caller: Caller<N>)
        requires { is_out caller.number self.old.given ≡ true }
        ensures given { self.new.given ≡ returned caller.number caller.made self.old.given }
        ensures begins { IsPrefix self.old.list self.new.list }
        ensures caller { IsPrefix caller.list self.new.list }
    {
        let Caller {
            number,
            made,
            mut pass,
            share,
        } = caller;
        let note = pass.note(log);
        self.pass.meet(log, note);
        self.share.merge(share);
        back_at(&mut self.given, number, made);
        self.out -= 1;
    }
}

// The caller of this number is back.
fn back_at(given: &mut Vec<Given>, number: u32, made: u64)
    ensures { given.new.items ≡ returned number made given.old.items }
{
    if let Some(place) = place_of(given.as_slice(), number) {
        given[place] = Given {
            number,
            made: Some(made),
        };
    }
}
