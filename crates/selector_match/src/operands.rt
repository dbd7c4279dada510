//! The operands of `$in`, `$nin` and `$all`.
ghost use Rattle.std.specs.Prelude.{◌≡◌, ◌<◌, length, slice_index_or, unwrap_or, false, IfOk, MatchOption};
ghost use Rattle.std.specs.List.{list_any};
ghost use Rattle.value_model.specs.Val.{null};
ghost use Rattle.ejson_value.specs.View.{views};
ghost use Rattle.selector_match.specs.Holds.{equals, is_empty};
ghost use Rattle.selector_match.specs.Reached.{reached_view};
ghost use Rattle.selector_match.specs.Operands.{picked, IsRising, PassAlike};

use crate::reached::{Reached, order_from};
use ejson_value::{Items, Mem, Value, compare, copy};
use std::alloc::Global;
use std::marker::Model;

// Operands in their order, each once, and the place there of each as they were written. A contract
// sees them as they were written.
#[derive(Drop)]
pub(crate) struct Operands {
    sorted: Vec<Value>,
    places: Vec<usize>,
}

impl Model for Operands {
    ghost use Rattle.std.specs.Prelude.{List};
    ghost use Rattle.std.specs.Coded.{coded_list};
    ghost use Rattle.value_model.specs.Val.{Val};
    ghost use Rattle.value_model.specs.Coding.{val_code};

    ghost Value = { List Val };

    ghost coded = { coded_list val_code };

    ghost use Rattle.ejson_value.specs.View.{views};
    ghost use Rattle.selector_match.specs.Operands.{picked, IsRising, PassAlike};

    ghost view = { λ a. picked (views a.sorted.items) a.places.items };

    ghost invariant = { λ a. IsRising (views a.sorted.items) × PassAlike (picked (views a.sorted.items) a.places.items) (views a.sorted.items) };
}

fn copies(alloc: Global, values: &[Value]) -> Result<Vec<Value>, Mem>
    ensures { IfOk result (λ vs. views vs.items ≡ views values.now) }
{
    let mut copied = Vec::new(alloc);
    for value in values {
        copied.push(copy(value)?)?;
    }
    Ok(copied)
}

// The values in their order, each once.
fn in_order(values: Vec<Value>) -> Vec<Value>
    ensures rising { IsRising (views result.items) }
    ensures alike { PassAlike (views values.items) (views result.items) }
{
    let mut values = values;
    values.sort_unstable_by(|a, b| compare(a, b));
    values.dedup_by(|a, b| compare(a, b).is_eq());
    values
}

// The place of the value that equals what was reached, found by halves.
pub(crate) fn place_of(rising: &[Value], reached: Reached) -> Option<usize>
    requires { IsRising (views rising.now) }
    ensures { MatchOption result (list_any (λ v. equals v (reached_view reached.entry)) (views rising.now) ≡ false)
        (λ k. (k < length rising.now) × (slice_index_or (views rising.now) k null ≡ unwrap_or (reached_view reached.entry) null)) }
{
    match rising.binary_search_by(|value| order_from(value, reached)) {
        Ok(place) => Some(place),
        Err(_) => None,
    }
}

fn places_of(alloc: Global, rising: &[Value], written: &[Value]) -> Result<Vec<usize>, Mem>
    requires rising { IsRising (views rising.now) }
    requires alike { PassAlike (views written.now) (views rising.now) }
    ensures { IfOk result (λ ks. picked (views rising.now) ks.items ≡ views written.now) }
{
    let mut places = Vec::new(alloc);
    for value in written {
        match place_of(rising, Reached::Value(value)) {
            None => unreachable!(),
            Some(place) => places.push(place)?,
        }
    }
    Ok(places)
}

impl Operands {
    pub(crate) fn read(alloc: Global, written: &Items) -> Result<Operands, Mem>
        ensures { IfOk result (λ os. os ≡ written.now) }
    {
        let sorted = in_order(copies(alloc, written.as_slice())?);
        let places = places_of(alloc, sorted.as_slice(), written.as_slice())?;
        Ok(Operands { sorted, places })
    }

    // The operands in their order, each once.
    pub(crate) fn rising(&self) -> &[Value]
        ensures rising { IsRising (views result.now) }
        ensures alike { PassAlike self.now (views result.now) }
    {
        self.sorted.as_slice()
    }

    pub(crate) fn is_empty(&self) -> bool
        ensures { result ≡ is_empty self.now }
    {
        self.places.is_empty()
    }

    pub(crate) fn has(&self, reached: Reached) -> bool
        ensures { result ≡ list_any (λ v. equals v (reached_view reached.entry)) self.now }
    {
        place_of(self.rising(), reached).is_some()
    }

    pub(crate) fn copy(&self) -> Result<Operands, Mem>
        ensures { IfOk result (λ os. os ≡ self.now) }
    {
        let alloc = *self.places.allocator();
        Ok(Operands {
            sorted: copies(alloc, self.sorted.as_slice())?,
            places: self.places.clone()?,
        })
    }
}
