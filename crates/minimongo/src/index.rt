//! The keys that each simulation holds.
ghost use Rattle.std.specs.Prelude.{◌≡◌, ℕ, true, None, OnOk, IfNone, IfSome, IfOk, ◌||◌};
ghost use Rattle.std.specs.List.Sorted.{IsStrictlySortedBy};
ghost use Rattle.std.specs.Ordering.{eq_by_cmp, nat_cmp};
ghost use Rattle.std.specs.BTreeMap.{get};
ghost use Rattle.ejson_value.specs.declared.key.Key.{Key};
ghost use Rattle.ejson_value.specs.Key.{key_cmp};
ghost use Rattle.minimongo.specs.Index.{is_key_among, is_listed, is_listed_by};

use ejson_value::{Key, Keys, Mem};
use std::alloc::Global;
use std::collections::{BTreeMap, BTreeSet};

/// By simulation, the keys that it holds and perhaps others, as they came.
pub(crate) type Index = BTreeMap<u32, Keys>;

// The simulation had no keys.
fn list_first(index: &mut Index, alloc: Global, number: u32, key: Key) -> Result<(), Mem>
    requires { get nat_cmp index.old number ≡ None }
    ensures listed { OnOk result (is_listed index.new.entries number key ≡ true) }
    ensures kept { (n : ℕ) (k : Key) → is_listed index.old.entries n k ≡ true → is_listed index.new.entries n k ≡ true }
{
    let mut keys = Keys::new(alloc);
    keys.push(key)?;
    drop(index.insert(number, keys)?);
    Ok(())
}

/// Lists the key under the simulation.
pub(crate) fn list(index: &mut Index, alloc: Global, number: u32, key: &Key) -> Result<(), Mem>
    ensures listed { OnOk result (is_listed index.new.entries number key.now ≡ true) }
    ensures kept { (n : ℕ) (k : Key) → is_listed index.old.entries n k ≡ true → is_listed index.new.entries n k ≡ true }
{
    let key = key.copy()?;
    match index.get_mut(&number) {
        None => list_first(index, alloc, number, key),
        Some(keys) => keys.push(key),
    }
}

// Puts copies of the keys behind the others.
fn push_keys(all: &mut Vec<Key>, keys: &[Key]) -> Result<(), Mem>
    ensures { OnOk result ((k : Key) → is_key_among all.new.items k ≡ (is_key_among keys.now k || is_key_among all.old.items k)) }
{
    for key in keys {
        all.push(key.copy()?)?;
    }
    Ok(())
}

// Puts copies of the simulation's keys behind the others.
fn push_listed(all: &mut Vec<Key>, index: &Index, number: u32) -> Result<(), Mem>
    ensures { OnOk result ((k : Key) → is_key_among all.new.items k ≡ (is_listed index.now.entries number k || is_key_among all.old.items k)) }
{
    match index.get(&number) {
        None => Ok(()),
        Some(keys) => push_keys(all, keys.as_slice()),
    }
}

// Each of the keys once, rising.
fn put_in_order(keys: &mut Vec<Key>)
    ensures rising { IsStrictlySortedBy key_cmp keys.new.items }
    ensures same { (k : Key) → is_key_among keys.new.items k ≡ is_key_among keys.old.items k }
{
    keys.sort_unstable();
    keys.dedup();
}

/// The keys that are listed under one of the simulations, each once and rising.
pub(crate) fn listed(index: &Index, alloc: Global, numbers: &BTreeSet<u32>) -> Result<Vec<Key>, Mem>
    ensures rising { IfOk result (λ keys. IsStrictlySortedBy key_cmp keys.items) }
    ensures listed { IfOk result (λ keys. (k : Key) → is_key_among keys.items k ≡ is_listed_by index.now.entries numbers.now.keys k) }
{
    let mut all = Vec::new(alloc);
    for number in numbers.iter() {
        push_listed(&mut all, index, *number)?;
    }
    put_in_order(&mut all);
    Ok(all)
}
