//! The keys of the documents of each subscription.
ghost use Rattle.std.specs.Prelude.{◌≡◌, ◌==◌, ℕ, true, false, None, OnOk, IsTrue, if◌then◌else◌, ◌&&◌};
ghost use Rattle.std.specs.Ordering.{eq_by_cmp, nat_cmp};
ghost use Rattle.std.specs.BTreeMap.{get};
ghost use Rattle.ejson_value.specs.declared.key.Key.{Key};
ghost use Rattle.ejson_value.specs.Key.{key_cmp};
ghost use Rattle.merge_box.specs.Index.{lists_of, is_listed};

use ejson_value::{Key, Mem};
use std::alloc::Global;
use std::collections::{BTreeMap, BTreeSet};

/// By subscription, the keys of its documents and perhaps of others.
pub(crate) type Index = BTreeMap<u64, BTreeSet<Key>>;

// The subscription had no keys.
fn list_first(index: &mut Index, alloc: Global, sub: u64, key: Key) -> Result<(), Mem>
    requires { get nat_cmp index.old sub ≡ None }
    ensures listed { OnOk result (is_listed (lists_of index.new.entries) sub key ≡ true) }
    ensures kept { (s : ℕ) (k : Key) → is_listed (lists_of index.old.entries) s k ≡ true →
        is_listed (lists_of index.new.entries) s k ≡ true }
{
    let mut keys = BTreeSet::new(alloc);
    let _new = keys.insert(key)?;
    drop(index.insert(sub, keys)?);
    Ok(())
}

/// Lists the key under the subscription.
pub(crate) fn list(index: &mut Index, alloc: Global, sub: u64, key: &Key) -> Result<(), Mem>
    ensures listed { OnOk result (is_listed (lists_of index.new.entries) sub key.now ≡ true) }
    ensures kept { (s : ℕ) (k : Key) → is_listed (lists_of index.old.entries) s k ≡ true →
        is_listed (lists_of index.new.entries) s k ≡ true }
{
    let key = key.copy()?;
    match index.get_mut(&sub) {
        None => list_first(index, alloc, sub, key),
        Some(keys) => {
            let _new = keys.insert(key)?;
            Ok(())
        }
    }
}

/// Lists the key under the subscription no more.
pub(crate) fn unlist(index: &mut Index, sub: u64, key: &Key)
    ensures { (s : ℕ) (k : Key) → is_listed (lists_of index.new.entries) s k ≡
        (if (s == sub) && eq_by_cmp key_cmp k key.now then false else is_listed (lists_of index.old.entries) s k) }
{
    if let Some(keys) = index.get_mut(&sub) {
        let _was = keys.remove(key);
    }
}

// Whether the subscription has an entry that lists no key.
fn lists_nothing(index: &Index, sub: u64) -> bool
    ensures { IsTrue result → (k : Key) → is_listed (lists_of index.now.entries) sub k ≡ false }
{
    match index.get(&sub) {
        None => false,
        Some(keys) => keys.is_empty(),
    }
}

/// Takes the subscription's entry away where it lists no key.
pub(crate) fn forget_unlisted(index: &mut Index, sub: u64)
    ensures { (s : ℕ) (k : Key) → is_listed (lists_of index.new.entries) s k ≡ is_listed (lists_of index.old.entries) s k }
{
    if lists_nothing(index, sub) {
        drop(index.remove(&sub));
    }
}
