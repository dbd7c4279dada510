//! Sets of keys.
ghost use Rattle.std.specs.Prelude.{◌≡◌, [], length, is_ok, IfOk, IfErr, OnOk, OnErr};
ghost use Rattle.std.specs.List.{insert, list_any};
ghost use Rattle.std.specs.List.Sorted.{IsStrictlySortedBy, IsSearchInRange};
ghost use Rattle.std.specs.Ordering.{eq_by_cmp};
ghost use Rattle.std.specs.BTreeSet.{insert_key};
ghost use Rattle.ejson_value.specs.Key.{key_cmp};
ghost use Rattle.stub_simulation.specs.KeySets.{keys_held};

use ejson_value::{Key, Keys, Mem};
use std::alloc::Global;
use std::collections::BTreeSet;
use std::marker::Model;

// A row of so many keys becomes a tree with the next one: a key that is put into a row moves others.
const MAX_ROW: usize = 16;

/// Keys, rising, each once. A few stand in a row, which takes less memory than the node of a tree.
#[derive(Drop)]
pub(crate) struct KeySet {
    held: Held,
}

#[derive(Drop)]
enum Held {
    Row(Vec<Key>),
    Tree(BTreeSet<Key>),
}

impl Model for KeySet {
    ghost use Rattle.std.specs.Prelude.{List};
    ghost use Rattle.std.specs.Coded.{coded_list};
    ghost use Rattle.std.specs.List.Sorted.{IsStrictlySortedBy};
    ghost use Rattle.ejson_value.specs.declared.key.Key.{Key};
    ghost use Rattle.ejson_value.specs.Key.{key_cmp, key_code};
    ghost use Rattle.stub_simulation.specs.KeySets.{keys_held};

    ghost Value = { List Key };

    ghost coded = { coded_list key_code };

    ghost view = { λ a. keys_held a.held };

    ghost invariant = { λ a. IsStrictlySortedBy key_cmp (keys_held a.held) };
}

// Where the key stands in the row, or else where it would.
fn place(row: &[Key], key: &Key) -> Result<usize, usize>
    requires { IsStrictlySortedBy key_cmp row.now }
    ensures bound { IsSearchInRange result (length row.now) }
    ensures test { is_ok result ≡ list_any (eq_by_cmp key_cmp key.now) row.now }
    ensures here { IfOk result (λ _. insert_key key_cmp row.now key.now ≡ row.now) }
    ensures gap { IfErr result (λ place. insert_key key_cmp row.now key.now ≡ insert row.now place key.now) }
{
    row.binary_search_by(|there| there.cmp(key))
}

fn put_in_row(row: &mut Vec<Key>, key: &Key) -> Result<(), Mem>
    requires { IsStrictlySortedBy key_cmp row.old.items }
    ensures ok { OnOk result (row.new.items ≡ insert_key key_cmp row.old.items key.now) }
    ensures err { OnErr result (row.new.items ≡ row.old.items) }
{
    if let Err(place) = place(row.as_slice(), key) {
        row.insert(place, key.copy()?)?;
    }
    Ok(())
}

fn put_in_tree(tree: &mut BTreeSet<Key>, key: &Key) -> Result<(), Mem>
    ensures ok { OnOk result (tree.new.keys ≡ insert_key key_cmp tree.old.keys key.now) }
    ensures err { OnErr result (tree.new.keys ≡ tree.old.keys) }
{
    let _new = tree.insert(key.copy()?)?;
    Ok(())
}

// A tree of the row's keys.
fn tree_of(alloc: Global, row: &[Key]) -> Result<BTreeSet<Key>, Mem>
    requires { IsStrictlySortedBy key_cmp row.now }
    ensures { IfOk result (λ tree. tree.keys ≡ row.now) }
{
    let mut tree = BTreeSet::new(alloc);
    for key in row {
        put_in_tree(&mut tree, key)?;
    }
    Ok(tree)
}

// The same with one key more.
fn tree_with(alloc: Global, row: &[Key], key: &Key) -> Result<BTreeSet<Key>, Mem>
    requires { IsStrictlySortedBy key_cmp row.now }
    ensures { IfOk result (λ tree. tree.keys ≡ insert_key key_cmp row.now key.now) }
{
    let mut tree = tree_of(alloc, row)?;
    put_in_tree(&mut tree, key)?;
    Ok(tree)
}

// Copies of the row's keys.
fn listed_row(alloc: Global, row: &[Key]) -> Result<Keys, Mem>
    ensures { IfOk result (λ list. list ≡ row.now) }
{
    let mut list = Keys::new(alloc);
    for key in row {
        list.push(key.copy()?)?;
    }
    Ok(list)
}

// Copies of the tree's keys.
fn listed_tree(alloc: Global, tree: &BTreeSet<Key>) -> Result<Keys, Mem>
    ensures { IfOk result (λ list. list ≡ tree.now.keys) }
{
    let mut list = Keys::new(alloc);
    for key in tree.iter() {
        list.push(key.copy()?)?;
    }
    Ok(list)
}

impl Held {
    fn put(&mut self, key: &Key) -> Result<(), Mem>
        requires { IsStrictlySortedBy key_cmp (keys_held self.old) }
        ensures ok { OnOk result (keys_held self.new ≡ insert_key key_cmp (keys_held self.old) key.now) }
        ensures err { OnErr result (keys_held self.new ≡ keys_held self.old) }
    {
        match self {
            Held::Row(row) => {
                if row.len() < MAX_ROW {
                    return put_in_row(row, key);
                }
                let tree = tree_with(*row.allocator(), row.as_slice(), key)?;
                *self = Held::Tree(tree);
                Ok(())
            }
            Held::Tree(tree) => put_in_tree(tree, key),
        }
    }

    fn contains(&self, key: &Key) -> bool
        requires { IsStrictlySortedBy key_cmp (keys_held self.now) }
        ensures { result ≡ list_any (eq_by_cmp key_cmp key.now) (keys_held self.now) }
    {
        match self {
            Held::Row(row) => place(row.as_slice(), key).is_ok(),
            Held::Tree(tree) => tree.contains(key),
        }
    }

    fn listed(&self, alloc: Global) -> Result<Keys, Mem>
        ensures { IfOk result (λ list. list ≡ keys_held self.now) }
    {
        match self {
            Held::Row(row) => listed_row(alloc, row.as_slice()),
            Held::Tree(tree) => listed_tree(alloc, tree),
        }
    }
}

impl KeySet {
    /// No keys.
    pub(crate) fn new(alloc: Global) -> KeySet
        ensures { result ≡ [] }
    {
        KeySet {
            held: Held::Row(Vec::new(alloc)),
        }
    }

    /// Puts a copy of the key among them, where it isn't there.
    pub(crate) fn put(&mut self, key: &Key) -> Result<(), Mem>
        ensures { OnOk result (self.new ≡ insert_key key_cmp self.old key.now) }
    {
        self.held.put(key)
    }

    /// Whether the key is there.
    pub(crate) fn contains(&self, key: &Key) -> bool
        ensures { result ≡ list_any (eq_by_cmp key_cmp key.now) self.now }
    {
        self.held.contains(key)
    }

    /// Copies of the keys.
    pub(crate) fn listed(&self, alloc: Global) -> Result<Keys, Mem>
        ensures { IfOk result (λ list. list ≡ self.now) }
    {
        self.held.listed(alloc)
    }
}
