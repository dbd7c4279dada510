//! Changes put into contents, all or none: all copies are made first, then a place for each new key;
//! the rest takes no memory.
ghost use Rattle.std.specs.Prelude.{◌≡◌, true, false, Some, None, [], All, IsSome, IsTrue, IfOk, OnOk, OnErr, map, unwrap_or, if◌then◌else◌};
ghost use Rattle.std.specs.BTreeMap.{insert_entry};
ghost use Rattle.map_model.specs.Maps.{at, set};
ghost use Rattle.map_model.specs.Changes.{changed, last_at};
ghost use Rattle.value_model.specs.Val.{Entries};
ghost use Rattle.ejson_value.specs.declared.key.Key.{Key};
ghost use Rattle.ejson_value.specs.Key.{key_cmp};
ghost use Rattle.ejson_value.specs.Changes.{changes_of, has_new};
ghost use Rattle.ejson_value.specs.ChangeLaws.{AllFit, HaveDistinctKeys};

use crate::Changes;
use crate::change::Change;
use crate::contents::Contents;
use crate::key::Key;
use crate::list::copy_option;
use crate::memory::Mem;
use crate::value::Doc;
use std::collections::{BTreeMap, VecDeque};

// Whether the changes go by rising key, so that no two of them are at one key.
fn rise(changes: &[Change]) -> bool
    ensures { IsTrue result → HaveDistinctKeys changes.now }
{
    changes.is_sorted_by(|change, next| change.key < next.key)
}

// Copies of what each change leaves.
fn copies(changes: &Changes) -> Result<VecDeque<Option<Doc>>, Mem>
    ensures { IfOk result (λ copies. copies.items ≡ map (λ change. change.after) changes.now) }
{
    let mut copies = VecDeque::with_capacity(changes.allocator(), changes.len())?;
    for change in changes.as_slice() {
        copies.push_back(copy_option(&change.after)?)?;
    }
    Ok(copies)
}

fn plan_change(plan: &mut BTreeMap<Key, Option<Doc>>, change: &Change) -> Result<(), Mem>
    ensures { OnOk result (plan.new.entries ≡ insert_entry key_cmp plan.old.entries change.now.key change.now.after) }
{
    let key = change.key.copy()?;
    drop(plan.insert(key, copy_option(&change.after)?)?);
    Ok(())
}

// What the last change at each key leaves there.
fn plan_of(changes: &Changes) -> Result<BTreeMap<Key, Option<Doc>>, Mem>
    ensures { IfOk result (λ plan. (k : Key) → at key_cmp plan.entries k ≡ last_at key_cmp k (changes_of changes.now)) }
{
    let mut plan = BTreeMap::new(changes.allocator());
    for change in changes.as_slice() {
        plan_change(&mut plan, change)?;
    }
    Ok(plan)
}

impl Contents {
    // Puts an empty document at each key that had none before.
    fn make_places(&mut self, changes: &Changes) -> Result<(), Mem>
        ensures ok { OnOk result ((k : Key) → at key_cmp self.new k ≡ if has_new k changes.now then Some [] else at key_cmp self.old k) }
        ensures err { OnErr result ((k : Key) → has_new k changes.now ≡ false → at key_cmp self.new k ≡ at key_cmp self.old k) }
    {
        for change in changes.as_slice() {
            if change.before.is_none() {
                self.put(change.key.copy()?, Doc::new(changes.allocator()))?;
            }
        }
        Ok(())
    }

    // Takes out what stands at each key that had no document before.
    fn drop_places(&mut self, changes: &Changes)
        ensures { (k : Key) → at key_cmp self.new k ≡ if has_new k changes.now then None else at key_cmp self.old k }
    {
        self.known();
        for change in changes.as_slice() {
            if change.before.is_none() {
                drop(self.remove(&change.key));
            }
        }
    }

    // Puts the document in place of the one at the key, or takes that out.
    fn settle(&mut self, key: &Key, planned: Option<Doc>)
        requires { (doc : Entries) → planned ≡ Some doc → IsSome (at key_cmp self.old key.now) }
        ensures { self.new ≡ set key_cmp self.old key.now planned }
    {
        match planned {
            None => drop(self.remove(key)),
            Some(doc) => self.replace(key, doc),
        }
    }

    // Puts an empty document at each key that had none before, or does nothing.
    fn make_all_places(&mut self, changes: &Changes) -> Result<(), Mem>
        requires { AllFit self.old changes.now }
        ensures ok { OnOk result ((k : Key) → at key_cmp self.new k ≡ if has_new k changes.now then Some [] else at key_cmp self.old k) }
        ensures err { OnErr result (self.new ≡ self.old) }
    {
        self.known();
        if let Err(mem) = self.make_places(changes) {
            self.drop_places(changes);
            self.known();
            return Err(mem);
        }
        Ok(())
    }

    // Makes the one change.
    fn put_one(&mut self, change: &Change) -> Result<(), Mem>
        requires { at key_cmp self.old change.now.key ≡ change.now.before }
        ensures ok { OnOk result (self.new ≡ set key_cmp self.old change.now.key change.now.after) }
        ensures err { OnErr result (self.new ≡ self.old) }
    {
        match (&change.before, &change.after) {
            (None, Some(doc)) => self.put_copy(&change.key, doc),
            (_, after) => {
                let after = copy_option(after)?;
                self.settle(&change.key, after);
                Ok(())
            }
        }
    }

    // Makes each change, in order, with the copy of what it leaves. It takes no memory.
    fn settle_each(&mut self, changes: &[Change], mut copies: VecDeque<Option<Doc>>)
        requires apart { HaveDistinctKeys changes.now }
        requires places { (k : Key) → IsSome (last_at key_cmp k (changes_of changes.now)) → IsSome (at key_cmp self.old k) }
        requires copies { copies.items ≡ map (λ change. change.after) changes.now }
        ensures { self.new ≡ changed key_cmp self.old (changes_of changes.now) }
    {
        self.known();
        for change in changes {
            if let Some(after) = copies.pop_front() {
                self.settle(&change.key, after);
            }
        }
    }

    // Makes the changes, of which no two are at one key.
    fn put_apart(&mut self, changes: &Changes) -> Result<(), Mem>
        requires fit { AllFit self.old changes.now }
        requires apart { HaveDistinctKeys changes.now }
        ensures ok { OnOk result (self.new ≡ changed key_cmp self.old (changes_of changes.now)) }
        ensures err { OnErr result (self.new ≡ self.old) }
    {
        self.known();
        let copies = copies(changes)?;
        self.make_all_places(changes)?;
        self.known();
        self.settle_each(changes.as_slice(), copies);
        self.known();
        Ok(())
    }

    // Does what is planned. It takes no memory.
    fn take_over(&mut self, mut plan: BTreeMap<Key, Option<Doc>>)
        requires { (k : Key) (doc : Entries) → at key_cmp plan.entries k ≡ Some (Some doc) → IsSome (at key_cmp self.old k) }
        ensures { (k : Key) → at key_cmp self.new k ≡ unwrap_or (at key_cmp plan.entries k) (at key_cmp self.old k) }
    {
        self.known();
        let _len = plan.len();
        while let Some((key, planned)) = plan.pop_first() {
            self.settle(&key, planned);
        }
    }

    // Makes the changes, of which several may be at one key, in the order of the keys.
    fn put_by_key(&mut self, changes: &Changes) -> Result<(), Mem>
        requires { AllFit self.old changes.now }
        ensures ok { OnOk result (self.new ≡ changed key_cmp self.old (changes_of changes.now)) }
        ensures err { OnErr result (self.new ≡ self.old) }
    {
        self.known();
        let plan = plan_of(changes)?;
        self.make_all_places(changes)?;
        self.take_over(plan);
        self.known();
        Ok(())
    }

    /// Puts each change's `after` at its key, in order, or takes out what is there where it is None.
    /// On an error nothing has changed. It costs a look-up for each change, and a copy of each
    /// `after`.
    pub fn put_all(&mut self, changes: &Changes) -> Result<(), Mem>
        requires { All (λ change. at key_cmp self.old change.key ≡ change.before) changes.now }
        ensures ok { OnOk result (self.new ≡ changed key_cmp self.old (changes_of changes.now)) }
        ensures err { OnErr result (self.new ≡ self.old) }
    {
        if let [change] = changes.as_slice() {
            return self.put_one(change);
        }
        if rise(changes.as_slice()) {
            self.put_apart(changes)
        } else {
            self.put_by_key(changes)
        }
    }
}
