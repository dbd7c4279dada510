//! Copying entries out of a shared store.
ghost use Rattle.std.specs.Prelude.{◌≡◌, ◌+◌, ◌<◌, ◌≤◌, length, true, false, None, IfOk, IfSome, OnOk};
ghost use mathlib.Core.List.{IsPrefix};
ghost use Rattle.shared_store.specs.Store.{over};
ghost use Rattle.shared_multiplexer.specs.Copied.{next_of, AreCopiedOf, IsOneMore, AreBehind};

use crate::copied::CopiedEntries;
use ejson_value::Mem;
use shared_store::SharedStore;
use std::alloc::Global;
use std::sync::Wait;
use store_name::{StoreName, StorePass};

// The store's next entry is copied too. Whether there is one.
fn copy_next<R: Wait, N: StoreName>(
    rt: &R,
    store: &SharedStore<N>,
    pass: &mut StorePass<N>,
    entries: &mut CopiedEntries,
) -> Result<bool, Mem>
    requires { AreCopiedOf entries.old (over N.app pass.old) }
    ensures grows { IsPrefix pass.old pass.new }
    ensures are { AreCopiedOf entries.new (over N.app pass.new) }
    ensures more { IfOk result (λ some. some ≡ true → IsOneMore entries.old entries.new) }
    ensures none { IfOk result (λ some. some ≡ false → (entries.new ≡ entries.old) × (length pass.new ≤ next_of entries.old)) }
{
    match store.batch(rt, pass, entries.next(), 1) {
        Ok(Some(batch)) => {
            entries.push(batch)?;
            Ok(true)
        }
        Ok(None) => Ok(false),
        Err(mem) => Err(mem),
    }
}

// The store's next entries are copied too, at most so many.
fn copy_more<R: Wait, N: StoreName>(
    rt: &R,
    store: &SharedStore<N>,
    pass: &mut StorePass<N>,
    entries: &mut CopiedEntries,
    most: u64,
) -> Result<(), Mem>
    requires { AreCopiedOf entries.old (over N.app pass.old) }
    ensures grows { IsPrefix pass.old pass.new }
    ensures are { AreCopiedOf entries.new (over N.app pass.new) }
    ensures begins { OnOk result (entries.new.first ≡ entries.old.first) }
    ensures least { OnOk result (length entries.old.changes ≤ length entries.new.changes) }
    ensures few { OnOk result (length entries.new.changes ≤ length entries.old.changes + most) }
    ensures ends { OnOk result (length entries.new.changes < length entries.old.changes + most → length pass.new ≤ next_of entries.new) }
{
    for _ in 0..most {
        let some = copy_next(rt, store, pass, entries)?;
        if !some {
            return Ok(());
        }
    }
    Ok(())
}

impl CopiedEntries {
    /// The entries of the store behind the first `from`, at most so many of them: each is copied by a call of its own. None
    /// where there is none.
    pub(crate) fn of_store<R: Wait, N: StoreName>(
        rt: &R,
        alloc: Global,
        store: &SharedStore<N>,
        pass: &mut StorePass<N>,
        from: u64,
        most: u64,
    ) -> Result<Option<CopiedEntries>, Mem>
        requires { 1 ≤ most }
        ensures grows { IsPrefix pass.old pass.new }
        ensures some { IfOk result (λ some. IfSome some (AreBehind N.app from most pass.new)) }
        ensures none { IfOk result (λ some. some ≡ None → length pass.new ≤ from) }
    {
        match store.batch(rt, pass, from, 1) {
            Ok(Some(batch)) => {
                let mut entries = CopiedEntries::new(alloc, from);
                entries.push(batch)?;
                copy_more(rt, store, pass, &mut entries, most - 1)?;
                Ok(Some(entries))
            }
            Ok(None) => Ok(None),
            Err(mem) => Err(mem),
        }
    }
}
