//! The limits of a store.
use crate::values::{letters, text};
use collection_store::{Op, Store};
use ejson_value::{Doc, Names, Value};
use std::alloc::Global;
use std::test::Fail;

// A document with a text of this many bytes, whose own text has eight more.
fn long(alloc: Global, bytes: u64) -> Result<Doc, Fail> {
    let letters = letters(alloc, bytes)?;
    let mut doc = Doc::new(alloc);
    doc.put(text(alloc, "t")?, Value::Text(letters))?;
    Ok(doc)
}

fn long_insert(alloc: Global, bytes: u64) -> Result<Op, Fail> {
    Ok(Op::Insert {
        collection: text(alloc, "a")?,
        id: text(alloc, "x")?,
        doc: long(alloc, bytes)?,
    })
}

fn code(store: &mut Store, op: &Op, room: u64) -> u16 {
    match store.apply(op, room) {
        Ok(_) => 0,
        Err(fault) => fault.code().unwrap_or(1),
    }
}

fn inserted(alloc: Global, store: &mut Store, bytes: u64, room: u64) -> Result<u16, Fail> {
    let op = long_insert(alloc, bytes)?;
    Ok(code(store, &op, room))
}

fn names(alloc: Global) -> Result<Names, Fail> {
    let mut names = Names::new(alloc);
    names.push(text(alloc, "a")?)?;
    Ok(names)
}

fn store(alloc: Global) -> Result<Store, Fail> {
    Ok(Store::new(alloc, &names(alloc)?)?)
}

// 1,048,576 bytes are a document's most; an id that is there comes before; the room is tested last.
fn limits_hold(alloc: Global, store: &mut Store) -> Result<bool, Fail> {
    let longest = 1_048_568;
    Ok(
        inserted(alloc, store, longest + 1, 134_217_728)? == 413
            && inserted(alloc, store, longest, 1_048_575)? == 507
            && inserted(alloc, store, longest, 1_048_576)? == 0
            && inserted(alloc, store, longest + 1, 0)? == 409,
    )
}

fn store_limits_hold(alloc: Global) -> Result<bool, Fail> {
    let mut store = store(alloc)?;
    limits_hold(alloc, &mut store)
}

#[test]
fn limits(rt: HostRuntime) -> Result<(), Fail> {
    assert!(rt; store_limits_hold(rt.alloc())?);
    Ok(())
}
