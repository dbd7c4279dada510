//! Reading the methods of an application, and its rules, which make methods more.
ghost use Rattle.std.specs.Prelude.{◌≡◌, [], IfOk, OnOk, codes, option_map};
ghost use Rattle.value_model.specs.Val.{fields_of};
ghost use Rattle.value_model.specs.Branches.{field_of};
ghost use Rattle.ejson_value.specs.View.{view};
ghost use Rattle.program_reading.specs.Faults.{below, Gives};
ghost use Rattle.program_reading.specs.Programs.{program_reading};
ghost use Rattle.app_model.specs.Reading.{methods_put, methods_reading, has_method, has_made_name, entry_reading, guard_reading, guards_put};
ghost use Rattle.app_model.specs.Reading.{guards_reading, with_method, with_made};

use crate::maps::put;
use ejson_value::{Doc, Mem, Names, Text, Value};
use program_reading::{
    AppFault, Flaw, Shape, bad, below, guarded_program, has_more_fields, has_name, has_only_keys,
    is_valid_name, member, method_name, read_program, read_rules,
};
use program_steps::{Action, Program, Rules};
use std::alloc::Global;
use std::collections::BTreeMap;

const MAX_METHODS: usize = 256;

fn read_method(
    alloc: Global,
    collections: &Names,
    name: &Text,
    value: &Value,
) -> Result<Program, AppFault>
    ensures { Gives (λ program. program) result (program_reading collections.now (below (codes "methods") name.now) name.now (view value.now)) }
{
    let place = below(alloc, "methods", name.as_str())?;
    read_program(alloc, collections, &place, name, value)
}

fn put_methods(
    alloc: Global,
    collections: &Names,
    fields: &Doc,
) -> Result<BTreeMap<Text, Program>, AppFault>
    ensures { Gives (λ m. m.entries) result (methods_put collections.now [] (fields_of fields.now)) }
{
    let mut methods = BTreeMap::new(alloc);
    for (name, value) in fields.iter() {
        let program = read_method(alloc, collections, name, value)?;
        put(&mut methods, name, program)?;
    }
    Ok(methods)
}

fn read_methods(
    alloc: Global,
    collections: &Names,
    member: Option<&Value>,
) -> Result<BTreeMap<Text, Program>, AppFault>
    ensures { Gives (λ m. m.entries) result (methods_reading collections.now (option_map (λ v. view v.now) member.entry)) }
{
    let Some(value) = member else {
        return Ok(BTreeMap::new(alloc));
    };
    let Value::Object(fields) = value else {
        return Err(bad(Flaw::BadShape, Text::from_str(alloc, "methods")?));
    };
    if has_more_fields(fields, MAX_METHODS) {
        return Err(bad(Flaw::TooMany, Text::from_str(alloc, "methods")?));
    }
    put_methods(alloc, collections, fields)
}

// The methods that are listed.
pub(crate) fn methods_in(
    alloc: Global,
    collections: &Names,
    fields: &Doc,
) -> Result<BTreeMap<Text, Program>, AppFault>
    ensures { Gives (λ m. m.entries) result (methods_reading collections.now (field_of (fields_of fields.now) (codes "methods"))) }
{
    read_methods(alloc, collections, member(alloc, fields, "methods")?)
}

fn has_method(
    alloc: Global,
    methods: &BTreeMap<Text, Program>,
    collection: &Text,
    action: Action,
) -> Result<bool, Mem>
    ensures { IfOk result (λ b. b ≡ has_method methods.now.entries collection.now action) }
{
    let name = method_name(alloc, collection, action)?;
    Ok(methods.get(&name).is_some())
}

fn has_made_name(
    alloc: Global,
    methods: &BTreeMap<Text, Program>,
    collection: &Text,
) -> Result<bool, Mem>
    ensures { IfOk result (λ b. b ≡ has_made_name methods.now.entries collection.now) }
{
    let insert = has_method(alloc, methods, collection, Action::Insert)?;
    let update = has_method(alloc, methods, collection, Action::Update)?;
    let remove = has_method(alloc, methods, collection, Action::Remove)?;
    Ok(insert || update || remove)
}

fn read_entry(
    alloc: Global,
    collections: &Names,
    methods: &BTreeMap<Text, Program>,
    place: &Text,
    name: &Text,
    fields: &Doc,
) -> Result<Rules, AppFault>
    ensures { Gives (λ rules. rules) result (entry_reading collections.now methods.now.entries place.now name.now (fields_of fields.now)) }
{
    if !has_only_keys(Shape::Rules, fields) {
        return Err(bad(Flaw::BadShape, place.copy()?));
    }
    if !is_valid_name(name) {
        return Err(bad(Flaw::BadName, place.copy()?));
    }
    if !has_name(collections, name) {
        return Err(bad(Flaw::UnknownCollection, place.copy()?));
    }
    if has_made_name(alloc, methods, name)? {
        return Err(bad(Flaw::DoubleName, place.copy()?));
    }
    read_rules(alloc, place, fields)
}

fn read_guard(
    alloc: Global,
    collections: &Names,
    methods: &BTreeMap<Text, Program>,
    name: &Text,
    value: &Value,
) -> Result<Rules, AppFault>
    ensures { Gives (λ rules. rules) result (guard_reading collections.now methods.now.entries name.now (view value.now)) }
{
    let place = below(alloc, "rules", name.as_str())?;
    match value {
        Value::Object(fields) => read_entry(alloc, collections, methods, &place, name, fields),
        _ => Err(bad(Flaw::BadShape, place)),
    }
}

fn put_guards(
    alloc: Global,
    collections: &Names,
    methods: &BTreeMap<Text, Program>,
    fields: &Doc,
) -> Result<BTreeMap<Text, Rules>, AppFault>
    ensures { Gives (λ m. m.entries) result (guards_put collections.now methods.now.entries [] (fields_of fields.now)) }
{
    let mut guards = BTreeMap::new(alloc);
    for (name, value) in fields.iter() {
        let rules = read_guard(alloc, collections, methods, name, value)?;
        put(&mut guards, name, rules)?;
    }
    Ok(guards)
}

fn read_guards(
    alloc: Global,
    collections: &Names,
    methods: &BTreeMap<Text, Program>,
    member: Option<&Value>,
) -> Result<BTreeMap<Text, Rules>, AppFault>
    ensures { Gives (λ m. m.entries) result (guards_reading collections.now methods.now.entries (option_map (λ v. view v.now) member.entry)) }
{
    let Some(value) = member else {
        return Ok(BTreeMap::new(alloc));
    };
    let Value::Object(fields) = value else {
        return Err(bad(Flaw::BadShape, Text::from_str(alloc, "rules")?));
    };
    put_guards(alloc, collections, methods, fields)
}

// The rules of collections.
pub(crate) fn guards_in(
    alloc: Global,
    collections: &Names,
    methods: &BTreeMap<Text, Program>,
    fields: &Doc,
) -> Result<BTreeMap<Text, Rules>, AppFault>
    ensures { Gives (λ m. m.entries) result (guards_reading collections.now methods.now.entries (field_of (fields_of fields.now) (codes "rules"))) }
{
    read_guards(alloc, collections, methods, member(alloc, fields, "rules")?)
}

fn put_method(
    alloc: Global,
    methods: &mut BTreeMap<Text, Program>,
    collection: &Text,
    action: Action,
) -> Result<(), Mem>
    ensures { OnOk result (methods.new.entries ≡ with_method methods.old.entries collection.now action) }
{
    let name = method_name(alloc, collection, action)?;
    let program = guarded_program(alloc, collection, action)?;
    put(methods, &name, program)
}

fn put_three(
    alloc: Global,
    methods: &mut BTreeMap<Text, Program>,
    collection: &Text,
) -> Result<(), Mem>
    ensures { OnOk result (methods.new.entries ≡ with_method
        (with_method (with_method methods.old.entries collection.now Action.Insert) collection.now Action.Update) collection.now Action.Remove) }
{
    put_method(alloc, methods, collection, Action::Insert)?;
    put_method(alloc, methods, collection, Action::Update)?;
    put_method(alloc, methods, collection, Action::Remove)
}

// Puts the methods that the rules make to the others.
pub(crate) fn put_made(
    alloc: Global,
    methods: &mut BTreeMap<Text, Program>,
    guards: &BTreeMap<Text, Rules>,
) -> Result<(), Mem>
    ensures { OnOk result (methods.new.entries ≡ with_made methods.old.entries guards.now.entries) }
{
    for (collection, _rules) in guards.iter() {
        put_three(alloc, methods, collection)?;
    }
    Ok(())
}
