//! Applications.
ghost use Rattle.std.specs.Prelude.{◌≡◌, [], IfOk, codes, option_map};
ghost use Rattle.std.specs.Option.{option_copied};
ghost use Rattle.value_model.specs.Val.{fields_of, vals_of};
ghost use Rattle.value_model.specs.Branches.{field_of};
ghost use Rattle.ejson_value.specs.View.{view};
ghost use Rattle.program_reading.specs.Faults.{Gives};
ghost use Rattle.app_model.specs.App.{has_collection, method, publication, write_rules};
ghost use Rattle.app_model.specs.Reading.{listed_reading, names_behind, collections_reading, publications_put, publications_reading, stored_reading};
ghost use Rattle.app_model.specs.Reading.{told_reading, members_reading, app_reading};

use crate::cursors::read_publication;
use crate::maps::{copy_map, put};
use crate::methods::{guards_in, methods_in, put_made};
use crate::publication::Publication;
use ejson_value::{Doc, Items, Mem, Names, Text, Value};
use program_reading::{
    AppFault, Flaw, Shape, bad, element, has_more_fields, has_more_items, has_name, has_only_keys,
    member, read_name,
};
use program_steps::{Program, Rules};
use std::alloc::Global;
use std::collections::BTreeMap;
use std::marker::Model;

const MAX_COLLECTIONS: usize = 64;

const MAX_PUBLICATIONS: usize = 256;

/// An application: the collections of its store, its methods and its publications by name, and the
/// rules by which clients may write to collections by themselves (Meteor's guide, "Methods" and
/// "Publications and data loading"; Meteor's documentation, "allow" and "deny").
#[derive(Drop)]
pub struct App {
    collections: Names,
    methods: BTreeMap<Text, Program>,
    publications: BTreeMap<Text, Publication>,
    guards: BTreeMap<Text, Rules>,
}

impl Model for App {
    ghost use Rattle.std.specs.Coded.{codes};
    ghost use Rattle.value_model.specs.Coding.{val_code};
    ghost use Rattle.app_model.specs.App.{App as AnApp};

    ghost Value = { AnApp };

    ghost coded = { Prim.hlevel (codes, val_code) };

    ghost view = { λ a. record { collections = a.collections; methods = a.methods.entries; publications = a.publications.entries; guards = a.guards.entries } };
}

// A collection that is listed behind others.
fn read_listed(alloc: Global, names: &Names, value: &Value) -> Result<Text, AppFault>
    ensures { Gives (λ name. name) result (listed_reading names.now (view value.now)) }
{
    let place = element(alloc, "collections", names.len())?;
    let name = read_name(&place, value)?;
    if has_name(names, &name) {
        Err(bad(Flaw::DoubleName, place))
    } else {
        Ok(name)
    }
}

fn read_names(alloc: Global, items: &Items) -> Result<Names, AppFault>
    ensures { Gives (λ names. names) result (names_behind [] (vals_of items.now)) }
{
    let mut names = Names::new(alloc);
    for item in items.as_slice() {
        let name = read_listed(alloc, &names, item)?;
        names.push(name)?;
    }
    Ok(names)
}

fn read_collections(alloc: Global, member: Option<&Value>) -> Result<Names, AppFault>
    ensures { Gives (λ names. names) result (collections_reading (option_map (λ v. view v.now) member.entry)) }
{
    let Some(value) = member else {
        return Ok(Names::new(alloc));
    };
    let Value::List(items) = value else {
        return Err(bad(Flaw::BadShape, Text::from_str(alloc, "collections")?));
    };
    if has_more_items(items, MAX_COLLECTIONS) {
        return Err(bad(Flaw::TooMany, Text::from_str(alloc, "collections")?));
    }
    read_names(alloc, items)
}

fn put_publications(
    alloc: Global,
    collections: &Names,
    fields: &Doc,
) -> Result<BTreeMap<Text, Publication>, AppFault>
    ensures { Gives (λ m. m.entries) result (publications_put collections.now [] (fields_of fields.now)) }
{
    let mut publications = BTreeMap::new(alloc);
    for (name, value) in fields.iter() {
        let publication = read_publication(alloc, collections, name, value)?;
        put(&mut publications, name, publication)?;
    }
    Ok(publications)
}

fn read_publications(
    alloc: Global,
    collections: &Names,
    member: Option<&Value>,
) -> Result<BTreeMap<Text, Publication>, AppFault>
    ensures { Gives (λ m. m.entries) result (publications_reading collections.now (option_map (λ v. view v.now) member.entry)) }
{
    let Some(value) = member else {
        return Ok(BTreeMap::new(alloc));
    };
    let Value::Object(fields) = value else {
        return Err(bad(Flaw::BadShape, Text::from_str(alloc, "publications")?));
    };
    if has_more_fields(fields, MAX_PUBLICATIONS) {
        return Err(bad(Flaw::TooMany, Text::from_str(alloc, "publications")?));
    }
    put_publications(alloc, collections, fields)
}

fn collections_in(alloc: Global, fields: &Doc) -> Result<Names, AppFault>
    ensures { Gives (λ names. names) result (collections_reading (field_of (fields_of fields.now) (codes "collections"))) }
{
    read_collections(alloc, member(alloc, fields, "collections")?)
}

fn publications_in(
    alloc: Global,
    collections: &Names,
    fields: &Doc,
) -> Result<BTreeMap<Text, Publication>, AppFault>
    ensures { Gives (λ m. m.entries) result (publications_reading collections.now (field_of (fields_of fields.now) (codes "publications"))) }
{
    read_publications(alloc, collections, member(alloc, fields, "publications")?)
}

type Stored = (Names, BTreeMap<Text, Program>);

fn read_stored(alloc: Global, fields: &Doc) -> Result<Stored, AppFault>
    ensures { Gives (λ s. (s.0, s.1.entries)) result (stored_reading (fields_of fields.now)) }
{
    let collections = collections_in(alloc, fields)?;
    let methods = methods_in(alloc, &collections, fields)?;
    Ok((collections, methods))
}

type Told = (BTreeMap<Text, Publication>, BTreeMap<Text, Rules>);

fn read_told(
    alloc: Global,
    collections: &Names,
    methods: &BTreeMap<Text, Program>,
    fields: &Doc,
) -> Result<Told, AppFault>
    ensures { Gives (λ t. (t.0.entries, t.1.entries)) result (told_reading collections.now methods.now.entries (fields_of fields.now)) }
{
    let publications = publications_in(alloc, collections, fields)?;
    let guards = guards_in(alloc, collections, methods, fields)?;
    Ok((publications, guards))
}

fn read_members(alloc: Global, fields: &Doc) -> Result<App, AppFault>
    ensures { Gives (λ app. app) result (members_reading (fields_of fields.now)) }
{
    let (collections, mut methods) = read_stored(alloc, fields)?;
    let (publications, guards) = read_told(alloc, &collections, &methods, fields)?;
    put_made(alloc, &mut methods, &guards)?;
    Ok(App {
        collections,
        methods,
        publications,
        guards,
    })
}

impl App {
    /// The application that the value describes: an object with the keys `collections`, `methods`,
    /// `publications` and `rules`, each of which may be missing.
    pub fn read(alloc: Global, value: &Value) -> Result<App, AppFault>
        ensures { Gives (λ app. app) result (app_reading (view value.now)) }
    {
        let Value::Object(fields) = value else {
            return Err(bad(Flaw::BadShape, Text::new(alloc)));
        };
        if !has_only_keys(Shape::Application, fields) {
            return Err(bad(Flaw::BadShape, Text::new(alloc)));
        }
        read_members(alloc, fields)
    }

    /// An application equal to this one.
    pub fn copy(&self) -> Result<App, Mem>
        ensures { IfOk result (λ app. app ≡ self.now) }
    {
        Ok(App {
            collections: self.collections.copy()?,
            methods: copy_map(&self.methods)?,
            publications: copy_map(&self.publications)?,
            guards: copy_map(&self.guards)?,
        })
    }

    /// The names of its collections, as they are listed.
    pub fn collections(&self) -> &Names
        ensures { result.now ≡ self.now.collections }
    {
        &self.collections
    }

    /// The program of the method of this name. A collection `c` with rules has the methods `/c/insert`,
    /// `/c/update` and `/c/remove`.
    pub fn method(&self, name: &Text) -> Option<&Program>
        ensures { option_copied result ≡ method self.now name.now }
    {
        self.methods.get(name)
    }

    /// The rules by which clients may write to the collection of this name, if it has any.
    pub fn rules(&self, collection: &Text) -> Option<&Rules>
        ensures { option_copied result ≡ write_rules self.now collection.now }
    {
        self.guards.get(collection)
    }

    /// The publication of this name.
    pub fn publication(&self, name: &Text) -> Option<&Publication>
        ensures { option_copied result ≡ publication self.now name.now }
    {
        self.publications.get(name)
    }

    /// Whether its store has a collection of this name. It looks through the names.
    pub fn has_collection(&self, name: &Text) -> bool
        ensures { result ≡ has_collection self.now name.now }
    {
        has_name(&self.collections, name)
    }
}
