//! Reading the cursors of a publication.
ghost use Rattle.std.specs.Prelude.{◌≡◌, [], length, codes, IfOk, option_map, unwrap_or};
ghost use Rattle.value_model.specs.Val.{fields_of, vals_of};
ghost use Rattle.value_model.specs.Branches.{field_of};
ghost use Rattle.ejson_value.specs.View.{view};
ghost use Rattle.app_model.specs.Rules.{publishes};
ghost use Rattle.program_reading.specs.Faults.{below, element, Gives};
ghost use Rattle.program_reading.specs.Names.{known_reading};
ghost use Rattle.app_model.specs.Fields.{projection_reading};
ghost use Rattle.app_model.specs.Reading.{is_cursor, is_published, published_as, alias_reading, selector_of, names_reading, shown_reading};
ghost use Rattle.app_model.specs.Reading.{parts_reading, rule_reading, rules_behind, cursors_reading, named_reading, publication_reading};

use crate::fields::read_projection;
use crate::publication::{CursorRule, CursorRules, Projection, Publication};
use crate::sorting::read_window;
use ejson_value::{Doc, Items, Mem, Names, SortKeys, Text, Value, copy};
use program_reading::{
    AppFault, Flaw, Shape, bad, below, element, has_more_items, has_only_keys, is_valid_name,
    member, read_known, read_name,
};
use program_steps::Template;
use std::alloc::Global;

const MAX_CURSORS: usize = 8;

// Whether the object has the keys of a cursor: no other ones, and its collection's.
fn is_cursor(alloc: Global, fields: &Doc) -> Result<bool, Mem>
    ensures { IfOk result (λ b. b ≡ is_cursor (fields_of fields.now)) }
{
    let collection = member(alloc, fields, "collection")?;
    Ok(has_only_keys(Shape::Cursor, fields) && collection.is_some())
}

fn has_published_name(rules: &CursorRules, name: &Text) -> bool
    ensures { result ≡ publishes rules.now name.now }
{
    for rule in rules.as_slice() {
        if rule.name.as_str() == name.as_str() {
            return true;
        }
    }
    false
}

fn is_published(rules: &CursorRules, name: Option<&Value>) -> bool
    ensures { result ≡ is_published rules.now (option_map (λ v. view v.now) name.entry) }
{
    let Some(value) = name else {
        return false;
    };
    match value {
        Value::Text(name) => has_published_name(rules, name),
        _ => false,
    }
}

// Whether one of the cursors publishes under the name of the cursor that the object describes.
fn is_double(alloc: Global, rules: &CursorRules, fields: &Doc) -> Result<bool, Mem>
    ensures { IfOk result (λ b. b ≡ is_published rules.now
        (published_as (field_of (fields_of fields.now) (codes "as")) (field_of (fields_of fields.now) (codes "collection")))) }
{
    let alias = member(alloc, fields, "as")?;
    let collection = member(alloc, fields, "collection")?;
    Ok(match alias {
        Some(name) => is_published(rules, Some(name)),
        None => is_published(rules, collection),
    })
}

fn read_alias(place: &Text, alias: Option<&Value>) -> Result<Option<Text>, AppFault>
    ensures { Gives (λ name. name) result (alias_reading place.now (option_map (λ v. view v.now) alias.entry)) }
{
    match alias {
        None => Ok(None),
        Some(value) => Ok(Some(read_name(place, value)?)),
    }
}

fn read_selector(alloc: Global, selector: Option<&Value>) -> Result<Template, Mem>
    ensures { IfOk result (λ t. t ≡ selector_of (option_map (λ v. view v.now) selector.entry)) }
{
    Ok(Template {
        value: match selector {
            Some(value) => copy(value)?,
            None => Value::Object(Doc::new(alloc)),
        },
    })
}

fn named(alias: Option<Text>, collection: &Text) -> Result<Text, Mem>
    ensures { IfOk result (λ name. name ≡ unwrap_or alias collection.now) }
{
    match alias {
        Some(name) => Ok(name),
        None => collection.copy(),
    }
}

fn read_own_name(alloc: Global, place: &Text, fields: &Doc) -> Result<Option<Text>, AppFault>
    ensures { Gives (λ name. name) result (alias_reading (below place.now (codes "as")) (field_of (fields_of fields.now) (codes "as"))) }
{
    let at_alias = below(alloc, place.as_str(), "as")?;
    read_alias(&at_alias, member(alloc, fields, "as")?)
}

fn read_collection(
    alloc: Global,
    collections: &Names,
    place: &Text,
    fields: &Doc,
) -> Result<Text, AppFault>
    ensures { Gives (λ name. name) result
        (known_reading collections.now (below place.now (codes "collection")) (field_of (fields_of fields.now) (codes "collection"))) }
{
    let at_collection = below(alloc, place.as_str(), "collection")?;
    read_known(
        collections,
        &at_collection,
        member(alloc, fields, "collection")?,
    )
}

// The collection's name, and the published one.
fn read_names(
    alloc: Global,
    collections: &Names,
    place: &Text,
    fields: &Doc,
) -> Result<(Text, Text), AppFault>
    ensures { Gives (λ names. names) result (names_reading collections.now place.now (fields_of fields.now)) }
{
    let alias = read_own_name(alloc, place, fields)?;
    let collection = read_collection(alloc, collections, place, fields)?;
    let name = named(alias, &collection)?;
    Ok((collection, name))
}

fn read_published(alloc: Global, place: &Text, fields: &Doc) -> Result<Projection, AppFault>
    ensures { Gives (λ p. p) result (projection_reading (below place.now (codes "fields")) (field_of (fields_of fields.now) (codes "fields"))) }
{
    let at_fields = below(alloc, place.as_str(), "fields")?;
    read_projection(alloc, &at_fields, member(alloc, fields, "fields")?)
}

type Shown = (Projection, (Option<u32>, SortKeys));

// The projection, the limit and the sort keys of a cursor.
fn read_shown(alloc: Global, place: &Text, fields: &Doc) -> Result<Shown, AppFault>
    ensures { Gives (λ shown. shown) result (shown_reading place.now (fields_of fields.now)) }
{
    let projection = read_published(alloc, place, fields)?;
    let window = read_window(alloc, place, fields)?;
    Ok((projection, window))
}

fn read_template(alloc: Global, fields: &Doc) -> Result<Template, Mem>
    ensures { IfOk result (λ t. t ≡ selector_of (field_of (fields_of fields.now) (codes "selector"))) }
{
    read_selector(alloc, member(alloc, fields, "selector")?)
}

fn read_parts(
    alloc: Global,
    collections: &Names,
    place: &Text,
    fields: &Doc,
) -> Result<CursorRule, AppFault>
    ensures { Gives (λ rule. rule) result (parts_reading collections.now place.now (fields_of fields.now)) }
{
    let (collection, name) = read_names(alloc, collections, place, fields)?;
    let (projection, (limit, sort)) = read_shown(alloc, place, fields)?;
    let selector = read_template(alloc, fields)?;
    Ok(CursorRule {
        collection,
        name,
        selector,
        fields: projection,
        sort,
        limit,
    })
}

// A cursor behind others, whose published names it may not have.
fn read_rule(
    alloc: Global,
    collections: &Names,
    place: &Text,
    rules: &CursorRules,
    value: &Value,
) -> Result<CursorRule, AppFault>
    ensures { Gives (λ rule. rule) result (rule_reading collections.now place.now rules.now (view value.now)) }
{
    let Value::Object(fields) = value else {
        return Err(bad(Flaw::BadShape, place.copy()?));
    };
    if !is_cursor(alloc, fields)? {
        return Err(bad(Flaw::BadShape, place.copy()?));
    }
    if is_double(alloc, rules, fields)? {
        return Err(bad(Flaw::DoubleName, place.copy()?));
    }
    read_parts(alloc, collections, place, fields)
}

fn read_next_rule(
    alloc: Global,
    collections: &Names,
    place: &Text,
    rules: &CursorRules,
    value: &Value,
) -> Result<CursorRule, AppFault>
    ensures { Gives (λ rule. rule) result (rule_reading collections.now (element place.now (length rules.now)) rules.now (view value.now)) }
{
    let place = element(alloc, place.as_str(), rules.len())?;
    read_rule(alloc, collections, &place, rules, value)
}

fn read_rules(
    alloc: Global,
    collections: &Names,
    place: &Text,
    items: &Items,
) -> Result<CursorRules, AppFault>
    ensures { Gives (λ rules. rules) result (rules_behind collections.now place.now [] (vals_of items.now)) }
{
    let mut rules = CursorRules::new(alloc);
    for item in items.as_slice() {
        let rule = read_next_rule(alloc, collections, place, &rules, item)?;
        rules.push(rule)?;
    }
    Ok(rules)
}

fn read_cursors(
    alloc: Global,
    collections: &Names,
    place: Text,
    items: &Items,
) -> Result<Publication, AppFault>
    ensures { Gives (λ p. p) result (cursors_reading collections.now place (vals_of items.now)) }
{
    if has_more_items(items, MAX_CURSORS) {
        return Err(bad(Flaw::TooMany, place));
    }
    Ok(Publication {
        cursors: read_rules(alloc, collections, &place, items)?,
    })
}

fn read_named(
    alloc: Global,
    collections: &Names,
    place: Text,
    name: &Text,
    items: &Items,
) -> Result<Publication, AppFault>
    ensures { Gives (λ p. p) result (named_reading collections.now place name.now (vals_of items.now)) }
{
    if is_valid_name(name) {
        read_cursors(alloc, collections, place, items)
    } else {
        Err(bad(Flaw::BadName, place))
    }
}

// The publication of this name.
pub(crate) fn read_publication(
    alloc: Global,
    collections: &Names,
    name: &Text,
    value: &Value,
) -> Result<Publication, AppFault>
    ensures { Gives (λ p. p) result (publication_reading collections.now name.now (view value.now)) }
{
    let place = below(alloc, "publications", name.as_str())?;
    match value {
        Value::List(items) => read_named(alloc, collections, place, name, items),
        _ => Err(bad(Flaw::BadShape, place)),
    }
}
