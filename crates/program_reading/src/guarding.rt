//! Reading the rules of collections.
ghost use Rattle.std.specs.Prelude.{◌≡◌, ◌||◌, [], IfOk, length, codes, is_some, not, option_map};
ghost use Rattle.value_model.specs.Val.{vals_of, fields_of};
ghost use Rattle.value_model.specs.Branches.{field_of};
ghost use Rattle.ejson_value.specs.View.{view};
ghost use Rattle.program_reading.specs.Faults.{below, element, Gives};
ghost use Rattle.program_reading.specs.Names.{name_reading};
ghost use Rattle.program_reading.specs.Guarding.{action_named, action_of, is_update, action_reading, field_names_behind, field_names_reading};
ghost use Rattle.program_reading.specs.Guarding.{is_rule, rule_parts_reading, rule_reading, rules_behind, rule_list_reading, lists_reading};

use crate::fault::{AppFault, Flaw, bad};
use crate::names::{Shape, has_more_items, has_only_keys, member, read_name};
use crate::place::{below, element};
use ejson_value::{Doc, Items, Mem, Names, Text, Value, copy};
use program_steps::{Action, Rule, RuleList, Rules};
use std::alloc::Global;

const MAX_RULES: usize = 64;

fn action_named(name: &Text) -> Option<Action>
    ensures { result ≡ action_named name.now }
{
    match name.as_str() {
        "insert" => Some(Action::Insert),
        "update" => Some(Action::Update),
        "remove" => Some(Action::Remove),
        _ => None,
    }
}

fn action_of(on: Option<&Value>) -> Option<Action>
    ensures { result ≡ action_of (option_map (λ v. view v.now) on.entry) }
{
    let Some(value) = on else {
        return None;
    };
    match value {
        Value::Text(name) => action_named(name),
        _ => None,
    }
}

fn is_update(action: Option<Action>) -> bool
    ensures { result ≡ is_update action }
{
    match action {
        Some(Action::Update) => true,
        _ => false,
    }
}

fn own_action(alloc: Global, fields: &Doc) -> Result<Option<Action>, Mem>
    ensures { IfOk result (λ a. a ≡ action_of (field_of (fields_of fields.now) (codes "on"))) }
{
    Ok(action_of(member(alloc, fields, "on")?))
}

fn read_action(alloc: Global, place: &Text, fields: &Doc) -> Result<Action, AppFault>
    ensures { Gives (λ a. a) result (action_reading (below place.now (codes "on")) (action_of (field_of (fields_of fields.now) (codes "on")))) }
{
    match own_action(alloc, fields)? {
        Some(action) => Ok(action),
        None => Err(bad(Flaw::BadShape, below(alloc, place.as_str(), "on")?)),
    }
}

fn read_next_name(
    alloc: Global,
    place: &Text,
    names: &Names,
    value: &Value,
) -> Result<Text, AppFault>
    ensures { Gives (λ name. name) result (name_reading (element place.now (length names.now)) (view value.now)) }
{
    let place = element(alloc, place.as_str(), names.len())?;
    read_name(&place, value)
}

fn read_field_names(alloc: Global, place: &Text, items: &Items) -> Result<Names, AppFault>
    ensures { Gives (λ names. names) result (field_names_behind place.now [] (vals_of items.now)) }
{
    let mut names = Names::new(alloc);
    for item in items.as_slice() {
        let name = read_next_name(alloc, place, &names, item)?;
        names.push(name)?;
    }
    Ok(names)
}

fn read_fields(
    alloc: Global,
    place: &Text,
    fields: Option<&Value>,
) -> Result<Option<Names>, AppFault>
    ensures { Gives (λ names. names) result (field_names_reading place.now (option_map (λ v. view v.now) fields.entry)) }
{
    let Some(value) = fields else {
        return Ok(None);
    };
    match value {
        Value::List(items) => Ok(Some(read_field_names(alloc, place, items)?)),
        _ => Err(bad(Flaw::BadShape, place.copy()?)),
    }
}

fn read_own_fields(alloc: Global, place: &Text, fields: &Doc) -> Result<Option<Names>, AppFault>
    ensures { Gives (λ names. names) result (field_names_reading (below place.now (codes "fields")) (field_of (fields_of fields.now) (codes "fields"))) }
{
    let at_fields = below(alloc, place.as_str(), "fields")?;
    read_fields(alloc, &at_fields, member(alloc, fields, "fields")?)
}

fn own_selector(alloc: Global, fields: &Doc) -> Result<Option<Value>, Mem>
    ensures { IfOk result (λ s. option_map (λ v. view v) s ≡ field_of (fields_of fields.now) (codes "selector")) }
{
    match member(alloc, fields, "selector")? {
        None => Ok(None),
        Some(value) => Ok(Some(copy(value)?)),
    }
}

fn read_rule_parts(alloc: Global, place: &Text, fields: &Doc) -> Result<Rule, AppFault>
    ensures { Gives (λ rule. rule) result (rule_parts_reading place.now (fields_of fields.now)) }
{
    let names = read_own_fields(alloc, place, fields)?;
    let on = read_action(alloc, place, fields)?;
    let selector = own_selector(alloc, fields)?;
    Ok(Rule {
        on,
        selector,
        fields: names,
    })
}

// Whether the names of fields stand where they may.
fn may_have_fields(alloc: Global, fields: &Doc) -> Result<bool, Mem>
    ensures { IfOk result (λ b. b
        ≡ (not (is_some (field_of (fields_of fields.now) (codes "fields"))) || is_update (action_of (field_of (fields_of fields.now) (codes "on"))))) }
{
    let names = member(alloc, fields, "fields")?;
    let on = own_action(alloc, fields)?;
    Ok(names.is_none() || is_update(on))
}

// Whether the object has the keys of a rule.
fn is_rule(alloc: Global, fields: &Doc) -> Result<bool, Mem>
    ensures { IfOk result (λ b. b ≡ is_rule (fields_of fields.now)) }
{
    let on = member(alloc, fields, "on")?;
    let may_have_fields = may_have_fields(alloc, fields)?;
    Ok(has_only_keys(Shape::Rule, fields) && on.is_some() && may_have_fields)
}

fn read_rule(alloc: Global, place: &Text, value: &Value) -> Result<Rule, AppFault>
    ensures { Gives (λ rule. rule) result (rule_reading place.now (view value.now)) }
{
    let Value::Object(fields) = value else {
        return Err(bad(Flaw::BadShape, place.copy()?));
    };
    if is_rule(alloc, fields)? {
        read_rule_parts(alloc, place, fields)
    } else {
        Err(bad(Flaw::BadShape, place.copy()?))
    }
}

fn read_next_rule(
    alloc: Global,
    place: &Text,
    rules: &RuleList,
    value: &Value,
) -> Result<Rule, AppFault>
    ensures { Gives (λ rule. rule) result (rule_reading (element place.now (length rules.now)) (view value.now)) }
{
    let place = element(alloc, place.as_str(), rules.len())?;
    read_rule(alloc, &place, value)
}

fn read_each_rule(alloc: Global, place: &Text, items: &Items) -> Result<RuleList, AppFault>
    ensures { Gives (λ rules. rules) result (rules_behind place.now [] (vals_of items.now)) }
{
    let mut rules = RuleList::new(alloc);
    for item in items.as_slice() {
        let rule = read_next_rule(alloc, place, &rules, item)?;
        rules.push(rule)?;
    }
    Ok(rules)
}

fn read_list(alloc: Global, place: &Text, list: Option<&Value>) -> Result<RuleList, AppFault>
    ensures { Gives (λ rules. rules) result (rule_list_reading place.now (option_map (λ v. view v.now) list.entry)) }
{
    let Some(value) = list else {
        return Ok(RuleList::new(alloc));
    };
    let Value::List(items) = value else {
        return Err(bad(Flaw::BadShape, place.copy()?));
    };
    if has_more_items(items, MAX_RULES) {
        return Err(bad(Flaw::TooMany, place.copy()?));
    }
    read_each_rule(alloc, place, items)
}

fn read_own_list(alloc: Global, place: &Text, key: &str, fields: &Doc) -> Result<RuleList, AppFault>
    ensures { Gives (λ rules. rules) result (rule_list_reading (below place.now key.now) (field_of (fields_of fields.now) key.now)) }
{
    let at_list = below(alloc, place.as_str(), key)?;
    read_list(alloc, &at_list, member(alloc, fields, key)?)
}

/// The rules of a collection, which the object at this place lists: `allow` and `deny`, each of which
/// may be missing.
pub fn read_rules(alloc: Global, place: &Text, fields: &Doc) -> Result<Rules, AppFault>
    ensures { Gives (λ rules. rules) result (lists_reading place.now (fields_of fields.now)) }
{
    let allow = read_own_list(alloc, place, "allow", fields)?;
    let deny = read_own_list(alloc, place, "deny", fields)?;
    Ok(Rules { allow, deny })
}
