//! The order of documents by sort keys.
ghost use Rattle.std.specs.Prelude.{◌≡◌, ◌∷◌, ℕ, List, [], Some, option_map};
ghost use Rattle.value_model.specs.Order.{compare};
ghost use Rattle.ejson_value.specs.declared.sort.SortKey.{SortKey};
ghost use Rattle.ejson_value.specs.View.{view};
ghost use Rattle.sort_window.specs.Sorting.{reached, sort_value, key_cmp, docs_cmp, id_doc_cmp, is_before};
ghost use Rattle.sort_window.specs.SortingLaws.{IsStrictTotal};

use ejson_value::{Doc, Part, Path, SortKey, SortKeys, Text, Value, compare};
use std::cmp::Ordering;

// The field of an object; other values have none.
fn field<'a>(value: &'a Value, name: &Text) -> Option<&'a Value>
    ensures { (rest : List (List ℕ)) →
        reached rest (option_map (λ v. view v.now) result) ≡ reached (name.now ∷ rest) (Some (view value.now)) }
{
    match value {
        Value::Object(doc) => doc.get(name),
        _ => None,
    }
}

// What the parts reach from a value, if they reach anything.
fn value_at<'a>(parts: &[Part], value: &'a Value) -> Option<&'a Value>
    ensures { reached [] (option_map (λ v. view v.now) result) ≡ reached parts.now (Some (view value.now)) }
{
    let mut found = Some(value);
    for part in parts {
        found = match found {
            None => None,
            Some(value) => field(value, part.name()),
        };
    }
    found
}

// What the path reaches in a document, if it reaches anything.
fn sort_value<'a>(path: &Path, doc: &'a Doc) -> Option<&'a Value>
    ensures { reached [] (option_map (λ v. view v.now) result) ≡ sort_value path.now doc.now }
{
    match path.parts() {
        [] => None,
        [first, rest @ ..] => {
            match doc.get(first.name()) {
                None => None,
                Some(value) => value_at(rest, value),
            }
        }
    }
}

// The order of two documents by the values at the path.
fn compare_at(path: &Path, a: &Doc, b: &Doc) -> Ordering
    ensures { result ≡ compare (sort_value path.now a.now) (sort_value path.now b.now) }
{
    let null = Value::Null;
    compare(
        sort_value(path, a).unwrap_or(&null),
        sort_value(path, b).unwrap_or(&null),
    )
}

fn compare_by(key: &SortKey, a: &Doc, b: &Doc) -> Ordering
    ensures { result ≡ key_cmp key.now a.now b.now }
{
    if key.descending {
        compare_at(&key.path, b, a)
    } else {
        compare_at(&key.path, a, b)
    }
}

fn compare_docs(sort: &[SortKey], a: &Doc, b: &Doc) -> Ordering
    ensures { result ≡ docs_cmp sort.now a.now b.now }
{
    for key in sort {
        let order = compare_by(key, a, b);
        if order.is_ne() {
            return order;
        }
    }
    Ordering::Equal
}

/// The order of two documents with their ids.
pub(crate) fn compare_rows(sort: &SortKeys, a_id: &Text, a: &Doc, b_id: &Text, b: &Doc) -> Ordering
    ensures { result ≡ id_doc_cmp sort.now a_id.now a.now b_id.now b.now }
{
    compare_docs(sort.as_slice(), a, b).then(a_id.cmp(b_id))
}

/// Whether the first document stands before the other one: pair by pair by the order of values, a
/// descending pair the other way round, and then by the bytes of the ids. A path goes through
/// objects alone, and where it reaches nothing its value is null.
pub fn before(sort: &SortKeys, a_id: &Text, a: &Doc, b_id: &Text, b: &Doc) -> bool
    ensures { result ≡ is_before sort.now a_id.now a.now b_id.now b.now }
{
    compare_rows(sort, a_id, a, b_id, b).is_lt()
}

/// Of two documents with distinct ids exactly one stands before the other, and what stands before
/// stands before all that follows.
pub fn before_is_a_strict_total_order()
    ensures { (sort : List SortKey) → IsStrictTotal (is_before sort) }
{}
