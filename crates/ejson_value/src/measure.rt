//! How large and how deep values are.
ghost use Rattle.std.specs.Prelude.{◌≡◌, ◌∷◌, [], ◌+◌, ◌≤◌, ◌==◌, length, slice_index, decimal};
ghost use Rattle.std.specs.Fmt.{signed_decimal};
ghost use Rattle.std.specs.List.{list_all};
ghost use Rattle.value_model.specs.Val.{object, vals_of, fields_of};
ghost use Rattle.value_model.specs.Depth.{depth, vals_depth, fields_depth};
ghost use Rattle.value_model.specs.Size.{has_short_escape, escape_size, text_size, binary_wrapper, user_wrapper, base64_size, is_special, names_of};
ghost use Rattle.value_model.specs.Size.{size, vals_size, fields_size};
ghost use Rattle.ejson_value.specs.View.{view, pairs, entries};
ghost use Rattle.ejson_value.specs.Measure.{capped};

use crate::row::Member;
use crate::text::Text;
use crate::user::UserName;
use crate::value::{Boxed, Doc, Items, Value};
use crate::whole::Whole;

// How many digits the number has in decimal.
fn digits(mut number: u64) -> u64
    ensures value { result ≡ length (decimal number) }
    ensures bound { result ≤ 20 }
{
    let mut count = 1;
    while number >= 10 {
        number /= 10;
        count += 1;
    }
    count
}

fn whole_size(whole: &Whole) -> u64
    ensures value { result ≡ length (signed_decimal whole.now) }
    ensures bound { result ≤ 21 }
{
    let number = whole.get();
    if number < 0 {
        1 + digits(number.unsigned_abs())
    } else {
        digits(number.unsigned_abs())
    }
}

fn has_short_escape(byte: u8) -> bool
    ensures { result ≡ has_short_escape byte }
{
    byte == b'"'
        || byte == b'\\'
        || byte == 8
        || byte == b'\t'
        || byte == b'\n'
        || byte == 12
        || byte == b'\r'
}

fn escape_size(byte: u8) -> u64
    ensures { result ≡ escape_size byte }
{
    if has_short_escape(byte) {
        2
    } else if byte < 32 {
        6
    } else {
        1
    }
}

// Whether the byte stands in JSON as it is.
fn is_plain(byte: u8) -> bool
    ensures { result ≡ (escape_size byte == 1) }
{
    if byte < 32 {
        return false;
    }
    escape_size(byte) == 1
}

fn has_plain_bytes(bytes: &[u8]) -> bool
    ensures { result ≡ list_all (λ b. escape_size b == 1) bytes.now }
{
    bytes.iter().all(|byte| is_plain(*byte))
}

// How many bytes these have as a text in JSON, with its quotes and escapes, 2^64 - 1 where they have more.
fn escaped_size(bytes: &[u8]) -> u64
    ensures { result ≡ capped (text_size bytes.now) }
{
    let mut total = 2u64;
    for byte in bytes {
        total = total.saturating_add(escape_size(*byte));
    }
    total
}

// How many bytes the text has as JSON, with its quotes and escapes, 2^64 - 1 where it has more.
fn text_size(text: &Text) -> u64
    ensures { result ≡ capped (text_size text.now) }
{
    let bytes = text.as_bytes();
    if has_plain_bytes(bytes) {
        (bytes.len() as u64).saturating_add(2)
    } else {
        escaped_size(bytes)
    }
}

fn binary_size(bytes: &[u8]) -> u64
    ensures { result ≡ binary_wrapper + base64_size (length bytes.now) }
{
    14 + 4 * ((bytes.len() as u64 + 2) / 3)
}

impl Doc {
    /// Whether its names are those of one of EJSON's special forms, so that its text stands under
    /// `$escape`: `$date`, `$binary`, `$escape` or `$InfNaN` alone, `$flags` with `$regexp`, or
    /// `$type` with `$value`.
    pub fn has_special_names(&self) -> bool
        ensures { result ≡ is_special (names_of (fields_of self.now)) }
    {
        match self.row() {
            Some(members) => have_special_names(members),
            None => has_special_names(self),
        }
    }
}

// The same of the fields of a row.
fn have_special_names(members: &[Member]) -> bool
    ensures { result ≡ is_special (names_of (fields_of (entries (pairs members.now)))) }
{
    let len = members.len();
    if len == 1 {
        return is_special_alone(members[0].name.as_str());
    }
    if len == 2 {
        return are_special_together(members[0].name.as_str(), members[1].name.as_str());
    }
    false
}

fn is_special_alone(name: &str) -> bool
    ensures { result ≡ is_special (name.now ∷ []) }
{
    if begins_with_dollar(name) {
        is_special_name(name)
    } else {
        false
    }
}

fn are_special_together(first: &str, second: &str) -> bool
    ensures { result ≡ is_special (first.now ∷ second.now ∷ []) }
{
    if begins_with_dollar(first) {
        is_special_pair(first, second)
    } else {
        false
    }
}

// The same of any document.
fn has_special_names(doc: &Doc) -> bool
    ensures { result ≡ is_special (names_of (fields_of doc.now)) }
{
    if doc.len() > 2 {
        return false;
    }
    let mut fields = doc.iter();
    let Some((first, _)) = fields.next() else {
        return false;
    };
    if !begins_with_dollar(first.as_str()) {
        return false;
    }
    let Some((second, _)) = fields.next() else {
        return is_special_name(first.as_str());
    };
    is_special_pair(first.as_str(), second.as_str())
}

// The first name of each special form begins with `$`.
fn begins_with_dollar(name: &str) -> bool
    ensures { result ≡ (slice_index name.now 0 == 36) }
{
    let bytes = name.as_bytes();
    !bytes.is_empty() && bytes[0] == b'$'
}

fn is_special_name(name: &str) -> bool
    ensures { result ≡ is_special (name.now ∷ []) }
{
    name == "$date" || name == "$binary" || name == "$escape" || name == "$InfNaN"
}

fn is_special_pair(first: &str, second: &str) -> bool
    ensures { result ≡ is_special (first.now ∷ second.now ∷ []) }
{
    (first == "$flags" && second == "$regexp") || (first == "$type" && second == "$value")
}

/// How many bytes the value's EJSON text has, 2^64 - 1 where it has more.
#[cycle(measuring)]
pub fn size(value: &Value) -> u64
    ensures { result ≡ capped (size (view value.now)) }
{
    match value {
        Value::Null => 4,
        Value::Bool(true) => 4,
        Value::Bool(false) => 5,
        Value::Int(number) => whole_size(number),
        Value::Text(text) => text_size(text),
        Value::Date(moment) => 10 + whole_size(moment),
        Value::Bytes(bytes) => binary_size(bytes.as_slice()),
        Value::List(items) => items_size(items).saturating_add(1).max(2),
        Value::Object(doc) => document_size(doc),
        Value::User { name, value } => user_size(name.get(), value),
    }
}

#[cycle(measuring)]
fn user_size(name: &UserName, value: &Boxed) -> u64
    ensures { result ≡ capped (user_wrapper + text_size name.now + size value.now) }
{
    text_size(name.get())
        .saturating_add(size(value.get()))
        .saturating_add(20)
}

#[cycle(measuring)]
fn items_size(items: &Items) -> u64
    ensures { result ≡ capped (vals_size (vals_of items.now)) }
{
    let mut total = 0u64;
    for item in items.as_slice() {
        total = total.saturating_add(1).saturating_add(size(item));
    }
    total
}

// How many bytes a field has whose value has so many: with its colon and a comma, 2^64 - 1 where it has more.
pub(crate) fn with_name(name: &Text, bytes: u64) -> u64
    ensures { result ≡ capped (2 + text_size name.now + bytes) }
{
    text_size(name).saturating_add(2).saturating_add(bytes)
}

#[cycle(measuring)]
pub(crate) fn field_size(name: &Text, value: &Value) -> u64
    ensures { result ≡ capped (2 + text_size name.now + size (view value.now)) }
{
    with_name(name, size(value))
}

// How many bytes the fields of a row have, 2^64 - 1 where they have more.
#[cycle(measuring)]
pub(crate) fn members_size(members: &[Member]) -> u64
    ensures { result ≡ capped (fields_size (fields_of (entries (pairs members.now)))) }
{
    let mut total = 0u64;
    for member in members {
        total = total.saturating_add(field_size(&member.name, &member.value));
    }
    total
}

/// How many bytes the document's EJSON text has, 2^64 - 1 where it has more. It looks at no value of a document whose
/// fields are counted.
#[cycle(measuring)]
pub fn document_size(doc: &Doc) -> u64
    ensures { result ≡ capped (size (object (fields_of doc.now))) }
{
    let inside = doc.bytes().saturating_add(1).max(2);
    if doc.has_special_names() {
        inside.saturating_add(12)
    } else {
        inside
    }
}

/// How deep lists, objects and values of user types stand in the value, 2^64 - 1 where it is more: one more than what
/// stands inside, 1 where nothing does, and 0 for what holds no other value.
#[cycle(depth)]
pub fn depth(value: &Value) -> u64
    ensures { result ≡ capped (depth (view value.now)) }
{
    match value {
        Value::List(items) => items_depth(items).saturating_add(1),
        Value::Object(doc) => document_depth(doc),
        Value::User { value, .. } => depth(value.get()).saturating_add(1),
        _ => 0,
    }
}

#[cycle(depth)]
fn items_depth(items: &Items) -> u64
    ensures { result ≡ capped (vals_depth (vals_of items.now)) }
{
    let mut deepest = 0;
    for item in items.as_slice() {
        deepest = depth(item).max(deepest);
    }
    deepest
}

/// How deep lists, objects and values of user types stand in the document, itself included, 2^64 - 1 where it is more.
#[cycle(depth)]
pub fn document_depth(doc: &Doc) -> u64
    ensures { result ≡ capped (depth (object (fields_of doc.now))) }
{
    fields_depth(doc).saturating_add(1)
}

#[cycle(depth)]
fn fields_depth(doc: &Doc) -> u64
    ensures { result ≡ capped (fields_depth (fields_of doc.now)) }
{
    match doc.row() {
        Some(members) => members_depth(members),
        None => table_depth(doc),
    }
}

// How deep the fields of a row are.
#[cycle(depth)]
fn members_depth(members: &[Member]) -> u64
    ensures { result ≡ capped (fields_depth (fields_of (entries (pairs members.now)))) }
{
    let mut deepest = 0;
    for member in members {
        deepest = depth(&member.value).max(deepest);
    }
    deepest
}

// How deep the fields of any document are.
#[cycle(depth)]
fn table_depth(doc: &Doc) -> u64
    ensures { result ≡ capped (fields_depth (fields_of doc.now)) }
{
    let mut deepest = 0;
    for (_, value) in doc.iter() {
        deepest = depth(value).max(deepest);
    }
    deepest
}
