//! Writing values as the tokens of their trees.
ghost use Rattle.std.specs.Prelude.{◌≡◌, ◌++◌, ◌∷◌, [], OnOk, codes};
ghost use Rattle.json.specs.Token.{begin_object, end_object, begin_array, key, string};
ghost use Rattle.serde_json.specs.Data.{number, string as string_tree};
ghost use Rattle.serde_json.specs.Find.{of_integer};
ghost use Rattle.value_model.specs.Val.{vals_of, fields_of, object as object_value};
ghost use Rattle.ejson_value.specs.View.{view};
ghost use Rattle.ejson_codec.specs.Base64.{base64};
ghost use Rattle.ejson_codec.specs.Tokens.{tree_tokens, elements_tokens, members_tokens};
ghost use Rattle.ejson_codec.specs.Written.{alone, written, items_written, members_written};

use crate::base64_text::encoded;
use crate::text_writer::TextWriter;
use ejson_value::{BoxedName, Bytes, Doc, Items, Mem, Value, Whole};
use std::alloc::Global;

// Puts a whole number.
fn put_whole(out: &mut TextWriter, whole: &Whole) -> Result<(), Mem>
    ensures { OnOk result (out.new ≡ out.old ++ tree_tokens (number (of_integer whole.now))) }
{
    out.whole(whole.get())
}

// Puts a date.
fn put_date(out: &mut TextWriter, moment: &Whole) -> Result<(), Mem>
    ensures { OnOk result (out.new ≡ out.old ++ tree_tokens (alone (codes "$date") (number (of_integer moment.now)))) }
{
    out.begin_object()?;
    out.key("$date")?;
    put_whole(out, moment)?;
    out.end_object()
}

// Puts binary data.
fn put_bytes(alloc: Global, out: &mut TextWriter, bytes: &Bytes) -> Result<(), Mem>
    ensures { OnOk result (out.new ≡ out.old ++ tree_tokens (alone (codes "$binary") (string_tree (base64 bytes.now)))) }
{
    let text = encoded(alloc, bytes.as_slice())?;
    out.begin_object()?;
    out.key("$binary")?;
    out.string(text.as_str())?;
    out.end_object()
}

// Puts the object of a value of this user type, up to what stands for the value.
fn begin_user(out: &mut TextWriter, name: &BoxedName) -> Result<(), Mem>
    ensures { OnOk result (out.new ≡ out.old ++ begin_object ∷ key (codes "$type") ∷ string name.now ∷ key (codes "$value") ∷ []) }
{
    out.begin_object()?;
    out.key("$type")?;
    out.string(name.get().get().as_str())?;
    out.key("$value")
}

// Puts the object of `$escape`, up to the object that stands there.
fn begin_escape(out: &mut TextWriter) -> Result<(), Mem>
    ensures { OnOk result (out.new ≡ out.old ++ begin_object ∷ key (codes "$escape") ∷ []) }
{
    out.begin_object()?;
    out.key("$escape")
}

/// Puts the value behind what is written.
#[cycle(tokens)]
pub fn put_value(alloc: Global, out: &mut TextWriter, value: &Value) -> Result<(), Mem>
    ensures { OnOk result (out.new ≡ out.old ++ tree_tokens (written (view value.now))) }
{
    match value {
        Value::Null => out.null(),
        Value::Bool(truth) => out.boolean(*truth),
        Value::Int(number) => put_whole(out, number),
        Value::Text(text) => out.string(text.as_str()),
        Value::Date(moment) => put_date(out, moment),
        Value::Bytes(bytes) => put_bytes(alloc, out, bytes),
        Value::List(items) => put_items(alloc, out, items),
        Value::Object(doc) => put_document(alloc, out, doc),
        Value::User { name, value } => {
            begin_user(out, name)?;
            put_value(alloc, out, value.get())?;
            out.end_object()
        }
    }
}

/// Puts the list behind what is written.
#[cycle(tokens)]
pub fn put_items(alloc: Global, out: &mut TextWriter, items: &Items) -> Result<(), Mem>
    ensures { OnOk result (out.new ≡ out.old ++ begin_array ∷ elements_tokens (items_written (vals_of items.now))) }
{
    out.begin_array()?;
    for item in items.as_slice() {
        put_value(alloc, out, item)?;
    }
    out.end_array()
}

/// Puts the document behind what is written, under `$escape` if its names are special.
#[cycle(tokens)]
pub fn put_document(alloc: Global, out: &mut TextWriter, doc: &Doc) -> Result<(), Mem>
    ensures { OnOk result (out.new ≡ out.old ++ tree_tokens (written (object_value (fields_of doc.now)))) }
{
    if !doc.has_special_names() {
        return put_fields(alloc, out, doc);
    }
    begin_escape(out)?;
    put_fields(alloc, out, doc)?;
    out.end_object()
}

// Puts the object of the document's fields.
#[cycle(tokens)]
fn put_fields(alloc: Global, out: &mut TextWriter, doc: &Doc) -> Result<(), Mem>
    ensures { OnOk result (out.new ≡ out.old ++ begin_object ∷ members_tokens (members_written (fields_of doc.now))) }
{
    out.begin_object()?;
    for (name, value) in doc.iter() {
        out.key(name.as_str())?;
        put_value(alloc, out, value)?;
    }
    out.end_object()
}
