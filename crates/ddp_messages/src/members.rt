//! Writing the members of a message.
ghost use Rattle.std.specs.Prelude.{◌≡◌, ◌++◌, ◌∷◌, [], IfOk, OnOk, Some, option_map};
ghost use Rattle.json.specs.Token.{begin_array};
ghost use Rattle.serde_json.specs.Data.{string, array};
ghost use Rattle.ejson_value.specs.View.{view};
ghost use Rattle.ejson_codec.specs.Tokens.{tree_tokens, elements_tokens};
ghost use Rattle.ejson_codec.specs.Written.{written};
ghost use Rattle.ddp_messages.specs.Tokens.{field_tokens};
ghost use Rattle.ddp_messages.specs.Written.{text_tree, text_items, texts_tree, values_tree, document_tree, unless_empty, told, fault_written};

use ejson_codec::{TextWriter, put_document, put_items, put_value};
use ejson_value::{Doc, Fault, Items, Mem, Names, Text, Value};
use std::alloc::Global;

/// Puts these words at the key.
pub(crate) fn put_str(out: &mut TextWriter, key: &str, words: &str) -> Result<(), Mem>
    ensures { OnOk result (out.new ≡ out.old ++ field_tokens key.now (text_tree words.now)) }
{
    out.key(key)?;
    out.string(words)
}

/// Puts a text at the key.
pub(crate) fn put_text(out: &mut TextWriter, key: &str, text: &Text) -> Result<(), Mem>
    ensures { OnOk result (out.new ≡ out.old ++ field_tokens key.now (text_tree text.now)) }
{
    put_str(out, key, text.as_str())
}

/// Puts a text at the key, if there is one.
pub(crate) fn put_optional_text(
    out: &mut TextWriter,
    key: &str,
    text: &Option<Text>,
) -> Result<(), Mem>
    ensures { OnOk result (out.new ≡ out.old ++ field_tokens key.now (option_map string text.now)) }
{
    match text {
        Some(text) => put_text(out, key, text),
        None => Ok(()),
    }
}

// Puts a list of texts behind what is written.
fn put_array(out: &mut TextWriter, texts: &Names) -> Result<(), Mem>
    ensures { OnOk result (out.new ≡ out.old ++ begin_array ∷ elements_tokens (text_items texts.now)) }
{
    out.begin_array()?;
    for text in texts.as_slice() {
        out.string(text.as_str())?;
    }
    out.end_array()
}

/// Puts a list of texts at the key.
pub(crate) fn put_texts(out: &mut TextWriter, key: &str, texts: &Names) -> Result<(), Mem>
    ensures { OnOk result (out.new ≡ out.old ++ field_tokens key.now (texts_tree texts.now)) }
{
    out.key(key)?;
    put_array(out, texts)
}

/// Puts a list of texts at the key, if there is one.
pub(crate) fn put_optional_texts(
    out: &mut TextWriter,
    key: &str,
    texts: &Option<Names>,
) -> Result<(), Mem>
    ensures { OnOk result (out.new ≡ out.old ++ field_tokens key.now (option_map (λ ss. array (text_items ss)) texts.now)) }
{
    match texts {
        Some(texts) => put_texts(out, key, texts),
        None => Ok(()),
    }
}

/// Puts a list of texts at the key, unless it is empty.
pub(crate) fn put_some_texts(out: &mut TextWriter, key: &str, texts: &Names) -> Result<(), Mem>
    ensures { OnOk result (out.new ≡ out.old ++ field_tokens key.now (unless_empty texts_tree texts.now)) }
{
    if texts.is_empty() {
        Ok(())
    } else {
        put_texts(out, key, texts)
    }
}

/// Puts a list of values at the key.
pub(crate) fn put_values(
    alloc: Global,
    out: &mut TextWriter,
    key: &str,
    values: &Items,
) -> Result<(), Mem>
    ensures { OnOk result (out.new ≡ out.old ++ field_tokens key.now (values_tree values.now)) }
{
    out.key(key)?;
    put_items(alloc, out, values)
}

/// Puts a value at the key, if there is one.
pub(crate) fn put_optional_value(
    alloc: Global,
    out: &mut TextWriter,
    key: &str,
    value: &Option<Value>,
) -> Result<(), Mem>
    ensures { OnOk result (out.new ≡ out.old ++ field_tokens key.now (option_map written (option_map view value.now))) }
{
    let Some(value) = value else {
        return Ok(());
    };
    out.key(key)?;
    put_value(alloc, out, value)
}

/// Puts a document's fields at the key.
pub(crate) fn put_fields(
    alloc: Global,
    out: &mut TextWriter,
    key: &str,
    fields: &Doc,
) -> Result<(), Mem>
    ensures { OnOk result (out.new ≡ out.old ++ field_tokens key.now (document_tree fields.now)) }
{
    out.key(key)?;
    put_document(alloc, out, fields)
}

/// Puts a document's fields at the key, unless there are none.
pub(crate) fn put_some_fields(
    alloc: Global,
    out: &mut TextWriter,
    key: &str,
    fields: &Doc,
) -> Result<(), Mem>
    ensures { OnOk result (out.new ≡ out.old ++ field_tokens key.now (unless_empty document_tree fields.now)) }
{
    if fields.is_empty() {
        Ok(())
    } else {
        put_fields(alloc, out, key, fields)
    }
}

// The message of an error: its reason, a space, and its code in square brackets.
fn told_text(alloc: Global, fault: &Fault) -> Result<Text, Mem>
    ensures { IfOk result (λ t. t ≡ told fault.now) }
{
    let mut text = Text::new(alloc);
    text.push_str(fault.reason.as_str())?;
    text.push_str(" [")?;
    text.push_str(fault.code.as_str())?;
    text.push_str("]")?;
    Ok(text)
}

// Puts an error behind what is written.
fn put_fault(out: &mut TextWriter, fault: &Fault, message: &Text) -> Result<(), Mem>
    requires { message.now ≡ told fault.now }
    ensures { OnOk result (out.new ≡ out.old ++ tree_tokens (fault_written fault.now)) }
{
    out.begin_object()?;
    put_text(out, "error", &fault.code)?;
    put_str(out, "errorType", "Meteor.Error")?;
    put_text(out, "message", message)?;
    put_text(out, "reason", &fault.reason)?;
    out.end_object()
}

/// Puts an error at the key, if there is one.
pub(crate) fn put_optional_fault(
    alloc: Global,
    out: &mut TextWriter,
    key: &str,
    fault: &Option<Fault>,
) -> Result<(), Mem>
    ensures { OnOk result (out.new ≡ out.old ++ field_tokens key.now (option_map fault_written fault.now)) }
{
    let Some(fault) = fault else {
        return Ok(());
    };
    let message = told_text(alloc, fault)?;
    out.key(key)?;
    put_fault(out, fault, &message)
}
