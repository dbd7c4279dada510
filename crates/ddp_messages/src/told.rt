//! What the members of a message's object say, read from the tokens of a text.
ghost use Rattle.std.specs.Prelude.{◌≡◌, [], ◌<◌, length, OnOk};
ghost use Rattle.ddp_messages.specs.Places.{text_there, document_there, list_there, StandsRead, OtherRead, MemberRead, IsNoTextKey, Says};
ghost use Rattle.ddp_messages.specs.Places.{MembersSaid, TextSaid};

use ejson_codec::{PlainFault, next_value, put_field};
use ejson_value::{Doc, Items, Value};
use json::{Reader, Scratch, Token};
use std::alloc::Global;

/// The members of an object, each in its place.
#[derive(Drop)]
pub(crate) struct Told<'a> {
    pub(crate) msg: Option<&'a str>,
    pub(crate) id: Option<&'a str>,
    pub(crate) collection: Option<&'a str>,
    pub(crate) method: Option<&'a str>,
    pub(crate) fields: Option<Doc>,
    pub(crate) params: Option<Items>,
    // The members of all other names.
    pub(crate) others: Doc,
}

// Reads a text into its place.
fn tell_text<'a>(reader: &mut Reader<'a>, place: &mut Option<&'a str>) -> Result<(), PlainFault>
    ensures read { OnOk result (StandsRead reader.old reader.new (text_there place.new)) }
    ensures shorter { OnOk result (length reader.new < length reader.old) }
{
    match reader.next() {
        Some(Token::String(text)) => {
            *place = Some(text);
            Ok(())
        }
        _ => Err(PlainFault::NotPlain),
    }
}

// Reads a document's fields into their place.
fn tell_document(
    alloc: Global,
    reader: &mut Reader<'_>,
    place: &mut Option<Doc>,
) -> Result<(), PlainFault>
    ensures read { OnOk result (StandsRead reader.old reader.new (document_there place.new)) }
    ensures shorter { OnOk result (length reader.new < length reader.old) }
{
    match next_value(alloc, reader)? {
        Value::Object(mut doc) => {
            doc.count();
            *place = Some(doc);
            Ok(())
        }
        _ => Err(PlainFault::NotPlain),
    }
}

// Reads a list into its place.
fn tell_list(
    alloc: Global,
    reader: &mut Reader<'_>,
    place: &mut Option<Items>,
) -> Result<(), PlainFault>
    ensures read { OnOk result (StandsRead reader.old reader.new (list_there place.new)) }
    ensures shorter { OnOk result (length reader.new < length reader.old) }
{
    match next_value(alloc, reader)? {
        Value::List(items) => {
            *place = Some(items);
            Ok(())
        }
        _ => Err(PlainFault::NotPlain),
    }
}

// Reads a value that has no place of its own.
fn tell_other(
    alloc: Global,
    key: &str,
    reader: &mut Reader<'_>,
    others: &mut Doc,
) -> Result<(), PlainFault>
    ensures read { OnOk result (OtherRead key.now reader.old reader.new others.old others.new) }
    ensures shorter { OnOk result (length reader.new < length reader.old) }
{
    let value = next_value(alloc, reader)?;
    Ok(put_field(alloc, others, key, value)?)
}

impl<'a> Told<'a> {
    /// Nothing is told.
    pub(crate) fn new(alloc: Global) -> Told<'a>
        ensures { Says result [] }
    {
        Told {
            msg: None,
            id: None,
            collection: None,
            method: None,
            fields: None,
            params: None,
            others: Doc::new(alloc),
        }
    }

    // Reads the value of this key into its place.
    fn tell(&mut self, alloc: Global, key: &str, reader: &mut Reader<'a>) -> Result<(), PlainFault>
        ensures read { OnOk result (MemberRead key.now reader.old reader.new self.old self.new) }
        ensures shorter { OnOk result (length reader.new < length reader.old) }
    {
        match key {
            "msg" => tell_text(reader, &mut self.msg),
            "id" => tell_text(reader, &mut self.id),
            "collection" => tell_text(reader, &mut self.collection),
            "method" => tell_text(reader, &mut self.method),
            _ => self.tell_value(alloc, key, reader),
        }
    }

    // Reads the value of a key that isn't one of a text.
    fn tell_value(
        &mut self,
        alloc: Global,
        key: &str,
        reader: &mut Reader<'a>,
    ) -> Result<(), PlainFault>
        requires { IsNoTextKey key.now }
        ensures read { OnOk result (MemberRead key.now reader.old reader.new self.old self.new) }
        ensures shorter { OnOk result (length reader.new < length reader.old) }
    {
        match key {
            "fields" => tell_document(alloc, reader, &mut self.fields),
            "params" => tell_list(alloc, reader, &mut self.params),
            _ => tell_other(alloc, key, reader, &mut self.others),
        }
    }

    // Reads the members of the object that has begun.
    fn tell_all(&mut self, alloc: Global, reader: &mut Reader<'a>) -> Result<(), PlainFault>
        requires { Says self.old [] }
        ensures { OnOk result (MembersSaid reader.old reader.new self.new) }
    {
        'members: while let Some(key) = reader.next_key()? {
            self.tell(alloc, key, reader)?;
        }
        Ok(())
    }

    /// Reads the members of the object that the text is. `NotPlain` says only that this can't be done.
    pub(crate) fn read(
        &mut self,
        alloc: Global,
        text: &'a str,
        scratch: &'a mut Scratch,
    ) -> Result<(), PlainFault>
        requires { Says self.old [] }
        ensures { OnOk result (TextSaid text.now self.new) }
    {
        let Ok(mut reader) = Reader::new(text, scratch) else {
            return Err(PlainFault::Memory);
        };
        let Some(token) = reader.next() else {
            return Err(PlainFault::NotPlain);
        };
        let Token::BeginObject = token else {
            return Err(PlainFault::NotPlain);
        };
        self.tell_all(alloc, &mut reader)?;
        if reader.next().is_some() {
            return Err(PlainFault::NotPlain);
        }
        Ok(())
    }
}
