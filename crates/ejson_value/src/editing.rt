//! A change of a document: several fields at once.
ghost use Rattle.std.specs.Prelude.{◌≡◌, true, false, IfOk, OnOk, OnErr};
ghost use Rattle.map_model.specs.Differences.{with_fields, without};
ghost use Rattle.value_model.specs.Order.{text_cmp};
ghost use Rattle.value_model.specs.Doc.{put};
ghost use Rattle.ejson_value.specs.View.{view};
ghost use Rattle.ejson_value.specs.Fields.{edited};

use crate::copying::copy;
use crate::memory::Mem;
use crate::text::Text;
use crate::value::{Doc, Value};

// Takes the named fields out of the document.
fn clear(doc: &mut Doc, names: &[Text]) -> Result<(), Mem>
    ensures { OnOk result (doc.new ≡ without text_cmp doc.old names.now) }
{
    let mut left = names.len();
    while left > 0 {
        left -= 1;
        drop(doc.remove(&names[left])?);
    }
    Ok(())
}

// Puts a copy of the field into the document.
fn put_copy(doc: &mut Doc, name: &Text, value: &Value) -> Result<(), Mem>
    ensures ok { OnOk result (doc.new ≡ put doc.old name.now (view value.now)) }
    ensures err { OnErr result (doc.new ≡ doc.old) }
{
    let name = name.copy()?;
    doc.put(name, copy(value)?)
}

// Puts copies of the fields into the document.
fn put_copies(doc: &mut Doc, fields: &Doc) -> Result<(), Mem>
    ensures { OnOk result (doc.new ≡ with_fields text_cmp doc.old fields.now) }
{
    doc.known();
    for (name, value) in fields.iter() {
        put_copy(doc, name, value)?;
    }
    Ok(())
}

// The document without the named fields, and then with copies of the others.
fn with_edit(doc: &Doc, fields: &Doc, cleared: &[Text]) -> Result<Doc, Mem>
    ensures { IfOk result (λ now. now ≡ edited doc.now fields.now cleared.now) }
{
    let mut doc = doc.copy()?;
    clear(&mut doc, cleared)?;
    put_copies(&mut doc, fields)?;
    Ok(doc)
}

impl Doc {
    // Puts copies of the fields in place of those of the same names, where it has such ones of all in memory of its own; a
    // single one also where it has none. It says whether it did.
    fn put_in_place(&mut self, fields: &Doc) -> Result<bool, Mem>
        ensures put { IfOk result (λ put. put ≡ true → self.new ≡ with_fields text_cmp self.old fields.now) }
        ensures other { IfOk result (λ put. put ≡ false → self.new ≡ self.old) }
        ensures err { OnErr result (self.new ≡ self.old) }
    {
        match fields.only_field() {
            Some((name, value)) => {
                if !self.set_copy(name, value)? {
                    put_copy(self, name, value)?;
                }
                Ok(true)
            }
            None => Ok(self.replace_all(fields.members()?)),
        }
    }

    // The same, where nothing is to be cleared.
    fn change_in_place(&mut self, fields: &Doc, cleared: &[Text]) -> Result<bool, Mem>
        ensures put { IfOk result (λ put. put ≡ true → self.new ≡ edited self.old fields.now cleared.now) }
        ensures other { IfOk result (λ put. put ≡ false → self.new ≡ self.old) }
        ensures err { OnErr result (self.new ≡ self.old) }
    {
        if cleared.is_empty() {
            self.put_in_place(fields)
        } else {
            Ok(false)
        }
    }

    /// Takes the named fields out, and then puts copies of the others in. On an error nothing has changed. Where nothing is
    /// taken out, it has fields of all these names, and no copy shares its memory, no other field is looked at.
    pub fn change(&mut self, fields: &Doc, cleared: &[Text]) -> Result<(), Mem>
        ensures ok { OnOk result (self.new ≡ edited self.old fields.now cleared.now) }
        ensures err { OnErr result (self.new ≡ self.old) }
    {
        if self.change_in_place(fields, cleared)? {
            return Ok(());
        }
        *self = with_edit(self, fields, cleared)?;
        Ok(())
    }
}
