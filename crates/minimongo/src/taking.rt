//! Taking a message about a document (Meteor's DDP.md, "Managing Data").
ghost use Rattle.std.specs.Prelude.{◌≡◌, IfOk, option_copied};
ghost use Rattle.ejson_value.specs.Fields.{edited};
ghost use Rattle.ejson_value.specs.Messages.{said};
ghost use Rattle.minimongo.specs.Taking.{IsTaken};

use crate::serve_fault::ServeFault;
use ejson_value::{DataMsg, Doc, Mem, Text};

// The document with these fields, without the cleared ones.
fn changed(doc: &Doc, fields: &Doc, cleared: &[Text]) -> Result<Doc, Mem>
    ensures { IfOk result (λ d. d ≡ edited doc.now fields.now cleared.now) }
{
    let mut doc = doc.copy()?;
    doc.change(fields, cleared)?;
    Ok(doc)
}

/// The document after the message, None where there is none. `Wrong` comes exactly where the message
/// doesn't fit the document.
pub fn taken(doc: Option<&Doc>, message: &DataMsg) -> Result<Option<Doc>, ServeFault>
    ensures { IsTaken (option_copied doc.entry) (said message.now).1 result }
{
    match message {
        DataMsg::Added { fields, .. } => match doc {
            None => Ok(Some(fields.copy()?)),
            Some(_) => Err(ServeFault::Wrong(5)),
        },
        DataMsg::Changed {
            fields,
            cleared,
            ..
        } => match doc {
            None => Err(ServeFault::Wrong(6)),
            Some(doc) => Ok(Some(changed(doc, fields, cleared.as_slice())?)),
        },
        DataMsg::Removed { .. } => match doc {
            None => Err(ServeFault::Wrong(7)),
            Some(_) => Ok(None),
        },
    }
}
