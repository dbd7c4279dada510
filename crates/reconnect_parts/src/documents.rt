//! The documents that a session sent.
ghost use Rattle.ejson_value.specs.Messages.{said};
ghost use Rattle.map_model.specs.Differences.{added, changed, removed};
ghost use Rattle.reconnect_parts.specs.Taking.{Takes};

use crate::fault::HeardFault;
use ejson_value::{Contents, DataMsg, Doc, Key, Text};

fn add(contents: &mut Contents, key: &Key, fields: &Doc) -> Result<(), HeardFault>
    ensures { Takes key.now (added fields.now) contents.old contents.new result }
{
    if contents.get(key).is_some() {
        return Err(HeardFault::ServerSent(5));
    }
    let key = key.copy()?;
    contents.put(key, fields.copy()?)?;
    Ok(())
}

fn change(
    contents: &mut Contents,
    key: &Key,
    fields: &Doc,
    cleared: &[Text],
) -> Result<(), HeardFault>
    ensures { Takes key.now (changed fields.now cleared.now) contents.old contents.new result }
{
    if contents.get(key).is_none() {
        return Err(HeardFault::ServerSent(6));
    }
    let _bytes = contents.change(key, fields, cleared)?;
    Ok(())
}

fn remove(contents: &mut Contents, key: &Key) -> Result<(), HeardFault>
    ensures { Takes key.now removed contents.old contents.new result }
{
    if contents.get(key).is_none() {
        return Err(HeardFault::ServerSent(7));
    }
    drop(contents.remove(key));
    Ok(())
}

/// Takes a message about a document, where it fits what is there.
pub fn take(contents: &mut Contents, message: &DataMsg) -> Result<(), HeardFault>
    ensures { Takes (said message.now).0 (said message.now).1 contents.old contents.new result }
{
    match message {
        DataMsg::Added { key, fields } => add(contents, key, fields),
        DataMsg::Changed {
            key,
            fields,
            cleared,
        } => change(contents, key, fields, cleared.as_slice()),
        DataMsg::Removed { key } => remove(contents, key),
    }
}
