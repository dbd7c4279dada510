//! Messages about documents.
ghost use Rattle.std.specs.Prelude.{◌≡◌, IfOk};

use crate::key::Key;
use crate::list::ListOf;
use crate::memory::Mem;
use crate::text::Text;
use crate::value::Doc;

/// One message about one document, to whoever keeps a copy of it (Meteor's DDP.md, "Managing
/// data"). `merge_box` makes them and hands the type on.
#[derive(Drop)]
pub enum DataMsg {
    /// The document is new, with these fields.
    Added {
        key: Key,
        fields: Doc,
    },
    /// These fields are new or have a new value, and the cleared ones are gone.
    Changed {
        key: Key,
        fields: Doc,
        cleared: ListOf<Text>,
    },
    /// The document is gone.
    Removed {
        key: Key,
    },
}

fn copy_added(key: &Key, fields: &Doc) -> Result<DataMsg, Mem>
    ensures { IfOk result (λ message. message ≡ DataMsg.Added key.now fields.now) }
{
    let key = key.copy()?;
    Ok(DataMsg::Added {
        key,
        fields: fields.copy()?,
    })
}

fn copy_changed(key: &Key, fields: &Doc, cleared: &ListOf<Text>) -> Result<DataMsg, Mem>
    ensures { IfOk result (λ message. message ≡ DataMsg.Changed key.now fields.now cleared.now) }
{
    let key = key.copy()?;
    let fields = fields.copy()?;
    Ok(DataMsg::Changed {
        key,
        fields,
        cleared: cleared.copy()?,
    })
}

impl DataMsg {
    /// A message equal to this one.
    pub fn copy(&self) -> Result<DataMsg, Mem>
        ensures { IfOk result (λ message. message ≡ self.now) }
    {
        match self {
            DataMsg::Added { key, fields } => copy_added(key, fields),
            DataMsg::Changed {
                key,
                fields,
                cleared,
            } => copy_changed(key, fields, cleared),
            DataMsg::Removed { key } => Ok(DataMsg::Removed { key: key.copy()? }),
        }
    }
}
