//! Changes of contents, and what is published of them.
ghost use Rattle.std.specs.Prelude.{◌≡◌, IfOk};

use crate::key::Key;
use crate::list::copy_option;
use crate::memory::Mem;
use crate::value::Doc;

/// What became of the document at a key.
#[derive(Drop)]
pub struct Change {
    pub key: Key,
    /// The document before, None where there was none.
    pub before: Option<Doc>,
    /// The document afterwards, None where there is none.
    pub after: Option<Doc>,
}

/// What a publication says of a key, whose collection is the published name.
#[derive(Drop)]
pub struct Publish {
    pub key: Key,
    /// The published document, None where it is published no more.
    pub new: Option<Doc>,
}

impl Change {
    /// A change equal to this one.
    pub fn copy(&self) -> Result<Change, Mem>
        ensures { IfOk result (λ c. c ≡ self.now) }
    {
        Ok(Change {
            key: self.key.copy()?,
            before: copy_option(&self.before)?,
            after: copy_option(&self.after)?,
        })
    }
}
