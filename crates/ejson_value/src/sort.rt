//! Keys to sort documents by.
ghost use Rattle.std.specs.Prelude.{◌≡◌, IfOk};

use crate::list::Copied;
use crate::memory::Mem;
use crate::path::Path;

/// One key to sort documents by: the value at the path, least first, or greatest first where it is
/// descending (as `[path, 1]` and `[path, -1]` in the sort specifiers of Meteor's `find`).
#[derive(Drop)]
pub struct SortKey {
    pub path: Path,
    pub descending: bool,
}

impl SortKey {
    /// A sort key equal to this one.
    pub fn copy(&self) -> Result<SortKey, Mem>
        ensures { IfOk result (λ key. key ≡ self.now) }
    {
        Ok(SortKey {
            path: self.path.copy()?,
            descending: self.descending,
        })
    }
}

impl Copied for SortKey {
    fn copied(&self) -> Result<SortKey, Mem> {
        self.copy()
    }
}
