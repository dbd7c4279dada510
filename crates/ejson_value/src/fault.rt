//! Errors that a client is told.
ghost use Rattle.std.specs.Prelude.{◌≡◌, IfOk};

use crate::list::Copied;
use crate::memory::Mem;
use crate::text::Text;

/// An error that a client is told: a code, as `404`, and a reason in words (Meteor's DDP.md,
/// "Errors").
#[derive(Drop)]
pub struct Fault {
    pub code: Text,
    pub reason: Text,
}

impl Fault {
    /// An error equal to this one.
    pub fn copy(&self) -> Result<Fault, Mem>
        ensures { IfOk result (λ fault. fault ≡ self.now) }
    {
        Ok(Fault {
            code: self.code.copy()?,
            reason: self.reason.copy()?,
        })
    }
}

impl Copied for Fault {
    fn copied(&self) -> Result<Fault, Mem> {
        self.copy()
    }
}
