//! Names of user types.
ghost use Rattle.std.specs.Prelude.{◌≡◌, ◌↔◌, IsOk, IfOk, IfErr};
ghost use Rattle.value_model.specs.Valid.{IsUserName};

use crate::memory::Mem;
use crate::text::Text;
use std::alloc::Global;
use std::marker::Model;

/// The most bytes that the name of a user type has.
pub const MAX_USER_NAME: usize = 128;

/// The name of a user type, `$type` in its EJSON: a text of 1 to 128 bytes. A contract sees it as
/// its bytes.
#[derive(Drop)]
pub struct UserName {
    text: Text,
}

/// The name of a user type, on the heap. A contract sees it as that name.
pub struct BoxedName {
    inner: Box<UserName>,
}

impl Model for UserName {
    ghost use Rattle.std.specs.Prelude.{List, ℕ};
    ghost use Rattle.value_model.specs.Valid.{IsUserName};

    ghost Value = { List ℕ };

    ghost view = { λ a. a.text };

    ghost invariant = { λ a. IsUserName a.text };
}

impl Model for BoxedName {
    ghost use Rattle.std.specs.Prelude.{List, ℕ};

    ghost Value = { List ℕ };

    ghost view = { λ a. a.inner.value };
}

// It is dropped by a call, so that no walk of the borrow checker splits where a value is dropped.
impl Drop for BoxedName {
    fn drop(self) {
        let BoxedName { inner } = self;
        drop(inner);
    }
}

impl UserName {
    /// The name that the text is, or the text where it has no bytes or more than 128.
    pub fn of(text: Text) -> Result<UserName, Text>
        ensures in_range { IsOk result ↔ IsUserName text }
        ensures value { IfOk result (λ name. name ≡ text) }
        ensures handed_back { IfErr result (λ back. back ≡ text) }
    {
        if text.is_empty() || text.len() > MAX_USER_NAME {
            Err(text)
        } else {
            Ok(UserName { text })
        }
    }

    /// The name as a text.
    pub fn get(&self) -> &Text
        ensures value { result.now ≡ self.now }
        ensures in_range { IsUserName result.now }
    {
        &self.text
    }

    /// A name equal to this one.
    pub fn copy(&self) -> Result<UserName, Mem>
        ensures { IfOk result (λ name. name ≡ self.now) }
    {
        Ok(UserName {
            text: self.text.copy()?,
        })
    }
}

impl BoxedName {
    /// The name, put on the heap.
    pub fn of(alloc: Global, name: UserName) -> Result<BoxedName, Mem>
        ensures { IfOk result (λ boxed. boxed ≡ name) }
    {
        Ok(BoxedName {
            inner: Box::new(alloc, name)?,
        })
    }

    /// The name.
    pub fn get(&self) -> &UserName
        ensures { result.now ≡ self.now }
    {
        self.inner.as_ref()
    }

    /// A name on the heap equal to this one.
    pub fn copy(&self) -> Result<BoxedName, Mem>
        ensures { IfOk result (λ name. name ≡ self.now) }
    {
        BoxedName::of(*Box::allocator(&self.inner), self.get().copy()?)
    }
}
