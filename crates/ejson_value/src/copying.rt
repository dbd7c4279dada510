//! Copies of values.
ghost use Rattle.std.specs.Prelude.{◌≡◌, IfOk, OnOk};
ghost use Rattle.value_model.specs.Val.{user};
ghost use Rattle.value_model.specs.Doc.{put};
ghost use Rattle.ejson_value.specs.View.{view};

use crate::list::Copied;
use crate::memory::Mem;
use crate::text::Text;
use crate::user::BoxedName;
use crate::value::{Boxed, Doc, Items, Value};

/// A value equal to this one.
#[cycle(copying)]
pub fn copy(value: &Value) -> Result<Value, Mem>
    ensures { IfOk result (λ v. view v ≡ view value.now) }
{
    match value {
        Value::Null => Ok(Value::Null),
        Value::Bool(truth) => Ok(Value::Bool(*truth)),
        Value::Int(number) => Ok(Value::Int(*number)),
        Value::Text(text) => Ok(Value::Text(text.copy()?)),
        Value::Date(moment) => Ok(Value::Date(*moment)),
        Value::Bytes(bytes) => Ok(Value::Bytes(bytes.copy()?)),
        Value::List(items) => Ok(Value::List(items.copy()?)),
        Value::Object(doc) => Ok(Value::Object(doc.copy()?)),
        Value::User { name, value } => copy_user(name, value),
    }
}

#[cycle(copying)]
fn copy_user(name: &BoxedName, value: &Boxed) -> Result<Value, Mem>
    ensures { IfOk result (λ v. view v ≡ user name.now value.now) }
{
    let name = name.copy()?;
    Ok(Value::User {
        name,
        value: value.copy()?,
    })
}

impl Boxed {
    /// A value on the heap equal to this one.
    #[cycle(copying)]
    pub fn copy(&self) -> Result<Boxed, Mem>
        ensures { IfOk result (λ boxed. boxed ≡ self.now) }
    {
        self.beside(copy(self.get())?)
    }
}

impl Copied for Doc {
    fn copied(&self) -> Result<Doc, Mem> {
        self.copy()
    }
}
