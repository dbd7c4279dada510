//! The entries of a history.
ghost use Rattle.std.specs.Prelude.{◌≡◌, IfOk};

use ejson_value::{Copied, Items, Mem, Text, Value, copy};

/// What was done to a store.
#[derive(Drop)]
pub enum Entry {
    /// A run of the method of this name was begun: session `session`, which counts its calls by `k`,
    /// called it with these parameters and this seed.
    Begin {
        session: u32,
        k: u64,
        method: Text,
        params: Items,
        seed: Value,
    },
    /// The run `k` of the session made its next step.
    Step {
        session: u32,
        k: u64,
    },
    /// An administrator's operation was made.
    Admin {
        op: Items,
    },
}

fn copy_call(method: &Text, params: &Items) -> Result<(Text, Items), Mem>
    ensures { IfOk result (λ both. both ≡ (method.now, params.now)) }
{
    Ok((method.copy()?, params.copy()?))
}

impl Entry {
    /// An entry equal to this one.
    pub fn copy(&self) -> Result<Entry, Mem>
        ensures { IfOk result (λ entry. entry ≡ self.now) }
    {
        match self {
            Entry::Begin {
                session,
                k,
                method,
                params,
                seed,
            } => {
                let seed = copy(seed)?;
                let (method, params) = copy_call(method, params)?;
                Ok(Entry::Begin {
                    session: *session,
                    k: *k,
                    method,
                    params,
                    seed,
                })
            }
            Entry::Step { session, k } => Ok(Entry::Step {
                session: *session,
                k: *k,
            }),
            Entry::Admin { op } => Ok(Entry::Admin { op: op.copy()? }),
        }
    }
}

impl Copied for Entry {
    fn copied(&self) -> Result<Entry, Mem> {
        self.copy()
    }
}
