//! Calls of a method, each of 1 MiB, of which a history has room for 127.
ghost use Rattle.std.specs.Prelude.{◌≡◌, ◌<◌};

use app_model::App;
use ejson_codec::parse;
use ejson_value::{Items, Text, Value};
use shared_store::{Caller, Placed, SharedBegin, SharedStore, StoreName, StorePass};
use std::alloc::Global;
use std::sync::Wait;
use std::test::Fail;

const APP: &str = r#"{"collections":["tasks"],"methods":{"e":{"steps":[]}}}"#;

/// A call of a method.
#[derive(Drop)]
pub(crate) struct Named {
    pub(crate) method: Text,
    pub(crate) params: Items,
    pub(crate) seed: Value,
}

fn value(alloc: Global, text: &str) -> Result<Value, Fail> {
    Ok(parse(alloc, &Text::from_str(alloc, text)?)?)
}

/// An application with the method `e`, which has no steps.
pub(crate) fn app(alloc: Global) -> Result<App, Fail> {
    Ok(App::read(alloc, &value(alloc, APP)?)?)
}

// One text of 1,048,572 letters, which is 1,048,576 bytes in a list.
fn long_params(alloc: Global) -> Result<Items, Fail> {
    let mut letters = Text::new(alloc);
    for _ in 0..1_048_572 {
        letters.push('x')?;
    }
    let mut params = Items::new(alloc);
    params.push(Value::Text(letters))?;
    Ok(params)
}

/// A call of `e`. Of such calls, each by itself, a history has room for 127: 128 of them would keep 134,218,112 bytes.
pub(crate) fn long_call(alloc: Global) -> Result<Named, Fail> {
    Ok(Named {
        method: Text::from_str(alloc, "e")?,
        params: long_params(alloc)?,
        seed: Value::Text(Text::from_str(alloc, "s")?),
    })
}

// Begins the caller's call of this number, if the application has its method.
fn begin<N: StoreName, R: Wait>(
    rt: &R,
    app: &App,
    store: &SharedStore<N>,
    pass: &mut StorePass<N>,
    caller: &mut Caller<N>,
    k: u64,
    call: &Named,
) -> Result<Placed, SharedBegin>
    requires app { app.now ≡ N.app }
    requires session { 0 < caller.old.number }
    ensures { caller.new.number ≡ caller.old.number }
{
    if app.method(&call.method).is_none() {
        return Err(SharedBegin::Memory);
    }
    store.begin(rt, pass, caller, k, &call.method, &call.params, &call.seed)
}

/// Begins 127 calls. Whether each was begun.
pub(crate) fn begin_all<N: StoreName, R: Wait>(
    rt: &R,
    app: &App,
    store: &SharedStore<N>,
    pass: &mut StorePass<N>,
    caller: &mut Caller<N>,
    call: &Named,
) -> bool
    requires app { app.now ≡ N.app }
    requires session { 0 < caller.old.number }
    ensures { caller.new.number ≡ caller.old.number }
{
    let mut all = true;
    for k in 0..127 {
        let begun = begin(rt, app, store, pass, caller, k, call);
        all = all && begun.is_ok();
    }
    all
}
