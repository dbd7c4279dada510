//! Calls of methods and operations, and what they are read of.
ghost use Rattle.std.specs.Prelude.{◌≡◌, ◌<◌};

use app_model::App;
use ejson_codec::parse;
use ejson_value::{Items, Text, Value};
use shared_store::{Caller, Placed, SharedBegin, SharedStore, StoreName, StorePass};
use std::alloc::Global;
use std::sync::Wait;
use std::test::Fail;

const APP: &str = r#"{"collections":["tasks"],"methods":{
"e":{"steps":[]},
"put":{"steps":[["insert","tasks",{"n":1}]]}}}"#;

/// An operation that inserts a document.
pub(crate) const INSERT: &str = r#"["insert","tasks",{"_id":"t1","n":0}]"#;

/// A call of a method.
#[derive(Drop)]
pub(crate) struct Named {
    pub(crate) method: Text,
    pub(crate) params: Items,
    pub(crate) seed: Value,
}

fn value(alloc: Global, text: &str) -> Result<Value, Fail> {
    Ok(parse(alloc, &Text::from_str(alloc, text)?)?)
}

/// An application with two methods: `e` has no steps, and `put` has one.
pub(crate) fn app(alloc: Global) -> Result<App, Fail> {
    Ok(App::read(alloc, &value(alloc, APP)?)?)
}

pub(crate) fn operation(alloc: Global, text: &str) -> Result<Items, Fail> {
    match value(alloc, text)? {
        Value::List(items) => Ok(items),
        _ => Err("no list".into()),
    }
}

/// A call of the application's method, without parameters.
pub(crate) fn call(alloc: Global, method: &str) -> Result<Named, Fail> {
    Ok(Named {
        method: Text::from_str(alloc, method)?,
        params: Items::new(alloc),
        seed: Value::Null,
    })
}

/// Begins the caller's call of this number, if the application has its method.
pub(crate) fn begin<N: StoreName, R: Wait>(
    rt: &R,
    app: &App,
    store: &SharedStore<N>,
    pass: &mut StorePass<N>,
    caller: &mut Caller<N>,
    k: u64,
    call: &Named,
) -> Result<Placed, SharedBegin>
    requires app { app.now ≡ N.app }
    requires session { 0 < caller.old.number }
    ensures { caller.new.number ≡ caller.old.number }
{
    if app.method(&call.method).is_none() {
        return Err(SharedBegin::Memory);
    }
    store.begin(rt, pass, caller, k, &call.method, &call.params, &call.seed)
}
