//! An application, the entries of a history, and subscriptions.
ghost use Rattle.std.specs.Prelude.{◌≡◌, [], IfOk};
ghost use Rattle.live_observer.specs.Observing.{cursors_of, HaveNoLimit};
ghost use Rattle.world_news_laws.specs.multiplexer.Telling.{IsSource};
ghost use Rattle.world_news_laws.specs.Sources.{cursors_at_of};

use app_model::App;
use ejson_codec::parse;
use ejson_value::{Contents, Items, Publishes, Text, Value};
use live_observer::Observer;
use publication::Cursors;
use session_state::Sub;
use std::alloc::Global;
use std::test::Fail;

const APP: &str =
    r#"{"collections":["tasks"],"methods":{},"publications":{"all":[{"collection":"tasks"}]}}"#;

/// An operation that inserts a document.
pub(crate) const INSERT: &str = r#"["insert","tasks",{"_id":"t1","n":1}]"#;

/// An operation that removes it.
pub(crate) const REMOVE: &str = r#"["remove","tasks",{"_id":"t1"}]"#;

fn value(alloc: Global, text: &str) -> Result<Value, Fail> {
    Ok(parse(alloc, &Text::from_str(alloc, text)?)?)
}

/// An application with the publication `all`.
pub(crate) fn app(alloc: Global) -> Result<App, Fail> {
    match App::read(alloc, &value(alloc, APP)?) {
        Ok(app) => Ok(app),
        Err(_) => Err("no application")?,
    }
}

pub(crate) fn operation(alloc: Global, text: &str) -> Result<Items, Fail> {
    match value(alloc, text)? {
        Value::List(items) => Ok(items),
        _ => Err("no operation")?,
    }
}

// The cursors of the publication, called without parameters, if none has a limit.
#[tactic(auto, using(crate::proofs::Sources::made))]
fn cursors(alloc: Global, app: &App, name: &Text) -> Result<Cursors, Fail>
    ensures made { IfOk result (λ cursors. cursors ≡ cursors_at_of app.now name.now []) }
    ensures unlimited { IfOk result HaveNoLimit }
{
    let Some(publication) = app.publication(name) else {
        return Err("no publication".into());
    };
    let params = Items::new(alloc);
    match Cursors::make(alloc, publication, &params) {
        Ok(cursors) => unlimited(cursors),
        Err(_) => Err("no cursors".into()),
    }
}

// These, if none has a limit.
#[tactic(auto, using(crate::proofs::Sources::unlimited))]
fn unlimited(cursors: Cursors) -> Result<Cursors, Fail>
    ensures same { IfOk result (λ made. made ≡ cursors) }
    ensures unlimited { IfOk result HaveNoLimit }
{
    if cursors.limited() {
        return Err("a limit".into());
    }
    Ok(cursors)
}

fn observer(alloc: Global, cursors: &Cursors) -> Result<Observer, Fail>
    ensures { IfOk result (λ observer. cursors_of observer ≡ cursors.now) }
{
    Ok(Observer::start(alloc, cursors.copy()?, &Contents::new(alloc))?)
}

/// A subscription to all tasks of a session that has seen nothing yet.
pub(crate) fn subscription(alloc: Global, app: &App) -> Result<Sub, Fail>
    ensures { IfOk result (IsSource (cursors_at_of app.now)) }
{
    let name = Text::from_str(alloc, "all")?;
    let id = Text::from_str(alloc, "1")?;
    let cursors = cursors(alloc, app, &name)?;
    let observer = observer(alloc, &cursors)?;
    Ok(Sub {
        sub: 0,
        id,
        name,
        params: Items::new(alloc),
        cursors,
        floor: 0,
        cursor: Some(0),
        observer: Some(observer),
    })
}

/// The ids that are told of, each with whether its document is there.
pub(crate) fn told(alloc: Global, told: &Publishes) -> Result<String, Fail> {
    let mut text = String::new(alloc);
    for one in told.as_slice() {
        text.push_str(one.key.id.as_str())?;
        text.push_str(if one.new.is_some() { "+" } else { "-" })?;
    }
    Ok(text)
}
