//! One connection, served alone over a store of its own.
ghost use Rattle.std.specs.Prelude.{◌≡◌};

use crate::calling::serve_link;
use app_model::App;
use duct::Link;
use ejson_value::Mem;
use pass_log::Opened;
use server_connection::Ended;
use shared_store::{SharedStore, StoreName};
use std::alloc::Global;
use std::marker::Brand;
use std::sync::Wait;
use std::sync::ledger::Blank;
use store_machine::Entry;

// The same over the store of this name.
fn alone_at<N: StoreName, R: Wait, L: Link>(
    rt: &R,
    alloc: Global,
    app: &App,
    opened: Opened<Entry>,
    blank: Blank,
    link: &mut L,
) -> Result<(Ended, u64), Mem>
    requires log { opened ≡ N.log }
    requires ledger { blank.name ≡ N.name }
    requires parts { blank.parts ≡ N.parts }
    requires many { N.parts ≡ 65537 }
    requires app { app.now ≡ N.app }
{
    let (store, mut pass, mut callers) = SharedStore::<N>::make(alloc, app, opened, blank)?;
    let Some(mut caller) = callers.caller(store.log(), 1)? else {
        return Err(Mem);
    };
    serve_link(rt, alloc, app, &store, &mut pass, &mut caller, link)
}

/// Serves the link by the session 1: how that ends, and how long the history then is.
pub(crate) fn alone<R: Wait, L: Link>(
    rt: &R,
    alloc: Global,
    app: &App,
    link: &mut L,
) -> Result<(Ended, u64), Mem> {
    let opened = Opened::make(alloc)?;
    let blank = Blank::new(65537);
    alone_at::<Brand, R, L>(rt, alloc, app, opened, blank, link)
}
