//! What a machine keeps.
ghost use Rattle.std.specs.Prelude.{◌≡◌};
ghost use Rattle.ejson_value.specs.Measure.{capped};
ghost use Rattle.history_model.specs.History.{entries_with};
ghost use Rattle.store_machine.specs.State.{held_by};
ghost use Rattle.store_machine.specs.Standing.{seen, Stand};

use crate::called::Called;
use app_model::App;
use collection_store::Store;
use history_log::Log;
use std::collections::BTreeMap;

pub(crate) const MAX_ENTRIES: u64 = 1_048_576;

pub(crate) const MAX_KEPT: u64 = 134_217_728;

/// The calls by their session and its count of them.
pub(crate) type Calls = BTreeMap<(u32, u64), Called>;

/// All that a history leads to, and the log of it.
#[derive(Drop)]
pub(crate) struct Parts {
    pub(crate) store: Store,
    pub(crate) calls: Calls,
    pub(crate) log: Log,
    // The bytes that the history keeps.
    pub(crate) kept: u64,
    // The steps that runs have still to make.
    pub(crate) reserved: u64,
}

/// How many entries there would be, those to come counted, with one more that has so many to come.
pub(crate) fn entries_with(app: &App, parts: &Parts, more: u64) -> u64
    requires { Stand app.now parts.now }
    ensures { result ≡ capped (entries_with (held_by (seen app.now parts.now)) more) }
{
    let _app = app;
    parts
        .log
        .length()
        .saturating_add(parts.reserved)
        .saturating_add(more)
        .saturating_add(1)
}
