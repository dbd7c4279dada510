//! Names of stores.
use history_model::entry::Entry;
use pass_log::{LogName, Pass};
use std::marker::Brand;
use std::sync::ledger::Ledger;

/// Which store it is. A type parameter with this bound stands for one store: for its log, for the ledger that counts its
/// callers' entries, and for its application.
pub trait StoreName: LogName + Ledger {
    ghost use Rattle.app_model.specs.App.{App};

    ghost app: { App };
}

impl StoreName for Brand {
    ghost use Rattle.std.specs.Prelude.{[]};

    ghost app = { record { collections = []; methods = []; publications = []; guards = [] } };
}

/// A pass of the history of the store `N`.
pub type StorePass<N> = Pass<Entry, N>;
