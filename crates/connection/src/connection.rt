//! The client with its session.
ghost use Rattle.std.specs.Prelude.{◌≡◌, map, IfOk};
ghost use Rattle.connection.specs.session_model.Subscriptions.{sub_named, cursor_of};
ghost use Rattle.connection.specs.session_state.Subs.{as_live, observers_of};
ghost use Rattle.connection.specs.session_state.Work.{running_from};
ghost use Rattle.client_model.specs.Lines.{line_texts};
ghost use Rattle.connection.specs.client_core.State.{show_lines};
ghost use Rattle.connection.specs.world_model.Lines.{line_text};
ghost use Rattle.connection.specs.connection_laws.Connection.{new_connection};
ghost use Rattle.connection.specs.connection_laws.Printing.{kept_journal};
ghost use Rattle.connection.specs.Asks.{asks_nothing};

use crate::client_core::Client;
use crate::link::Link;
use crate::resting::says_nothing;
use crate::session_state::{Sub, cursor_of};
use crate::side::Side;
use crate::{Session, journal_lines};
use app_model::App;
use ejson_codec::Lines;
use ejson_value::{Mem, Text};
use std::alloc::Global;
use std::marker::Model;

/// A client with its session, and the texts between them. The texts that the session took, and those
/// that it sent, are kept, so that its journal can be printed.
#[derive(Drop)]
pub struct Connection {
    pub(crate) side: Side,
}

impl Model for Connection {
    ghost use Rattle.std.specs.Coded.{codes};
    ghost use Rattle.value_model.specs.Coding.{val_code};
    ghost use Rattle.selector_match.specs.Coding.{query_code};
    ghost use Rattle.sort_window.specs.Coding.{window_code};
    ghost use Rattle.minimongo.specs.State.{documents_code};
    ghost use Rattle.connection.specs.connection_laws.Connection.{AConnection};
    ghost use Rattle.connection.specs.Kept.{seen, IsKept};

    ghost Value = { AConnection };

    ghost coded = { Prim.hlevel (codes, val_code, query_code, window_code, documents_code) };

    ghost view = { λ a. seen a.side };

    ghost invariant = { λ a. IsKept a.side };
}

impl Connection {
    /// A client of this name at its beginning, whose session has this number.
    pub fn new(alloc: Global, app: &App, name: &Text, number: u32) -> Result<Connection, Mem>
        ensures { IfOk result (λ c. c ≡ new_connection app.now name.now number) }
    {
        let client = Client::new(alloc, app, name)?;
        let session = Session::new(alloc, app, number)?;
        Ok(Connection {
            side: Side {
                alloc,
                client,
                made_raw: false,
                upward: Link::new(alloc),
                downward: Link::new(alloc),
                number,
                session,
                kept: None,
                is_dropped: false,
            },
        })
    }

    /// The number of the live subscription with this id.
    pub fn sub_of(&self, id: &Text) -> Option<u64>
        ensures { result ≡ sub_named id.now self.now.session.carried.own.subs }
    {
        self.side.session.sub_of(id)
    }

    /// The place of the history that the subscription with this number shows, once it is loaded.
    pub fn cursor_of(&self, sub: u64) -> Option<u64>
        ensures { result ≡ cursor_of sub self.now.session.carried.own.subs }
    {
        cursor_of(self.side.session.subs(), sub)
    }

    /// The live subscriptions of the session, by rising number.
    pub fn subs(&self) -> &[Sub]
        ensures live { map as_live result.now ≡ self.now.session.carried.own.subs }
        ensures observers { observers_of result.now ≡ self.now.session.observers }
    {
        self.side.session.subs()
    }

    /// The numbers of the session's calls that run, rising.
    pub fn running(&self) -> Result<Vec<u64>, Mem>
        ensures { IfOk result (λ calls. calls.items ≡ running_from 0 self.now.session.carried.own.methods) }
    {
        self.side.session.running()
    }

    /// Whether the client asks for nothing: none of its texts goes up, no message waits to be handled, and
    /// none of its calls blocks or runs.
    pub fn asks_nothing(&self) -> Result<bool, Mem>
        ensures { IfOk result (λ nothing. nothing ≡ asks_nothing self.now) }
    {
        let side = &self.side;
        if !says_nothing(side) || side.session.blocking().is_some() {
            return Ok(false);
        }
        Ok(side.session.running()?.is_empty())
    }

    /// What the client has: its name, its documents, its subscriptions and its calls.
    pub fn show_lines(&self) -> Result<Lines, Mem>
        ensures { IfOk result (λ lines. lines ≡ line_texts (show_lines self.now.own)) }
    {
        self.side.client.show_lines()
    }

    /// What the session did: a line for each item of its journal, and behind it one for each text that
    /// the item says.
    pub fn journal_lines(&self) -> Result<Lines, Mem>
        ensures { IfOk result (λ lines. lines ≡ map line_text (kept_journal self.now)) }
    {
        let side = &self.side;
        journal_lines(side.alloc, side.number, &side.session, side.downward.all())
    }
}
