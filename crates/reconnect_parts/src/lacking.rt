//! What a session lacks until its epoch is revived.
ghost use Rattle.std.specs.Prelude.{◌≡◌};
ghost use Rattle.ddp_messages.specs.ServerMessage.{server_view};
ghost use Rattle.reconnect_model.specs.Revival.{nothing_lacks};
ghost use Rattle.reconnect_model.specs.Giving.{without, without_all, is_none_of, lacks, lacks_nothing};

use crate::places::Ids;
use ddp_messages::FromServer;
use ejson_value::{Names, Text};
use std::alloc::Global;
use std::marker::Model;

/// The ids of the subscriptions that lack a `ready` or `nosub`, and of the methods that lack a `result`, and an `updated`.
#[derive(Drop)]
pub struct Lacks {
    pub subs: Ids,
    pub results: Ids,
    pub updates: Ids,
}

impl Model for Lacks {
    ghost use Rattle.std.specs.Coded.{codes};
    ghost use Rattle.reconnect_model.specs.Revival.{Lacking};

    ghost Value = { Lacking };

    ghost coded = { Prim.hlevel codes };

    ghost view = { λ a. record { subs = a.subs.keys; results = a.results.keys; updates = a.updates.keys } };
}

// The id is there no more.
fn take_out(ids: &mut Ids, id: &Text)
    ensures { ids.new.keys ≡ without id.now ids.old.keys }
{
    let _was = ids.remove(id);
}

// These ids are there no more.
fn take_all_out(ids: &mut Ids, gone: &Names)
    ensures { ids.new.keys ≡ without_all gone.now ids.old.keys }
{
    for id in gone.as_slice() {
        take_out(ids, id);
    }
}

fn is_none_of(ids: &Ids) -> bool
    ensures { result ≡ is_none_of ids.now.keys }
{
    ids.is_empty()
}

impl Lacks {
    /// Nothing is lacking.
    pub fn nothing(alloc: Global) -> Lacks
        ensures { result ≡ nothing_lacks }
    {
        Lacks {
            subs: Ids::new(alloc),
            results: Ids::new(alloc),
            updates: Ids::new(alloc),
        }
    }

    /// The session sent the message.
    pub fn note(&mut self, message: &FromServer)
        ensures { self.new ≡ lacks self.old (server_view message.now) }
    {
        match message {
            FromServer::Nosub { id, .. } => take_out(&mut self.subs, id),
            FromServer::Ready { subs } => take_all_out(&mut self.subs, subs),
            FromServer::Result { id, .. } => take_out(&mut self.results, id),
            FromServer::Updated { methods } => take_all_out(&mut self.updates, methods),
            FromServer::Connected { .. }
            | FromServer::Failed { .. }
            | FromServer::Ping { .. }
            | FromServer::Pong { .. }
            | FromServer::Data(_)
            | FromServer::Error { .. }
            | FromServer::Unknown => {}
        }
    }

    /// Whether nothing is lacking any more.
    pub fn is_over(&self) -> bool
        ensures { result ≡ lacks_nothing self.now }
    {
        is_none_of(&self.subs) && is_none_of(&self.results) && is_none_of(&self.updates)
    }
}
