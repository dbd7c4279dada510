//! What can happen in a world.
use ejson_value::{Items, Text, Whole};

/// A step that a client, its session or the store makes by itself.
#[derive(Clone, Copy, Debug, PartialEq, Eq)]
pub enum Act {
    /// A text that waits in the client goes onto the link to the server.
    Up,
    /// The session takes a text from that link.
    Recv,
    /// The session handles the message that came first.
    Handle,
    /// The store begins the session's call that blocks.
    Begin,
    /// The run of the session's call makes its next step.
    Step { k: u64 },
    /// The session learns how far the run of its call was at a place of the history, or that the call was refused.
    Learn { k: u64, at: u64 },
    /// The session loads the subscription, at a place of the history.
    Load { sub: u64, at: u64 },
    /// The session leads the subscription on, by so many entries of the history.
    Advance { sub: u64, count: u64 },
    /// A text of the session's outbox goes onto the link to the client.
    Send,
    /// The client takes a text from that link.
    Take,
}

/// What a world answers to an act.
#[derive(Clone, Copy, Debug, PartialEq, Eq)]
pub enum Answer {
    /// It is made.
    Done,
    /// It isn't enabled, and nothing changes.
    Idle,
    /// The session's journal has no room for an item, and nothing changes.
    JournalFull,
    /// The session's queue has no room for the message of the text, and nothing changes.
    QueueFull,
}

/// An event. A number below 0 is the number of nothing.
#[derive(Drop)]
pub enum Event {
    /// A client of this name begins.
    Client {
        name: Text,
    },
    /// The client subscribes to the publication of this name.
    Sub {
        client: Text,
        id: Text,
        name: Text,
        params: Items,
    },
    /// The client ends its subscription of this id.
    Unsub {
        client: Text,
        id: Text,
    },
    /// The client calls the method of this name.
    Call {
        client: Text,
        method: Text,
        params: Items,
    },
    /// The client sends this text.
    Raw {
        client: Text,
        text: Text,
    },
    /// The client, and its session, are gone.
    Drop {
        client: Text,
    },
    /// An act of the client of this name, of its session or of a run of it.
    Do {
        client: Text,
        act: Act,
    },
    /// The run of the session's call makes its next step.
    Step {
        client: Text,
        k: Whole,
    },
    /// The session learns of its call, at this place of the history or at its end.
    Learn {
        client: Text,
        k: Whole,
        at: Option<Whole>,
    },
    /// The session loads the subscription of this id, at this place of the history or at its end.
    Load {
        client: Text,
        id: Text,
        at: Option<Whole>,
    },
    /// The session leads the subscription of this id on, by so many entries of the history or to its end.
    Advance {
        client: Text,
        id: Text,
        count: Option<Whole>,
    },
    /// An administrator's operation is made on the store.
    Admin {
        op: Items,
    },
    /// Acts are made until none is left.
    Settle,
    /// What the client has is printed.
    Show {
        client: Text,
    },
    /// What the client's session did is printed.
    Journal {
        client: Text,
    },
    /// The documents of the store are printed.
    Store,
    /// The entries of the history are printed.
    History,
}
