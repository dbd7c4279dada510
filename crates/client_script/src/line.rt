//! The lines of a script.
use ejson_value::{Items, Text};

/// What is asked of a client.
#[derive(Drop)]
pub enum Ask {
    /// It subscribes to the publication of this name.
    Sub { id: Text, name: Text, params: Items },
    /// It ends its subscription of this id.
    Unsub { id: Text },
    /// It calls the method of this name.
    Call { method: Text, params: Items },
}

/// A line of a script.
#[derive(Drop)]
pub enum Line {
    /// The client is asked for something.
    Ask(Ask),
    /// The script goes on once no subscription and no call of the client waits.
    Wait,
    /// What the client has is printed.
    Show,
}
