//! The messages of DDP (Meteor's DDP.md, packages/ddp/DDP.md), read from JSON texts and written as such.
#![tactic(auto)]

ghost use Rattle.serde_json.specs.Read as json;
ghost use Rattle.std.specs.Prelude.{◌≡◌, ◌≤◌, ℕ, List, Some, Ok};
ghost use Rattle.serde_json.specs.Data.{Data, depth};
ghost use Rattle.serde_json.specs.Written.{compact_text};
ghost use Rattle.ejson_codec.specs.Trees.{HasRisingKeys};
ghost use Rattle.value_model.specs.Val.{Val};
ghost use Rattle.value_model.specs.Valid.{IsValue};
ghost use Rattle.ejson_codec.specs.Written.{written};
ghost use Rattle.ddp_messages.specs.ClientMessage.{ClientMessage};
ghost use Rattle.ddp_messages.specs.ServerMessage.{ServerMessage};
ghost use Rattle.ddp_messages.specs.Answers.{client_answer, server_answer};
ghost use Rattle.ddp_messages.specs.Written.{client_written, server_written};
ghost use Rattle.ddp_messages.specs.Limits.{ClientKeepsLimits, ClientHasValues, ServerKeepsLimits, ServerHasValues};
ghost use Rattle.ejson_codec.specs.Exact.{HasExactNumbers};

mod copying;
mod fault;
mod fields;
mod from_client;
mod from_server;
mod laws;
mod members;
mod parsing;
mod plain;
mod reading_client;
mod reading_server;
mod told;
mod wire;
mod writing;

pub use ejson_value::{DataMsg, Fault};
pub use fault::MsgFault;
pub use from_client::FromClient;
pub use from_server::{FromServer, data_text, result_text};
pub use laws::{
    client_message_reads_back, client_table_is_exact, no_other_wire_form, one_client_message,
    one_server_message, server_message_reads_back, server_table_is_exact, wire_form_has_its_id,
};
pub use wire::{own_id, wire_id};

/// The compact text of a tree without floats reads as the tree.
pub fn compact_texts_read_back()
    ensures { (d : Data) → HasExactNumbers d → HasRisingKeys d → depth d ≤ json.max_depth → json.read (compact_text d) ≡ Some d }
{}

/// The tree that a value of the program is written as holds integers alone, of 53 bits.
pub fn written_values_are_exact()
    ensures { (v : Val) → IsValue v → HasExactNumbers (written v) }
{}

/// The tree that a text reads as has rising keys.
pub fn read_trees_have_rising_keys()
    ensures { (text : List ℕ) (d : Data) → json.read text ≡ Some d → HasRisingKeys d }
{}

/// The text of a client's message within the limits reads as the message.
pub fn client_texts_read_back()
    ensures { (m : ClientMessage) → ClientHasValues m → ClientKeepsLimits m → client_answer (compact_text (client_written m)) ≡ Ok m }
{}

/// The text of a server's message within the limits reads as the message.
pub fn server_texts_read_back()
    ensures { (m : ServerMessage) → ServerHasValues m → ServerKeepsLimits m → server_answer (compact_text (server_written m)) ≡ Ok m }
{}
