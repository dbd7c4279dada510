//! Laws of messages and of wire ids.
ghost use Rattle.std.specs.Prelude.{◌≡◌, ◌<◌, ◌↔◌, List, ℕ, Some, length};
ghost use Rattle.serde_json.specs.Data.{Data};
ghost use Rattle.ddp_messages.specs.Wire.{wire_of, own_of, IsWireOf};
ghost use Rattle.ddp_messages.specs.ClientMessage.{ClientMessage, ClientReads, client_reading};
ghost use Rattle.ddp_messages.specs.ServerMessage.{ServerMessage, ServerReads, server_reading};
ghost use Rattle.ddp_messages.specs.Written.{client_written, server_written};
ghost use Rattle.ddp_messages.specs.Limits.{ClientKeepsLimits, ClientHasValues, ServerKeepsLimits, ServerHasValues};

/// An object is one message from a client at most.
pub fn one_client_message()
    ensures { (d : Data) (m n : ClientMessage) → ClientReads d m → ClientReads d n → m ≡ n }
{}

/// An object is one message from a server at most.
pub fn one_server_message()
    ensures { (d : Data) (m n : ServerMessage) → ServerReads d m → ServerReads d n → m ≡ n }
{}

/// The exact answer to an object is the message of the table of fields.
pub fn client_table_is_exact()
    ensures { (d : Data) (m : ClientMessage) → (client_reading d ≡ Some m ↔ ClientReads d m) }
{}

/// The exact answer to an object is the message of the table of fields.
pub fn server_table_is_exact()
    ensures { (d : Data) (m : ServerMessage) → (server_reading d ≡ Some m ↔ ServerReads d m) }
{}

/// A client's message within the limits, once written, is the object of that message.
pub fn client_message_reads_back()
    ensures { (m : ClientMessage) → ClientHasValues m → ClientKeepsLimits m → ClientReads (client_written m) m }
{}

/// A server's message within the limits, once written, is the object of that message.
pub fn server_message_reads_back()
    ensures { (m : ServerMessage) → ServerHasValues m → ServerKeepsLimits m → ServerReads (server_written m) m }
{}

/// Each id that isn't empty is the id of its wire form.
pub fn wire_form_has_its_id()
    ensures { (id : List ℕ) → 0 < length id → own_of (wire_of id) ≡ Some id }
{}

/// A text has an id exactly where it is that id's wire form, so no other text has the id.
pub fn no_other_wire_form()
    ensures { (id wire : List ℕ) → (own_of wire ≡ Some id ↔ IsWireOf id wire) }
{}
