ghost use Rattle.std.specs.Prelude.{◌≡◌};
ghost use Rattle.tungstenite.specs.Socket.{content_of};
ghost use Rattle.tungstenite.specs.Failure.{IsIo};
ghost use Rattle.tungstenite.specs.declared.error.Error.TheVariants.{OutOfMemory};
ghost use Rattle.ddp_socket.specs.Turns.{MessageIs, fault_turn};

use ejson_value::Text;
use std::alloc::Global;
use std::io::ErrorKind;
use tungstenite::{CloseCode, Error, Message};
use websocket::error::ProtocolError;

/// What a read of a WebSocket is to its link.
#[derive(Drop)]
pub enum Turn {
    /// A text.
    Text(Text),
    /// Nothing yet, or nothing that concerns the link.
    Nothing,
    /// Bytes, which are no message of DDP.
    Binary,
    /// The peer has closed.
    Closed,
    /// Memory was refused.
    Memory,
    /// Memory was refused for a text that was read, and which is lost.
    Lost,
    /// The peer sent what may not be sent; it is told so by this code.
    Faulty(CloseCode),
    /// The connection or the peer failed.
    Broken,
}

/// What came of a text that was handed to a WebSocket.
#[derive(Clone, Copy)]
pub enum Said {
    /// It is the next frame.
    Taken,
    /// An earlier text has not left yet.
    Waits,
    /// Memory was refused.
    NoMemory,
    /// The connection failed.
    Broken,
}

/// What a message is to a link.
pub(crate) fn message_turn(alloc: Global, message: Message) -> Turn
    ensures { MessageIs (content_of message) result }
{
    match message {
        Message::Text(text) => match Text::from_str(alloc, text.as_str()) {
            Ok(text) => Turn::Text(text),
            Err(_) => Turn::Lost,
        },
        Message::Binary(_) => Turn::Binary,
        Message::Close(_) => Turn::Closed,
        Message::Ping(_) | Message::Pong(_) => Turn::Nothing,
    }
}

/// What an error is to a link.
pub(crate) fn error_turn(error: Error) -> Turn
    ensures value { result ≡ fault_turn error }
    ensures waits { result ≡ Turn.Nothing → IsIo error }
    ensures memory { result ≡ Turn.Memory → error ≡ OutOfMemory }
{
    match error {
        Error::ConnectionClosed => Turn::Closed,
        Error::OutOfMemory => Turn::Memory,
        Error::Io(cause) => match cause.kind() {
            ErrorKind::WouldBlock => Turn::Nothing,
            _ => Turn::Broken,
        },
        Error::Protocol(ProtocolError::ResetWithoutClosingHandshake) => Turn::Broken,
        Error::Protocol(_) => Turn::Faulty(CloseCode::Protocol),
        Error::Utf8 => Turn::Faulty(CloseCode::Invalid),
        Error::Capacity(_) => Turn::Faulty(CloseCode::Size),
        _ => Turn::Broken,
    }
}
