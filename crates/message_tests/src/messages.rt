//! Texts of messages.
use ddp_messages::{FromClient, FromServer, MsgFault};
use ejson_value::Text;
use std::alloc::Global;
use std::test::Fail;

fn refusal(alloc: Global, fault: MsgFault) -> Result<Text, Fail> {
    match fault {
        MsgFault::Parse => Ok(Text::from_str(alloc, "Parse error")?),
        MsgFault::BadRequest { msg: Some(name) } => Ok(name),
        MsgFault::BadRequest { msg: None } => Ok(Text::from_str(alloc, "-")?),
        MsgFault::Memory => Ok(Text::from_str(alloc, "out of memory")?),
    }
}

fn client_text(alloc: Global, message: FromClient) -> Result<Text, Fail> {
    let text = message.text(alloc);
    drop(message);
    Ok(text?)
}

fn client_copy(alloc: Global, message: &FromClient) -> Result<Text, Fail> {
    client_text(alloc, message.copy()?)
}

fn client_written(alloc: Global, message: FromClient) -> Result<Text, Fail> {
    let text = client_copy(alloc, &message);
    drop(message);
    text
}

/// What is written of a client's message, or what refuses it: a message's name, `-` where it has none.
pub(crate) fn client_answer(alloc: Global, input: &Text) -> Result<Text, Fail> {
    match FromClient::read(alloc, input) {
        Ok(message) => client_written(alloc, message),
        Err(fault) => refusal(alloc, fault),
    }
}

fn server_text(alloc: Global, message: FromServer) -> Result<Text, Fail> {
    let text = message.text(alloc);
    drop(message);
    Ok(text?)
}

fn server_copy(alloc: Global, message: &FromServer) -> Result<Text, Fail> {
    server_text(alloc, message.copy()?)
}

fn server_written(alloc: Global, message: FromServer) -> Result<Text, Fail> {
    let text = server_copy(alloc, &message);
    drop(message);
    text
}

/// The same of a server's.
pub(crate) fn server_answer(alloc: Global, input: &Text) -> Result<Text, Fail> {
    match FromServer::read(alloc, input) {
        Ok(message) => server_written(alloc, message),
        Err(fault) => refusal(alloc, fault),
    }
}
