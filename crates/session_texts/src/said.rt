//! The texts of what a session says.
ghost use Rattle.std.specs.Prelude.{◌≡◌, ◌∷◌, ◌++◌, [], ℕ, codes, map, IfOk, OnOk, OnErr, None, option_map};
ghost use Rattle.ejson_value.specs.View.{view};
ghost use Rattle.ddp_messages.specs.ServerMessage.{server_view};
ghost use Rattle.ddp_messages.specs.ServerMessage as server;
ghost use Rattle.program_steps.specs.Runs.{outcome_view, failed};
ghost use Rattle.session_model.specs.Publication.{code_of, reason_of, error_of};
ghost use Rattle.ddp_messages.specs.Texts.{server_text};
ghost use Rattle.session_model.specs.Out.{session_name, ready, updated, result_by, refused_with, unknown_method, history_full};
ghost use Rattle.session_texts.specs.Said.{answer_messages, data_text};
ghost use Rattle.session_texts.specs.Taking.{as_item};

use crate::taking::Answer;
use ddp_messages::{DataMsg, Fault, FromServer};
use ejson_value::{Mem, Names, Text, Value, copy, copy_option};
use program_steps::Outcome;
use session_model::SubFault;
use std::alloc::Global;
use std::collections::VecDeque;

/// Texts, in order.
pub type Texts = VecDeque<Text>;

// The text of the message. It takes the message, so that no caller has to drop one.
fn text_of(alloc: Global, message: FromServer) -> Result<Text, Mem>
    ensures { IfOk result (λ text. text ≡ server_text (server_view message)) }
{
    let text = message.text(alloc);
    drop(message);
    text
}

/// The name of the session with this number (the `session` of a `connected`).
pub fn session_name(alloc: Global, number: u32) -> Result<Text, Mem>
    ensures { IfOk result (λ name. name ≡ session_name number) }
{
    Text::from_string(format!(in alloc; "S{number}")?)
}

// The names of the one id.
fn only(alloc: Global, id: &Text) -> Result<Names, Mem>
    ensures { IfOk result (λ ids. ids ≡ id.now ∷ []) }
{
    let mut ids = Names::new(alloc);
    ids.push(id.copy()?)?;
    Ok(ids)
}

// The one text.
fn alone(alloc: Global, text: Text) -> Result<Texts, Mem>
    ensures { IfOk result (λ texts. texts.items ≡ text ∷ []) }
{
    let mut texts = Texts::new(alloc);
    texts.push_back(text)?;
    Ok(texts)
}

fn connected_text(alloc: Global, number: u32) -> Result<Text, Mem>
    ensures { IfOk result (λ text. text ≡ server_text (server.connected (session_name number))) }
{
    let session = session_name(alloc, number)?;
    text_of(alloc, FromServer::Connected { session })
}

fn failed_text(alloc: Global) -> Result<Text, Mem>
    ensures { IfOk result (λ text. text ≡ server_text (server.failed (codes "1"))) }
{
    let version = Text::from_str(alloc, "1")?;
    text_of(alloc, FromServer::Failed { version })
}

fn pong_text(alloc: Global, id: &Option<Text>) -> Result<Text, Mem>
    ensures { IfOk result (λ text. text ≡ server_text (server.pong id.now)) }
{
    let id = copy_option(id)?;
    text_of(alloc, FromServer::Pong { id })
}

// A copy of the value, if there is one.
fn copy_value(value: &Option<Value>) -> Result<Option<Value>, Mem>
    ensures { IfOk result (λ made. option_map view made ≡ option_map view value.now) }
{
    match value {
        None => Ok(None),
        Some(value) => Ok(Some(copy(value)?)),
    }
}

fn bad_text(alloc: Global, reason: &Text, offending: &Option<Value>) -> Result<Text, Mem>
    ensures { IfOk result (λ text. text ≡ server_text (server.refused reason.now (option_map view offending.now))) }
{
    let reason = reason.copy()?;
    let offending = copy_value(offending)?;
    text_of(alloc, FromServer::Error { reason, offending })
}

/// The texts of what is answered at once.
pub fn answer_texts(alloc: Global, number: u32, answer: &Answer) -> Result<Texts, Mem>
    ensures { IfOk result (λ texts. texts.items ≡ map server_text (answer_messages number (as_item answer.now))) }
{
    match answer {
        Answer::Connect => alone(alloc, connected_text(alloc, number)?),
        Answer::Fail => alone(alloc, failed_text(alloc)?),
        Answer::Ping { id } => alone(alloc, pong_text(alloc, id)?),
        Answer::Pong => Ok(Texts::new(alloc)),
        Answer::Bad { reason, offending } => alone(alloc, bad_text(alloc, reason, offending)?),
    }
}

// The code and the reason.
fn fault_of(alloc: Global, code: &str, reason: &str) -> Result<Fault, Mem>
    ensures { IfOk result (λ fault. fault ≡ record { code = code.now; reason = reason.now }) }
{
    let code = Text::from_str(alloc, code)?;
    Ok(Fault {
        code,
        reason: Text::from_str(alloc, reason)?,
    })
}

/// The error that a refused `sub` is answered by.
pub fn error_of(alloc: Global, fault: SubFault) -> Result<Fault, Mem>
    ensures { IfOk result (λ error. error ≡ error_of fault) }
{
    match fault {
        SubFault::TooMany => fault_of(alloc, "503", "Too many subscriptions"),
        SubFault::NotFound => fault_of(alloc, "404", "Subscription not found"),
        SubFault::BadParameters => fault_of(alloc, "400", "Bad parameters"),
    }
}

// The error, if there is a cause.
fn error_if_any(alloc: Global, fault: Option<SubFault>) -> Result<Option<Fault>, Mem>
    ensures { IfOk result (λ error. error ≡ option_map error_of fault) }
{
    match fault {
        None => Ok(None),
        Some(fault) => Ok(Some(error_of(alloc, fault)?)),
    }
}

/// The text of a `nosub`, with the error of the cause if there is one.
pub fn nosub_text(alloc: Global, id: &Text, fault: Option<SubFault>) -> Result<Text, Mem>
    ensures { IfOk result (λ text. text ≡ server_text (server.nosub id.now (option_map error_of fault))) }
{
    let id = id.copy()?;
    let error = error_if_any(alloc, fault)?;
    text_of(alloc, FromServer::Nosub { id, error })
}

/// The text of a `ready` of the one subscription.
pub fn ready_text(alloc: Global, id: &Text) -> Result<Text, Mem>
    ensures { IfOk result (λ text. text ≡ server_text (ready id.now)) }
{
    let subs = only(alloc, id)?;
    text_of(alloc, FromServer::Ready { subs })
}

/// The text of an `updated` of the one method.
pub fn updated_text(alloc: Global, id: &Text) -> Result<Text, Mem>
    ensures { IfOk result (λ text. text ≡ server_text (updated id.now)) }
{
    let methods = only(alloc, id)?;
    text_of(alloc, FromServer::Updated { methods })
}

fn done_text(alloc: Global, id: &Text, value: &Option<Value>) -> Result<Text, Mem>
    ensures { IfOk result (λ text. text ≡ server_text (server.finished id.now None (option_map view value.now))) }
{
    ddp_messages::result_text(alloc, id, &None, value)
}

fn error_text(alloc: Global, id: &Text, fault: Fault) -> Result<Text, Mem>
    ensures { IfOk result (λ text. text ≡ server_text (result_by (failed fault) id.now)) }
{
    ddp_messages::result_text(alloc, id, &Some(fault), &None)
}

/// The text of the `result` of a method, by how its run came out.
pub fn result_text(alloc: Global, id: &Text, outcome: &Outcome) -> Result<Text, Mem>
    ensures { IfOk result (λ text. text ≡ server_text (result_by (outcome_view outcome.now) id.now)) }
{
    match outcome {
        Outcome::Done(value) => done_text(alloc, id, value),
        Outcome::Failed(fault) => error_text(alloc, id, fault.copy()?),
    }
}

// A `result` with the error, and the `updated`.
fn both_texts(alloc: Global, id: &Text, fault: Fault) -> Result<Texts, Mem>
    ensures { IfOk result (λ texts. texts.items ≡ map server_text (refused_with fault id.now)) }
{
    let mut texts = alone(alloc, error_text(alloc, id, fault)?)?;
    texts.push_back(updated_text(alloc, id)?)?;
    Ok(texts)
}

/// What a method of an unknown name is answered.
pub fn unknown_texts(alloc: Global, id: &Text) -> Result<Texts, Mem>
    ensures { IfOk result (λ texts. texts.items ≡ map server_text (refused_with unknown_method id.now)) }
{
    let fault = fault_of(alloc, "404", "Method not found")?;
    both_texts(alloc, id, fault)
}

/// What a method is answered that the history has no room for.
pub fn refused_texts(alloc: Global, id: &Text) -> Result<Texts, Mem>
    ensures { IfOk result (λ texts. texts.items ≡ map server_text (refused_with history_full id.now)) }
{
    let fault = fault_of(alloc, "503", "History full")?;
    both_texts(alloc, id, fault)
}

/// The text of a message about a document.
pub fn data_text(alloc: Global, message: &DataMsg) -> Result<Text, Mem>
    ensures { IfOk result (λ text. text ≡ data_text message.now) }
{
    ddp_messages::data_text(alloc, message)
}
