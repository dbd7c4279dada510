//! Copies of messages.
ghost use Rattle.std.specs.Prelude.{◌≡◌, IfOk, option_map};
ghost use Rattle.ejson_value.specs.View.{view};
ghost use Rattle.ddp_messages.specs.ClientMessage.{connect, sub, method as method_message, client_view};
ghost use Rattle.ddp_messages.specs.ServerMessage.{nosub, finished, refused, server_view};

use crate::from_client::FromClient;
use crate::from_server::FromServer;
use ejson_value::{Fault, Items, Mem, Names, Text, Value, copy, copy_option};

fn copy_value(value: &Option<Value>) -> Result<Option<Value>, Mem>
    ensures { IfOk result (λ copied. option_map view copied ≡ option_map view value.now) }
{
    match value {
        Some(value) => Ok(Some(copy(value)?)),
        None => Ok(None),
    }
}

fn copied_sub(id: &Text, name: &Text, params: &Items) -> Result<FromClient, Mem>
    ensures { IfOk result (λ message. client_view message ≡ sub id.now name.now params.now) }
{
    let id = id.copy()?;
    let name = name.copy()?;
    let params = params.copy()?;
    Ok(FromClient::Sub { id, name, params })
}

fn copied_method(
    id: &Text,
    method: &Text,
    params: &Items,
    random_seed: &Option<Value>,
) -> Result<FromClient, Mem>
    ensures { IfOk result (λ message. client_view message ≡ method_message id.now method.now params.now (option_map view random_seed.now)) }
{
    let id = id.copy()?;
    let method = method.copy()?;
    let params = params.copy()?;
    let random_seed = copy_value(random_seed)?;
    Ok(FromClient::Method {
        id,
        method,
        params,
        random_seed,
    })
}

fn copied_connect(version: &Text, support: &Option<Names>) -> Result<FromClient, Mem>
    ensures { IfOk result (λ message. client_view message ≡ connect version.now support.now) }
{
    let version = version.copy()?;
    let support = copy_option(support)?;
    Ok(FromClient::Connect { version, support })
}

fn copied_nosub(id: &Text, error: &Option<Fault>) -> Result<FromServer, Mem>
    ensures { IfOk result (λ message. server_view message ≡ nosub id.now error.now) }
{
    let id = id.copy()?;
    let error = copy_option(error)?;
    Ok(FromServer::Nosub { id, error })
}

fn copied_result(id: &Text, error: &Option<Fault>, value: &Option<Value>) -> Result<FromServer, Mem>
    ensures { IfOk result (λ message. server_view message ≡ finished id.now error.now (option_map view value.now)) }
{
    let id = id.copy()?;
    let error = copy_option(error)?;
    let value = copy_value(value)?;
    Ok(FromServer::Result {
        id,
        error,
        result: value,
    })
}

fn copied_error(reason: &Text, offending: &Option<Value>) -> Result<FromServer, Mem>
    ensures { IfOk result (λ message. server_view message ≡ refused reason.now (option_map view offending.now)) }
{
    let reason = reason.copy()?;
    let offending = copy_value(offending)?;
    Ok(FromServer::Error { reason, offending })
}

impl FromClient {
    /// A message equal to this one.
    pub fn copy(&self) -> Result<FromClient, Mem>
        ensures { IfOk result (λ message. client_view message ≡ client_view self.now) }
    {
        match self {
            FromClient::Connect { version, support } => copied_connect(version, support),
            FromClient::Ping { id } => Ok(FromClient::Ping {
                id: copy_option(id)?,
            }),
            FromClient::Pong { id } => Ok(FromClient::Pong {
                id: copy_option(id)?,
            }),
            FromClient::Sub { id, name, params } => copied_sub(id, name, params),
            FromClient::Unsub { id } => Ok(FromClient::Unsub { id: id.copy()? }),
            FromClient::Method {
                id,
                method,
                params,
                random_seed,
            } => copied_method(id, method, params, random_seed),
        }
    }
}

impl FromServer {
    /// A message equal to this one.
    pub fn copy(&self) -> Result<FromServer, Mem>
        ensures { IfOk result (λ message. server_view message ≡ server_view self.now) }
    {
        match self {
            FromServer::Connected { session } => Ok(FromServer::Connected {
                session: session.copy()?,
            }),
            FromServer::Failed { version } => Ok(FromServer::Failed {
                version: version.copy()?,
            }),
            FromServer::Ping { id } => Ok(FromServer::Ping {
                id: copy_option(id)?,
            }),
            FromServer::Pong { id } => Ok(FromServer::Pong {
                id: copy_option(id)?,
            }),
            FromServer::Nosub { id, error } => copied_nosub(id, error),
            FromServer::Ready { subs } => Ok(FromServer::Ready { subs: subs.copy()? }),
            FromServer::Data(message) => Ok(FromServer::Data(message.copy()?)),
            FromServer::Result {
                id,
                error,
                result: value,
            } => copied_result(id, error, value),
            FromServer::Updated { methods } => Ok(FromServer::Updated {
                methods: methods.copy()?,
            }),
            FromServer::Error { reason, offending } => copied_error(reason, offending),
            FromServer::Unknown => Ok(FromServer::Unknown),
        }
    }
}
