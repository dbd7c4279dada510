//! What a client says.
ghost use Rattle.std.specs.Prelude.{◌≡◌, ◌∷◌, [], codes, decimal, IfOk, Some};
ghost use Rattle.value_model.specs.Val.{text as text_val};
ghost use Rattle.ddp_messages.specs.ClientMessage as client;
ghost use Rattle.ddp_messages.specs.ClientMessage.{client_view};
ghost use Rattle.ddp_messages.specs.Texts.{client_text};

use crate::numbers::id_of;
use ddp_messages::FromClient;
use ejson_value::{Items, Mem, Names, Text, Value, copy_option};
use std::alloc::Global;

// The text of the message. It takes the message, so that no caller has to drop one.
fn text_of(alloc: Global, message: FromClient) -> Result<Text, Mem>
    ensures { IfOk result (λ text. text ≡ client_text (client_view message)) }
{
    let text = message.text(alloc);
    drop(message);
    text
}

// The versions that a client speaks.
fn support(alloc: Global) -> Result<Names, Mem>
    ensures { IfOk result (λ names. names ≡ codes "1" ∷ []) }
{
    let mut names = Names::new(alloc);
    names.push(Text::from_str(alloc, "1")?)?;
    Ok(names)
}

/// A client's first text.
pub fn connect(alloc: Global) -> Result<Text, Mem>
    ensures { IfOk result (λ text. text ≡ client_text (client.connect (codes "1") (Some (codes "1" ∷ [])))) }
{
    let support = Some(support(alloc)?);
    let version = Text::from_str(alloc, "1")?;
    text_of(alloc, FromClient::Connect { version, support })
}

pub fn pong(alloc: Global, id: &Option<Text>) -> Result<Text, Mem>
    ensures { IfOk result (λ text. text ≡ client_text (client.pong id.now)) }
{
    let id = copy_option(id)?;
    text_of(alloc, FromClient::Pong { id })
}

pub fn sub(alloc: Global, id: &Text, name: &Text, params: &Items) -> Result<Text, Mem>
    ensures { IfOk result (λ text. text ≡ client_text (client.sub id.now name.now params.now)) }
{
    let id = id.copy()?;
    let name = name.copy()?;
    let params = params.copy()?;
    text_of(alloc, FromClient::Sub { id, name, params })
}

pub fn unsub(alloc: Global, id: &Text) -> Result<Text, Mem>
    ensures { IfOk result (λ text. text ≡ client_text (client.unsub id.now)) }
{
    let id = id.copy()?;
    text_of(alloc, FromClient::Unsub { id })
}

/// The call of this number, with the seed of its ids.
pub fn method(
    alloc: Global,
    number: u32,
    method: &Text,
    params: &Items,
    seed: &Text,
) -> Result<Text, Mem>
    ensures { IfOk result (λ text. text ≡ client_text (client.method (decimal number) method.now params.now (Some (text_val seed.now)))) }
{
    let id = id_of(alloc, number)?;
    let method = method.copy()?;
    let params = params.copy()?;
    let random_seed = Some(Value::Text(seed.copy()?));
    text_of(
        alloc,
        FromClient::Method {
            id,
            method,
            params,
            random_seed,
        },
    )
}
