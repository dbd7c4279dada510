//! The lines of the texts that a session said.
ghost use Rattle.std.specs.Prelude.{◌≡◌, ◌+◌, ◌<◌, ◌++◌, ◌∷◌, [], length, map, take, drop, slice_get, IfOk, OnOk};
ghost use Rattle.std.specs.Option.{option_copied};
ghost use Rattle.connection.specs.Printed.{out_text, texts_in};

use ejson_codec::Lines;
use ejson_value::{Mem, Text};
use session_core::Session;
use session_core::session_texts::Texts;
use std::alloc::Global;

// The line of a text, which is printed as it stands.
fn out_line(alloc: Global, text: &Text) -> Result<Text, Mem>
    ensures { IfOk result (λ line. line ≡ out_text text.now) }
{
    let mut line = Text::from_str(alloc, "[\"out\",")?;
    line.push_str(text.as_str())?;
    line.push_str("]")?;
    Ok(line)
}

// The text at this place among those that are to be sent.
fn waiting_at(texts: &Texts, place: usize) -> Option<&Text>
    ensures { option_copied result ≡ slice_get texts.now.items place }
{
    texts.get(place)
}

// The text at this place among those that were sent and those that are to be.
fn text_at<'a>(session: &'a Session, sent: &'a [Text], place: usize) -> Option<&'a Text>
    ensures { option_copied result ≡ slice_get (texts_in sent.now session.now) place }
{
    if place < sent.len() {
        sent.get(place)
    } else {
        waiting_at(session.outbox(), place - sent.len())
    }
}

// The next text, where there is one.
fn push_text(
    alloc: Global,
    session: &Session,
    sent: &[Text],
    place: &mut usize,
    lines: &mut Lines,
) -> Result<(), Mem>
    requires { length (texts_in sent.now session.now) < 18446744073709551616 }
    ensures line { OnOk result (lines.new ≡ lines.old ++ map out_text (take 1 (drop place.old (texts_in sent.now session.now)))) }
    ensures left { OnOk result (drop place.new (texts_in sent.now session.now) ≡ drop 1 (drop place.old (texts_in sent.now session.now))) }
{
    let Some(text) = text_at(session, sent, *place) else {
        return Ok(());
    };
    lines.push(out_line(alloc, text)?)?;
    *place += 1;
    Ok(())
}

/// So many texts, where there are as many.
pub(crate) fn push_texts(
    alloc: Global,
    session: &Session,
    sent: &[Text],
    place: &mut usize,
    lines: &mut Lines,
    count: usize,
) -> Result<(), Mem>
    requires { length (texts_in sent.now session.now) < 18446744073709551616 }
    ensures line { OnOk result (lines.new ≡ lines.old ++ map out_text (take count (drop place.old (texts_in sent.now session.now)))) }
    ensures left { OnOk result (drop place.new (texts_in sent.now session.now) ≡ drop count (drop place.old (texts_in sent.now session.now))) }
{
    for turn in 0..count {
        push_text(alloc, session, sent, place, lines)?;
    }
    Ok(())
}
