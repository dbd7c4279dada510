//! Texts that are known once more elsewhere.
ghost use Rattle.std.specs.Prelude.{Option, IfSome, option_copied};
ghost use Rattle.value_model.specs.Val.{Entries};
ghost use Rattle.ejson_value.specs.declared.key.Key.{Key as AKey};
ghost use Rattle.multiplexer.specs.Known.{AreKnown};
ghost use Rattle.multiplexer.specs.Leading.{News as ANews};
ghost use Rattle.multiplexer.specs.Origins.{IsKnownAt};

use ejson_value::Text;
use known_texts::KnownTexts;

// The text is known at this open place. Where there is no memory for it, none is.
fn fill(texts: &mut KnownTexts, place: usize, text: &Text)
    ensures { (before : AKey → Option Entries) (news : ANews) → AreKnown before news texts.old → IsKnownAt before news place text.now →
        AreKnown before news texts.new }
{
    if let Ok(copy) = text.copy() {
        texts.put(place, copy);
    }
}

/// The text, if there is one, is known there, where none is yet. Where there is no memory for it, none is.
pub(crate) fn keep_text(texts: &mut KnownTexts, place: usize, text: Option<&Text>)
    ensures { (before : AKey → Option Entries) (news : ANews) → AreKnown before news texts.old →
        IfSome (option_copied text.entry) (IsKnownAt before news place) → AreKnown before news texts.new }
{
    if let Some(text) = text {
        if texts.is_open(place) {
            fill(texts, place, text);
        }
    }
}
