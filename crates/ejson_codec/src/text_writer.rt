//! Writing JSON texts, one token after another.
ghost use Rattle.std.specs.Prelude.{◌≡◌, ◌++◌, ◌∷◌, [], IsUtf8, IfOk, OnOk, OnErr};
ghost use Rattle.std.specs.Fmt.{signed_decimal};
ghost use Rattle.json.specs.Token.{begin_object, end_object, begin_array, end_array, key, string, number, boolean, null};
ghost use Rattle.json.specs.Print.{print};

use ejson_value::{Mem, Text};
use json::Writer;
use std::alloc::Global;
use std::marker::Model;
use std::str;

// A text that fits into so many bytes is written without growing.
const FIRST_BYTES: usize = 128;

/// A compact JSON text that is being written. A contract sees its tokens.
#[derive(Drop)]
pub struct TextWriter {
    out: Writer,
}

impl Model for TextWriter {
    ghost use Rattle.std.specs.Prelude.{◌≡◌, List, []};
    ghost use Rattle.json.specs.Token.{Token, tokens_code};

    ghost Value = { List Token };

    ghost coded = { tokens_code };

    ghost view = { λ w. w.out.tokens };

    ghost invariant = { λ w. w.out.before ≡ [] };
}

impl TextWriter {
    /// A text without tokens.
    pub fn new(alloc: Global) -> Result<TextWriter, Mem>
        ensures { IfOk result (λ out. out ≡ []) }
    {
        Ok(TextWriter {
            out: Writer::new(Vec::with_capacity(alloc, FIRST_BYTES)?),
        })
    }

    /// A text without tokens, written in this room, which loses what it held.
    pub fn over(mut room: Vec<u8>) -> TextWriter
        ensures { result ≡ [] }
    {
        room.clear();
        TextWriter {
            out: Writer::new(room),
        }
    }

    // The bytes of the text.
    fn into_bytes(self) -> Vec<u8>
        ensures printed { result.items ≡ print self }
        ensures utf8 { IsUtf8 result.items }
    {
        self.out.into_inner()
    }

    /// The text of the tokens.
    pub fn finish(self) -> Result<Text, Mem>
        ensures { IfOk result (λ text. text ≡ print self) }
    {
        Text::from_string(unsafe { String::from_utf8_unchecked(self.into_bytes()) })
    }

    /// The text of the tokens, in just the memory that it takes. What it was written in is left as the room.
    pub fn finish_with(self, alloc: Global, room: &mut Vec<u8>) -> Result<Text, Mem>
        ensures { IfOk result (λ text. text ≡ print self) }
    {
        *room = self.into_bytes();
        Text::from_str(alloc, unsafe { str::from_utf8_unchecked(room.as_slice()) })
    }

    /// Begins an object.
    pub fn begin_object(&mut self) -> Result<(), Mem>
        ensures ok { OnOk result (self.new ≡ self.old ++ begin_object ∷ []) }
        ensures err { OnErr result (self.new ≡ self.old) }
    {
        self.out.begin_object()?;
        Ok(())
    }

    /// Ends an object.
    pub fn end_object(&mut self) -> Result<(), Mem>
        ensures ok { OnOk result (self.new ≡ self.old ++ end_object ∷ []) }
        ensures err { OnErr result (self.new ≡ self.old) }
    {
        self.out.end_object()?;
        Ok(())
    }

    /// Begins an array.
    pub fn begin_array(&mut self) -> Result<(), Mem>
        ensures ok { OnOk result (self.new ≡ self.old ++ begin_array ∷ []) }
        ensures err { OnErr result (self.new ≡ self.old) }
    {
        self.out.begin_array()?;
        Ok(())
    }

    /// Ends an array.
    pub fn end_array(&mut self) -> Result<(), Mem>
        ensures ok { OnOk result (self.new ≡ self.old ++ end_array ∷ []) }
        ensures err { OnErr result (self.new ≡ self.old) }
    {
        self.out.end_array()?;
        Ok(())
    }

    /// Writes the key of a member.
    pub fn key(&mut self, name: &str) -> Result<(), Mem>
        ensures ok { OnOk result (self.new ≡ self.old ++ key name.now ∷ []) }
        ensures err { OnErr result (self.new ≡ self.old) }
    {
        self.out.key(name)?;
        Ok(())
    }

    /// Writes a string.
    pub fn string(&mut self, text: &str) -> Result<(), Mem>
        ensures ok { OnOk result (self.new ≡ self.old ++ string text.now ∷ []) }
        ensures err { OnErr result (self.new ≡ self.old) }
    {
        self.out.string(text)?;
        Ok(())
    }

    /// Writes a whole number.
    pub fn whole(&mut self, whole: i64) -> Result<(), Mem>
        ensures ok { OnOk result (self.new ≡ self.old ++ number (signed_decimal whole) ∷ []) }
        ensures err { OnErr result (self.new ≡ self.old) }
    {
        self.out.i64(whole)?;
        Ok(())
    }

    /// Writes a truth value.
    pub fn boolean(&mut self, truth: bool) -> Result<(), Mem>
        ensures ok { OnOk result (self.new ≡ self.old ++ boolean truth ∷ []) }
        ensures err { OnErr result (self.new ≡ self.old) }
    {
        self.out.boolean(truth)?;
        Ok(())
    }

    /// Writes `null`.
    pub fn null(&mut self) -> Result<(), Mem>
        ensures ok { OnOk result (self.new ≡ self.old ++ null ∷ []) }
        ensures err { OnErr result (self.new ≡ self.old) }
    {
        self.out.null()?;
        Ok(())
    }
}
