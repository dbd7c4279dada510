//! Texts by the places of publishes.
ghost use Rattle.std.specs.Prelude.{◌≡◌, ◌∷◌, ◌++◌, [], None, IfOk, OnOk, option_copied, replicate};
ghost use Rattle.known_texts.specs.Places.{text_at, is_open, put_text};

use ejson_value::{Mem, Text};
use std::alloc::Global;
use std::marker::Model;

/// For each publish of some news, by its place, the text that a client is told of it, where it is
/// known. A contract sees the list of these texts.
#[derive(Drop)]
pub struct KnownTexts {
    texts: Vec<Option<Text>>,
}

impl Model for KnownTexts {
    ghost use Rattle.known_texts.specs.Places.{Texts};

    ghost Value = { Texts };

    ghost view = { λ a. a.texts.items };
}

impl KnownTexts {
    /// No places.
    pub fn new(alloc: Global) -> KnownTexts
        ensures { result ≡ [] }
    {
        KnownTexts {
            texts: Vec::new(alloc),
        }
    }

    // One more place, with no text.
    fn push(&mut self) -> Result<(), Mem>
        ensures { OnOk result (self.new ≡ self.old ++ None ∷ []) }
    {
        self.texts.push(None)?;
        Ok(())
    }

    /// So many places, none with a text.
    pub fn places(alloc: Global, count: usize) -> Result<KnownTexts, Mem>
        ensures { IfOk result (λ texts. texts ≡ replicate count None) }
    {
        let mut texts = KnownTexts::new(alloc);
        for _place in 0..count {
            texts.push()?;
        }
        Ok(texts)
    }

    /// The text at this place, if it is known.
    pub fn get(&self, place: usize) -> Option<&Text>
        ensures { option_copied result ≡ text_at self.now place }
    {
        match self.texts.get(place) {
            Some(text) => text.as_ref(),
            None => None,
        }
    }

    /// Whether there is this place, with no text.
    pub fn is_open(&self, place: usize) -> bool
        ensures { result ≡ is_open self.now place }
    {
        match self.texts.get(place) {
            Some(text) => text.is_none(),
            None => false,
        }
    }

    /// Puts the text at this place, where there is it and it has none.
    pub fn put(&mut self, place: usize, text: Text)
        ensures { self.new ≡ put_text self.old place text }
    {
        if self.is_open(place) {
            self.texts[place] = Some(text);
        }
    }
}
