//! What is told of one entry.
ghost use Rattle.std.specs.Prelude.{◌≡◌, IfOk};
ghost use Rattle.std.specs.Arc.{arc_value};
ghost use Rattle.multiplexer.specs.Inside.{seen_entry};
ghost use Rattle.multiplexer.specs.Sources.{entry_of};

use ejson_value::{Mem, Publishes};
use known_texts::KnownTexts;
use std::alloc::Global;
use std::sync::Arc;

/// What is told of an entry, and the texts of it that clients were told before.
#[derive(Drop)]
pub(crate) struct Told {
    pub(crate) news: Arc<Publishes>,
    pub(crate) texts: KnownTexts,
}

impl Told {
    /// No text is known.
    pub(crate) fn new(alloc: Global, news: Arc<Publishes>) -> Result<Told, Mem>
        ensures { IfOk result (λ told. seen_entry told ≡ entry_of (arc_value news)) }
    {
        let texts = KnownTexts::places(alloc, news.len())?;
        Ok(Told { news, texts })
    }
}
