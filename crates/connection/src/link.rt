//! The texts that go one way between a client and its session.
ghost use Rattle.std.specs.Prelude.{◌≡◌, ◌<◌, ◌≤◌, ◌==◌, suc, [], length, drop, not, nat_lt, slice_get};
ghost use Rattle.std.specs.Option.{option_copied};
ghost use Rattle.connection.specs.world_model.Conn.{link_limit};

use ejson_value::Text;
use std::alloc::Global;

/// How many texts a link holds that are not taken yet.
const LINK_LIMIT: usize = 256;

/// All texts that were put on a link, in order, of which the first so many were taken. So no text is
/// copied that goes over the link, and those that went over it can still be seen.
#[derive(Drop)]
pub(crate) struct Link {
    pub(crate) texts: Vec<Text>,
    pub(crate) taken: usize,
}

impl Link {
    /// Nothing was put on it.
    pub(crate) fn new(alloc: Global) -> Link
        ensures texts { result.texts.items ≡ [] }
        ensures taken { result.taken ≡ 0 }
    {
        Link {
            texts: Vec::new(alloc),
            taken: 0,
        }
    }

    /// Whether it holds as many texts as it may.
    pub(crate) fn is_full(&self) -> bool
        requires { self.now.taken ≤ length self.now.texts.items }
        ensures { result ≡ not (nat_lt (length (drop self.now.taken self.now.texts.items)) link_limit) }
    {
        self.texts.len() - self.taken >= LINK_LIMIT
    }

    /// Whether it holds no text.
    pub(crate) fn is_empty(&self) -> bool
        requires { self.now.taken ≤ length self.now.texts.items }
        ensures { result ≡ (length (drop self.now.taken self.now.texts.items) == 0) }
    {
        self.texts.len() - self.taken == 0
    }

    /// The text that is taken next.
    pub(crate) fn first(&self) -> Option<&Text>
        ensures { option_copied result ≡ slice_get self.now.texts.items self.now.taken }
    {
        self.texts.get(self.taken)
    }

    /// The first text is taken.
    pub(crate) fn pass(&mut self)
        requires { self.old.taken < length self.old.texts.items }
        ensures { self.new ≡ record self.old { taken = suc self.old.taken } }
    {
        self.taken += 1;
    }

    /// All texts that were put on it.
    pub(crate) fn all(&self) -> &[Text]
        ensures { result.now ≡ self.now.texts.items }
    {
        self.texts.as_slice()
    }
}
