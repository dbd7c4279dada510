//! Lists of one kind of thing.
ghost use Rattle.std.specs.Prelude.{◌≡◌, ◌∷◌, ◌++◌, ◌==◌, [], length, slice_get, IfOk, OnOk, OnErr};
ghost use Rattle.std.specs.Option.{option_copied};

use crate::memory::Mem;
use std::alloc::Global;
use std::marker::Model;

/// What can be copied where there is memory, so that a list of it can be.
pub trait Copied: Drop {
    /// A value equal to this one.
    fn copied(&self) -> Result<Self, Mem>
        ensures { IfOk result (λ c. c ≡ self.now) };
}

/// A list. A contract sees it as the list of its elements.
#[derive(Drop)]
pub struct ListOf<T> {
    items: Vec<T>,
}

impl<T> Model for ListOf<T> {
    ghost use Rattle.std.specs.Prelude.{List};

    ghost Value = { List T };

    ghost view = { λ a. a.items.items };
}

impl<T> ListOf<T> {
    /// An empty list.
    pub fn new(alloc: Global) -> ListOf<T>
        ensures { result ≡ [] }
    {
        ListOf {
            items: Vec::new(alloc),
        }
    }

    /// How many elements it has.
    pub fn len(&self) -> usize
        ensures { result ≡ length self.now }
    {
        self.items.len()
    }

    /// Whether it has none.
    pub fn is_empty(&self) -> bool
        ensures { result ≡ (length self.now == 0) }
    {
        self.items.is_empty()
    }

    /// The element at this place.
    pub fn get(&self, place: usize) -> Option<&T>
        ensures { option_copied result ≡ slice_get self.now place }
    {
        self.items.get(place)
    }

    /// The elements in order.
    pub fn as_slice(&self) -> &[T]
        ensures { result.now ≡ self.now }
    {
        self.items.as_slice()
    }

    pub(crate) fn allocator(&self) -> Global {
        *self.items.allocator()
    }
}

impl<T: Drop> ListOf<T> {
    // Makes room for one more element, where there is none for twice as many.
    fn make_room(&mut self) -> Result<(), Mem>
        ensures { self.new ≡ self.old }
    {
        let len = self.items.len();
        if len == self.items.capacity() {
            self.items.reserve_exact(len.max(1))?;
        }
        Ok(())
    }

    /// Puts the element behind the others.
    pub fn push(&mut self, item: T) -> Result<(), Mem>
        ensures ok { OnOk result (self.new ≡ self.old ++ item ∷ []) }
        ensures err { OnErr result (self.new ≡ self.old) }
    {
        self.make_room()?;
        self.items.push(item)?;
        Ok(())
    }
}

impl<T: Copied> ListOf<T> {
    /// A list equal to this one.
    pub fn copy(&self) -> Result<ListOf<T>, Mem>
        ensures { IfOk result (λ c. c ≡ self.now) }
    {
        let mut items = Vec::with_capacity(self.allocator(), self.len())?;
        for item in self.as_slice() {
            items.push(item.copied()?)?;
        }
        Ok(ListOf { items })
    }
}

impl<T: Copied> Copied for ListOf<T> {
    fn copied(&self) -> Result<ListOf<T>, Mem> {
        self.copy()
    }
}

/// A copy of what there may be.
pub fn copy_option<T: Copied>(item: &Option<T>) -> Result<Option<T>, Mem>
    ensures { IfOk result (λ copy. copy ≡ item.now) }
{
    match item {
        None => Ok(None),
        Some(item) => Ok(Some(item.copied()?)),
    }
}
