//! Texts.
ghost use Rattle.std.specs.Prelude.{◌≡◌, ◌+◌, ◌++◌, ◌==◌, ◌↔◌, ◌≤◌, [], drop, length, take, nat_eq, string_bytes, encode_utf8, refl, Decides, IsTrue};
ghost use Rattle.std.specs.Prelude.{IsFalse, IsSome, IfSome, IfOk, OnOk, OnErr};
ghost use Rattle.std.specs.Ordering.{nat_cmp, as_partial_cmp};
ghost use Rattle.std.specs.Cmp.Lexicographic.{pointwise, slice_cmp};
ghost use Rattle.std.specs.Cmp.{partial_order_from_own_ties};
ghost use Rattle.std.specs.Cmp.Rules.{comparing};
ghost use Rattle.std.proofs.Common.{rules};
ghost use Rattle.std.specs.Slice.Scan.{big_endian};
ghost use Rattle.ejson_value.specs.Held.{held_bytes};
ghost use lib.Lanes.{chunk};

use crate::list::Copied;
use crate::memory::Mem;
use std::alloc::Global;
use std::cmp::Ordering;
use std::marker::Model;
use std::mem::size_of;
use std::sync::Arc;
use std::{fmt, str};

// The most bytes that a text keeps inside itself; a longer one takes memory of the heap, which its copies share.
const MAX_SHORT: usize = 22;

const _: () = prove!(size_of::<Text>() == 24);

/// A text of UTF-8. A contract sees it as its bytes, and texts go byte by byte.
pub struct Text {
    alloc: Global,
    inner: Held,
}

#[derive(Drop)]
enum Held {
    Short(Short),
    Long(Arc<String>),
}

// A text of at most MAX_SHORT bytes. Behind them are zeros, so that words of all its bytes tell its order.
#[derive(Drop)]
struct Short {
    len: u8,
    bytes: [u8; MAX_SHORT],
}

impl Model for Text {
    ghost use Rattle.std.specs.Prelude.{List, ℕ};

    ghost Value = { List ℕ };

    ghost use Rattle.ejson_value.specs.Held.{held_bytes};

    ghost view = { λ t. held_bytes t.inner };
}

impl Model for Short {
    ghost use Rattle.std.specs.Prelude.{◌≤◌, List, ℕ, take, IsUtf8};
    ghost use Rattle.ejson_value.specs.Padding.{HasZerosFrom};
    ghost use Rattle.ejson_value.specs.declared.text.TheConstants.{MAX_SHORT};

    ghost Value = { List ℕ };

    ghost view = { λ s. take s.len s.bytes };

    ghost invariant = { λ s. (s.len ≤ MAX_SHORT) × ∥ IsUtf8 (take s.len s.bytes) ∥₁ × HasZerosFrom s.len s.bytes };
}

// Writes the source over the bytes from this place on.
fn write_at(bytes: &mut [u8; MAX_SHORT], start: usize, source: &[u8])
    requires { start + length source.now ≤ MAX_SHORT }
    ensures written { take (start + length source.now) bytes.new ≡ take start bytes.old ++ source.now }
    ensures behind { drop (start + length source.now) bytes.new ≡ drop (start + length source.now) bytes.old }
{
    bytes[start..start + source.len()].copy_from_slice(source);
}

// The number that the eight bytes from this place on spell, the greatest first.
#[inline(always)]
fn word(bytes: &[u8; MAX_SHORT], at: usize) -> u64
    requires { at + 8 ≤ MAX_SHORT }
    ensures { result ≡ big_endian 0 (chunk at 8 bytes.now) }
{
    u64::from_be_bytes([
        bytes[at],
        bytes[at + 1],
        bytes[at + 2],
        bytes[at + 3],
        bytes[at + 4],
        bytes[at + 5],
        bytes[at + 6],
        bytes[at + 7],
    ])
}

// The order of all bytes.
#[inline(always)]
fn order(left: &[u8; MAX_SHORT], right: &[u8; MAX_SHORT]) -> Ordering
    ensures { result ≡ slice_cmp nat_cmp left.now right.now }
{
    let (one, two) = (word(left, 0), word(right, 0));
    if one != two {
        return one.cmp(&two);
    }
    order_behind(left, right)
}

// The order of the bytes behind the first eight.
fn order_behind(left: &[u8; MAX_SHORT], right: &[u8; MAX_SHORT]) -> Ordering
    ensures { result ≡ slice_cmp nat_cmp (drop 8 left.now) (drop 8 right.now) }
{
    let (one, two) = (word(left, 8), word(right, 8));
    if one != two {
        return one.cmp(&two);
    }
    word(left, 14).cmp(&word(right, 14))
}

// Whether all bytes are the same.
#[inline(always)]
fn is_same(left: &[u8; MAX_SHORT], right: &[u8; MAX_SHORT]) -> bool
    ensures { Decides result (left.now ≡ right.now) }
{
    if word(left, 0) != word(right, 0) {
        return false;
    }
    (word(left, 8) == word(right, 8)) & (word(left, 14) == word(right, 14))
}

impl Short {
    fn new() -> Short
        ensures { result ≡ [] }
    {
        Short {
            len: 0,
            bytes: [0; MAX_SHORT],
        }
    }

    // The text, if it is short.
    fn of(text: &str) -> Option<Short>
        ensures fits { IsSome result ↔ (length text.now ≤ MAX_SHORT) }
        ensures value { IfSome result (λ short. short ≡ text.now) }
    {
        let mut short = Short::new();
        if short.try_push(text) {
            Some(short)
        } else {
            None
        }
    }

    fn as_str(&self) -> &str
        ensures { result.now ≡ self.now }
    {
        let len = self.len as usize;
        unsafe { str::from_utf8_unchecked(&self.bytes[..len]) }
    }

    // Puts more behind the text, if it fits.
    fn try_push(&mut self, more: &str) -> bool
        ensures fits { IsTrue result ↔ (length self.old + length more.now ≤ MAX_SHORT) }
        ensures pushed { IsTrue result → self.new ≡ self.old ++ more.now }
        ensures kept { IsFalse result → self.new ≡ self.old }
    {
        let len = self.len as usize;
        if more.len() > MAX_SHORT - len {
            return false;
        }
        write_at(&mut self.bytes, len, more.as_bytes());
        self.len = (len + more.len()) as u8;
        true
    }

    #[inline(always)]
    fn order(&self, other: &Short) -> Ordering
        ensures { result ≡ slice_cmp nat_cmp self.now other.now }
    {
        let bytes = order(&self.bytes, &other.bytes);
        if bytes.is_eq() {
            return self.len.cmp(&other.len);
        }
        bytes
    }

    #[inline(always)]
    fn is_same(&self, other: &Short) -> bool
        ensures { Decides result (self.now ≡ other.now) }
    {
        if self.len != other.len {
            return false;
        }
        is_same(&self.bytes, &other.bytes)
    }

    fn copy(&self) -> Short
        ensures { result ≡ self.now }
    {
        Short {
            len: self.len,
            bytes: self.bytes,
        }
    }
}

// Both texts, one behind the other.
fn joined(alloc: Global, first: &str, second: &str) -> Result<String, Mem>
    ensures { IfOk result (λ both. string_bytes both ≡ first.now ++ second.now) }
{
    let mut both = String::with_capacity(alloc, first.len() + second.len())?;
    both.push_str(first)?;
    both.push_str(second)?;
    Ok(both)
}

impl Held {
    fn of(alloc: Global, text: &str) -> Result<Held, Mem>
        ensures { IfOk result (λ held. held_bytes held ≡ text.now) }
    {
        match Short::of(text) {
            Some(short) => Ok(Held::Short(short)),
            None => Held::long(alloc, String::from_str(alloc, text)?),
        }
    }

    fn long(alloc: Global, text: String) -> Result<Held, Mem>
        ensures { IfOk result (λ held. held_bytes held ≡ string_bytes text) }
    {
        Ok(Held::Long(Arc::new(alloc, text)?))
    }

    fn as_str(&self) -> &str
        ensures { result.now ≡ held_bytes self.now }
    {
        match self {
            Held::Short(text) => text.as_str(),
            Held::Long(text) => text.as_str(),
        }
    }

    fn push_str(&mut self, alloc: Global, more: &str) -> Result<(), Mem>
        ensures ok { OnOk result (held_bytes self.new ≡ held_bytes self.old ++ more.now) }
        ensures err { OnErr result (held_bytes self.new ≡ held_bytes self.old) }
    {
        match self {
            Held::Short(text) => {
                if text.try_push(more) {
                    return Ok(());
                }
            }
            Held::Long(text) => {
                if let Some(own) = Arc::get_mut(text) {
                    return Ok(own.push_str(more)?);
                }
            }
        }
        *self = Held::long(alloc, joined(alloc, self.as_str(), more)?)?;
        Ok(())
    }

    fn copy(&self) -> Result<Held, Mem>
        ensures { IfOk result (λ held. held_bytes held ≡ held_bytes self.now) }
    {
        match self {
            Held::Short(text) => Ok(Held::Short(text.copy())),
            Held::Long(text) => Ok(Held::Long(Arc::try_clone(text)?)),
        }
    }
}

impl Text {
    /// An empty text.
    pub fn new(alloc: Global) -> Text
        ensures { result ≡ [] }
    {
        Text {
            alloc,
            inner: Held::Short(Short::new()),
        }
    }

    /// A copy of this text.
    pub fn from_str(alloc: Global, text: &str) -> Result<Text, Mem>
        ensures { IfOk result (λ t. t ≡ text.now) }
    {
        Ok(Text {
            alloc,
            inner: Held::of(alloc, text)?,
        })
    }

    /// An empty text beside this one, of the same allocator.
    pub(crate) fn emptied(&self) -> Text
        ensures { result ≡ [] }
    {
        Text::new(self.alloc)
    }

    /// The text of a string: a copy of a short one, else the string itself.
    pub fn from_string(inner: String) -> Result<Text, Mem>
        ensures { IfOk result (λ t. t ≡ string_bytes inner) }
    {
        let alloc = *inner.allocator();
        let inner = match Short::of(inner.as_str()) {
            Some(short) => Held::Short(short),
            None => Held::long(alloc, inner)?,
        };
        Ok(Text { alloc, inner })
    }

    /// The text as a string slice.
    pub fn as_str(&self) -> &str
        ensures { result.now ≡ self.now }
    {
        self.inner.as_str()
    }

    /// Its bytes in order.
    pub fn as_bytes(&self) -> &[u8]
        ensures { result.now ≡ self.now }
    {
        self.as_str().as_bytes()
    }

    /// How many bytes it has.
    pub fn len(&self) -> usize
        ensures { result ≡ length self.now }
    {
        self.as_str().len()
    }

    /// Whether it has no bytes.
    pub fn is_empty(&self) -> bool
        ensures { result ≡ (length self.now == 0) }
    {
        self.as_str().is_empty()
    }

    /// Puts the character behind the text.
    pub fn push(&mut self, character: char) -> Result<(), Mem>
        ensures ok { OnOk result (self.new ≡ self.old ++ encode_utf8 character) }
        ensures err { OnErr result (self.new ≡ self.old) }
    {
        let mut buffer = [0; 4];
        self.push_str(character.encode_utf8(&mut buffer))
    }

    /// Puts the other text behind this one.
    pub fn push_str(&mut self, more: &str) -> Result<(), Mem>
        ensures ok { OnOk result (self.new ≡ self.old ++ more.now) }
        ensures err { OnErr result (self.new ≡ self.old) }
    {
        let alloc = self.alloc;
        self.inner.push_str(alloc, more)
    }

    /// A text equal to this one. A long one shares its memory with it.
    pub fn copy(&self) -> Result<Text, Mem>
        ensures { IfOk result (λ t. t ≡ self.now) }
    {
        Ok(Text {
            alloc: self.alloc,
            inner: self.inner.copy()?,
        })
    }
}

impl Drop for Text {
    fn drop(self) {
        let Text { alloc: _, inner } = self;
        drop(inner);
    }
}

impl Copied for Text {
    fn copied(&self) -> Result<Text, Mem> {
        self.copy()
    }
}

impl PartialEq for Text {
    ghost eq = { pointwise nat_eq };

    ghost laws = { Prim.search (comparing, rules) };

    #[inline(always)]
    fn eq(&self, other: &Text) -> bool {
        match (&self.inner, &other.inner) {
            (Held::Short(one), Held::Short(other)) => one.is_same(other),
            _ => self.as_str() == other.as_str(),
        }
    }
}

impl Eq for Text {
    ghost laws = { Prim.search (comparing, rules) };
}

impl PartialOrd for Text {
    ghost partial_cmp = { as_partial_cmp (slice_cmp nat_cmp) };

    ghost laws = { partial_order_from_own_ties (Prim.search (comparing, rules)) (Prim.search (comparing, rules)) };

    fn partial_cmp(&self, other: &Text) -> Option<Ordering> {
        Some(self.cmp(other))
    }
}

impl Ord for Text {
    ghost cmp = { slice_cmp nat_cmp };

    ghost total = { Prim.search (comparing, rules) };

    ghost matches_partial_cmp = { λ x y. refl };

    ghost matches_eq = { Prim.search (comparing, rules) };

    #[inline(always)]
    fn cmp(&self, other: &Text) -> Ordering {
        match (&self.inner, &other.inner) {
            (Held::Short(one), Held::Short(other)) => one.order(other),
            _ => self.as_str().cmp(other.as_str()),
        }
    }
}

impl fmt::Debug for Text {
    fn fmt<W: fmt::Write>(&self, f: &mut fmt::Formatter<W>) -> fmt::Result {
        fmt::Debug::fmt(&self.as_str(), f)
    }
}
