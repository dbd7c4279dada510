//! Paths into documents (dot notation, in MongoDB's documentation of query operators).
ghost use Rattle.std.specs.Prelude.{◌≡◌, ◌↔◌, ◌==◌, ◌<◌, ◌||◌, true, Some, None, not, length, count_by, nat_lt, slice_index, IfOk, IsErrOf};
ghost use Rattle.std.specs.Str.{all_ascii_digits};
ghost use Rattle.std.specs.List.{list_all};
ghost use Rattle.value_model.specs.Branches.{parts_of, is_path, path_of, has_plain_digits, position_of};

use crate::list::Copied;
use crate::memory::Mem;
use crate::text::Text;
use std::alloc::Global;
use std::marker::Model;
use thiserror::Error;

/// The most parts that a path has.
const MAX_PARTS: usize = 32;

/// Why a text is no path.
#[derive(Clone, Copy, Debug, PartialEq, Eq, Error)]
pub enum PathFault {
    #[error("not a path of 1 to 32 parts, none empty")]
    BadPath,
    #[error("out of memory")]
    Memory,
}

impl From<Mem> for PathFault {
    ghost use Rattle.std.specs.Prelude.{◌≡◌};
    ghost use Rattle.ejson_value.specs.declared.path.PathFault.TheVariants.{Memory};

    ghost from_gives = { λ _ e. e ≡ Memory };

    fn from(_: Mem) -> PathFault {
        PathFault::Memory
    }
}

/// One part of a path: a field's name, which may be a position in a list as well. A contract sees its name.
#[derive(Drop)]
pub struct Part {
    name: Text,
    place: Option<usize>,
}

impl Model for Part {
    ghost use Rattle.std.specs.Prelude.{List, ℕ, ◌≡◌};
    ghost use Rattle.value_model.specs.Branches.{position_of};

    ghost Value = { List ℕ };

    ghost view = { λ a. a.name };

    ghost invariant = { λ a. a.place ≡ position_of a.name };
}

fn has_only_digits(text: &str) -> bool
    ensures { result ≡ all_ascii_digits text.now }
{
    text.as_bytes().iter().all(|b| b.is_ascii_digit())
}

fn has_no_leading_zero(digits: &[u8]) -> bool
    requires { 0 < length digits.now }
    ensures { result ≡ (length digits.now == 1 || not (slice_index digits.now 0 == 48)) }
{
    digits.len() == 1 || digits[0] != b'0'
}

// Whether the text has digits alone and no leading zero.
fn has_plain_digits(text: &str) -> bool
    ensures { result ≡ has_plain_digits text.now }
{
    !text.is_empty() && has_only_digits(text) && has_no_leading_zero(text.as_bytes())
}

fn position(text: &str) -> Option<usize>
    ensures { result ≡ position_of text.now }
{
    if has_plain_digits(text) {
        text.parse().ok()
    } else {
        None
    }
}

impl Part {
    fn of(name: Text) -> Part
        ensures { result ≡ name }
    {
        let place = position(name.as_str());
        Part { name, place }
    }

    pub fn name(&self) -> &Text
        ensures { result.now ≡ self.now }
    {
        &self.name
    }

    /// The position in a list that it writes: `0`, or digits without a leading zero.
    pub fn place(&self) -> Option<usize>
        ensures { result ≡ position_of self.now }
    {
        self.place
    }

    fn copy(&self) -> Result<Part, Mem>
        ensures { IfOk result (λ part. part ≡ self.now) }
    {
        Ok(Part {
            name: self.name.copy()?,
            place: self.place,
        })
    }
}

/// A path of 1 to 32 parts, none of them empty. A contract sees its parts' names.
#[derive(Drop)]
pub struct Path {
    parts: Vec<Part>,
}

impl Model for Path {
    ghost use Rattle.std.specs.Prelude.{List, ℕ, ◌≡◌, true};
    ghost use Rattle.value_model.specs.Branches.{is_path};

    ghost Value = { List (List ℕ) };

    ghost view = { λ a. a.parts.items };

    ghost invariant = { λ a. is_path a.parts.items ≡ true };
}

fn has_filled_parts(text: &str) -> bool
    ensures { result ≡ list_all (λ part. nat_lt 0 (length part)) (parts_of text.now) }
{
    text.split('.').all(|part| !part.is_empty())
}

fn count_dots(text: &str) -> usize
    ensures { result ≡ count_by (λ b. b == 46) text.now }
{
    text.as_bytes().iter().filter(|b| **b == b'.').count()
}

// Whether the text is a path, with no part kept.
fn writes_path(text: &str) -> bool
    ensures { result ≡ is_path (parts_of text.now) }
{
    has_filled_parts(text) && count_dots(text) < MAX_PARTS
}

fn parts_written(alloc: Global, text: &str) -> Result<Vec<Part>, Mem>
    ensures { IfOk result (λ parts. parts.items ≡ parts_of text.now) }
{
    let mut parts = Vec::new(alloc);
    for name in text.split('.') {
        parts.push(Part::of(Text::from_str(alloc, name)?))?;
    }
    Ok(parts)
}

impl Path {
    /// The path that the text writes, with dots between its parts.
    pub fn read(alloc: Global, text: &Text) -> Result<Path, PathFault>
        ensures found { IfOk result (λ path. path_of text.now ≡ Some path) }
        ensures bad { IsErrOf result PathFault.BadPath ↔ (path_of text.now ≡ None) }
    {
        if !writes_path(text.as_str()) {
            return Err(PathFault::BadPath);
        }
        Ok(Path {
            parts: parts_written(alloc, text.as_str())?,
        })
    }

    pub fn parts(&self) -> &[Part]
        ensures value { result.now ≡ self.now }
        ensures path { is_path self.now ≡ true }
    {
        self.parts.as_slice()
    }

    /// A path equal to this one.
    pub fn copy(&self) -> Result<Path, Mem>
        ensures { IfOk result (λ path. path ≡ self.now) }
    {
        let mut parts = Vec::new(*self.parts.allocator());
        for part in &self.parts {
            parts.push(part.copy()?)?;
        }
        Ok(Path { parts })
    }
}

impl Copied for Path {
    fn copied(&self) -> Result<Path, Mem> {
        self.copy()
    }
}
