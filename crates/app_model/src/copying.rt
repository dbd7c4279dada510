//! Copies of the parts of an application.
ghost use Rattle.std.specs.Prelude.{◌≡◌, IfOk};

use crate::publication::{CursorRule, Projection, Publication};
use ejson_value::{Copied, Mem, SortKeys, Text};
use program_steps::Template;

impl Projection {
    /// A projection equal to this one.
    pub fn copy(&self) -> Result<Projection, Mem>
        ensures { IfOk result (λ p. p ≡ self.now) }
    {
        match self {
            Projection::All => Ok(Projection::All),
            Projection::Only(paths) => Ok(Projection::Only(paths.copy()?)),
            Projection::Without(paths) => Ok(Projection::Without(paths.copy()?)),
        }
    }
}

fn copy_both(one: &Text, other: &Text) -> Result<(Text, Text), Mem>
    ensures { IfOk result (λ both. both ≡ (one.now, other.now)) }
{
    Ok((one.copy()?, other.copy()?))
}

type Shown = (Template, Projection, SortKeys);

fn copy_shown(rule: &CursorRule) -> Result<Shown, Mem>
    ensures { IfOk result (λ shown. shown ≡ (rule.now.selector, rule.now.fields, rule.now.sort)) }
{
    let selector = rule.selector.copy()?;
    let fields = rule.fields.copy()?;
    Ok((selector, fields, rule.sort.copy()?))
}

impl CursorRule {
    /// A cursor equal to this one.
    pub fn copy(&self) -> Result<CursorRule, Mem>
        ensures { IfOk result (λ rule. rule ≡ self.now) }
    {
        let (collection, name) = copy_both(&self.collection, &self.name)?;
        let (selector, fields, sort) = copy_shown(self)?;
        Ok(CursorRule {
            collection,
            name,
            selector,
            fields,
            sort,
            limit: self.limit,
        })
    }
}

impl Copied for CursorRule {
    fn copied(&self) -> Result<CursorRule, Mem> {
        self.copy()
    }
}

impl Publication {
    /// A publication equal to this one.
    pub fn copy(&self) -> Result<Publication, Mem>
        ensures { IfOk result (λ p. p ≡ self.now) }
    {
        Ok(Publication {
            cursors: self.cursors.copy()?,
        })
    }
}

impl Copied for Publication {
    fn copied(&self) -> Result<Publication, Mem> {
        self.copy()
    }
}
