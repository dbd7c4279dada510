//! Publications in memory.
ghost use Rattle.app_model.specs.Rules.{HaveDistinctNames};

use ejson_value::{ListOf, Path, SortKeys, Text};
use program_steps::Template;
use std::marker::Model;

/// Paths into documents.
pub type Paths = ListOf<Path>;

/// Which fields of a document are published: all, those at the paths, or all but these (projection,
/// in MongoDB's documentation; field specifiers, in Meteor's).
#[derive(Drop)]
pub enum Projection {
    All,
    Only(Paths),
    Without(Paths),
}

/// One cursor of a publication: the documents of a collection that a selector, once its template is
/// filled, holds of.
#[derive(Drop)]
pub struct CursorRule {
    pub collection: Text,
    /// The name under which a client gets the documents.
    pub name: Text,
    pub selector: Template,
    pub fields: Projection,
    /// The keys by which the documents are sorted for the limit; none where there is no `sort`.
    pub sort: SortKeys,
    /// At most so many of them are published, 1 to 10,000: the first ones by the keys and then by id.
    pub limit: Option<u32>,
}

/// The cursors of a publication, in order.
pub type CursorRules = ListOf<CursorRule>;

/// What one call of Meteor's `publish` names: no cursor or several, with distinct published names.
#[derive(Drop)]
pub struct Publication {
    pub cursors: CursorRules,
}

impl Model for Publication {
    ghost use Rattle.std.specs.Coded.{codes};
    ghost use Rattle.value_model.specs.Coding.{val_code};
    ghost use Rattle.app_model.specs.Rules.{Rules, HaveDistinctNames};

    ghost Value = { Rules };

    ghost coded = { Prim.hlevel (codes, val_code) };

    ghost view = { λ a. a.cursors };

    ghost invariant = { λ a. HaveDistinctNames a.cursors };
}

impl Publication {
    /// Tells a proof what the publication keeps; it does nothing.
    pub fn known(&self)
        ensures { HaveDistinctNames self.now }
    {
        let _ = &self.cursors;
    }
}
