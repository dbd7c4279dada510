//! The fields of two documents side by side.
ghost use Rattle.std.specs.Prelude.{◌≡◌, option_map};
ghost use Rattle.map_model.specs.Maps.{IsSorted};
ghost use Rattle.value_model.specs.Order.{text_cmp};
ghost use Rattle.ejson_value.specs.View.{view};
ghost use Rattle.kept_document.specs.Sides.{side_by_side, pairs_left, begun};

use ejson_value::{Doc, Fields, Text, Value};
use std::cmp::Ordering;

/// What two documents have as a field.
#[derive(Drop)]
pub(crate) struct Pair<'a> {
    pub(crate) name: &'a Text,
    pub(crate) before: Option<&'a Value>,
    pub(crate) after: Option<&'a Value>,
}

/// A walk by rising name over the fields of two documents. It looks at each once.
#[derive(Drop)]
pub(crate) struct Pairs<'a> {
    // The next one of each, and those behind it.
    before: Option<(&'a Text, &'a Value)>,
    before_rest: Fields<'a>,
    after: Option<(&'a Text, &'a Value)>,
    after_rest: Fields<'a>,
}

impl<'a> Pairs<'a> {
    pub(crate) fn of(before: &'a Doc, after: &'a Doc) -> Pairs<'a>
        ensures all { pairs_left result.before result.before_rest result.after result.after_rest ≡
            side_by_side text_cmp before.now after.now }
        ensures before_by_name { IsSorted text_cmp before.now }
        ensures after_by_name { IsSorted text_cmp after.now }
    {
        let mut before_rest = before.iter();
        let before = before_rest.next();
        let mut after_rest = after.iter();
        let after = after_rest.next();
        Pairs {
            before,
            before_rest,
            after,
            after_rest,
        }
    }

    /// The next name, with what stands there.
    pub(crate) fn next(&mut self) -> Option<Pair<'a>>
        ensures { pairs_left self.old.before self.old.before_rest self.old.after self.old.after_rest ≡
            begun (option_map (λ p. (p.name.now, (option_map (λ v. view v.now) p.before, option_map (λ v. view v.now) p.after))) result)
            (pairs_left self.new.before self.new.before_rest self.new.after self.new.after_rest) }
    {
        match (self.before, self.after) {
            (None, None) => None,
            (Some((name, before)), None) => {
                self.before = self.before_rest.next();
                Some(Pair {
                    name,
                    before: Some(before),
                    after: None,
                })
            }
            (None, Some((name, after))) => {
                self.after = self.after_rest.next();
                Some(Pair {
                    name,
                    before: None,
                    after: Some(after),
                })
            }
            (Some((name, before)), Some((after_name, after))) => match name.cmp(after_name) {
                Ordering::Less => {
                    self.before = self.before_rest.next();
                    Some(Pair {
                        name,
                        before: Some(before),
                        after: None,
                    })
                }
                Ordering::Equal => {
                    self.before = self.before_rest.next();
                    self.after = self.after_rest.next();
                    Some(Pair {
                        name,
                        before: Some(before),
                        after: Some(after),
                    })
                }
                Ordering::Greater => {
                    self.after = self.after_rest.next();
                    Some(Pair {
                        name: after_name,
                        before: None,
                        after: Some(after),
                    })
                }
            },
        }
    }
}
