//! The fields that are kept of a document beside those of a new one.
ghost use Rattle.std.specs.Prelude.{◌≡◌, ◌++◌, option_map, option_copied};
ghost use Rattle.map_model.specs.Maps.{IsSorted};
ghost use Rattle.value_model.specs.Order.{text_cmp};
ghost use Rattle.ejson_value.specs.View.{view};
ghost use Rattle.kept_document.specs.Sides.{side_by_side, fields_left, begun};

use ejson_value::{Doc, Fields, Text, Value};
use std::cmp::Ordering;
use std::collections::{BTreeMap, btree_map};

/// What stands at a name in either.
#[derive(Drop)]
pub(crate) struct Side<'a, X> {
    pub(crate) name: &'a Text,
    pub(crate) kept: Option<&'a X>,
    pub(crate) given: Option<&'a Value>,
}

/// A walk by rising name over the fields that are kept and those of a document. It looks at each
/// once.
#[derive(Drop)]
pub(crate) struct Sides<'a, X> {
    // The next one of each, and those behind it.
    kept: Option<(&'a Text, &'a X)>,
    kept_rest: btree_map::Iter<'a, Text, X>,
    given: Option<(&'a Text, &'a Value)>,
    given_rest: Fields<'a>,
}

impl<'a, X> Sides<'a, X> {
    pub(crate) fn of(kept: &'a BTreeMap<Text, X>, doc: &'a Doc) -> Sides<'a, X>
        ensures all { fields_left result.kept result.kept_rest result.given result.given_rest ≡
            side_by_side text_cmp kept.now.entries doc.now }
        ensures kept_by_name { IsSorted text_cmp kept.now.entries }
        ensures doc_by_name { IsSorted text_cmp doc.now }
    {
        let mut kept_rest = kept.iter();
        let kept = kept_rest.next();
        let mut given_rest = doc.iter();
        let given = given_rest.next();
        Sides {
            kept,
            kept_rest,
            given,
            given_rest,
        }
    }

    /// The next name, with what stands there.
    pub(crate) fn next(&mut self) -> Option<Side<'a, X>>
        ensures { fields_left self.old.kept self.old.kept_rest self.old.given self.old.given_rest ≡
            begun (option_map (λ s. (s.name.now, (option_copied s.kept, option_map (λ v. view v.now) s.given))) result)
            (fields_left self.new.kept self.new.kept_rest self.new.given self.new.given_rest) }
    {
        match (self.kept, self.given) {
            (None, None) => None,
            (Some((name, kept)), None) => {
                self.kept = self.kept_rest.next();
                Some(Side {
                    name,
                    kept: Some(kept),
                    given: None,
                })
            }
            (None, Some((name, given))) => {
                self.given = self.given_rest.next();
                Some(Side {
                    name,
                    kept: None,
                    given: Some(given),
                })
            }
            (Some((name, kept)), Some((given_name, given))) => match name.cmp(given_name) {
                Ordering::Less => {
                    self.kept = self.kept_rest.next();
                    Some(Side {
                        name,
                        kept: Some(kept),
                        given: None,
                    })
                }
                Ordering::Equal => {
                    self.kept = self.kept_rest.next();
                    self.given = self.given_rest.next();
                    Some(Side {
                        name,
                        kept: Some(kept),
                        given: Some(given),
                    })
                }
                Ordering::Greater => {
                    self.given = self.given_rest.next();
                    Some(Side {
                        name: given_name,
                        kept: None,
                        given: Some(given),
                    })
                }
            },
        }
    }
}
