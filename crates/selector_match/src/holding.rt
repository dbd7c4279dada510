//! Whether a selector holds, where nobody counts steps.
ghost use Rattle.std.specs.Prelude.{◌≡◌};
ghost use Rattle.selector_match.specs.Holds.{holds};

use crate::matching::matches;
use crate::selector::Selector;
use crate::steps::Steps;
use ejson_value::{Doc, Text};
use std::marker::Brand;
use std::sync::ledger::{Blank, Ledger};

fn counted<L: Ledger>(selector: &Selector, id: &Text, doc: &Doc, blank: Blank) -> bool
    requires name { blank.name ≡ L.name }
    requires parts { blank.parts ≡ L.parts }
    requires whole { blank.parts ≡ 1 }
    ensures { result ≡ holds selector.now id.now doc.now }
{
    let mut steps = Steps::<L>::new(blank);
    matches(selector, id, doc, &mut steps)
}

/// Whether the selector holds of the document with this id, as `matches` says, with no count of steps.
pub fn holds(selector: &Selector, id: &Text, doc: &Doc) -> bool
    ensures { result ≡ holds selector.now id.now doc.now }
{
    counted::<Brand>(selector, id, doc, Blank::new(1))
}
