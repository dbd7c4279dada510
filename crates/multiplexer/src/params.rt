//! Parameters that are the same.
ghost use Rattle.std.specs.Prelude.{◌≡◌, IsTrue};
ghost use Rattle.std.specs.Ordering.{is_eq};
ghost use Rattle.multiplexer.specs.Params.{params_cmp};

use ejson_value::{Items, compare};
use std::cmp::Ordering;

// Parameters go element by element.
fn compare_items(a: &Items, b: &Items) -> Ordering
    ensures { result ≡ params_cmp a.now b.now }
{
    let mut others = b.as_slice().iter();
    for item in a.as_slice() {
        match others.next() {
            None => return Ordering::Greater,
            Some(other) => {
                let order = compare(item, other);
                if order.is_ne() {
                    return order;
                }
            }
        }
    }
    if others.next().is_some() {
        Ordering::Less
    } else {
        Ordering::Equal
    }
}

/// Whether the parameters are the same.
pub(crate) fn same_params(a: &Items, b: &Items) -> bool
    ensures test { result ≡ is_eq (params_cmp a.now b.now) }
    ensures same { IsTrue result → a.now ≡ b.now }
{
    compare_items(a, b).is_eq()
}
