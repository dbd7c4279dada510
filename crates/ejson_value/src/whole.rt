//! Whole numbers of 53 bits and a sign.
ghost use Rattle.std.specs.Prelude.{◌≡◌, ◌↔◌, IsSome, IfSome};
ghost use Rattle.value_model.specs.Valid.{IsWhole};

use std::marker::Model;

/// The greatest whole number that a double tells from its neighbours: 2^53 - 1.
pub const MAX_WHOLE: i64 = 9007199254740991;

/// A whole number from -(2^53 - 1) to 2^53 - 1, the numbers that JSON carries without loss.
#[derive(Clone, Copy)]
pub struct Whole {
    number: i64,
}

impl Model for Whole {
    ghost use Rattle.std.specs.Prelude.{ℤ};
    ghost use Rattle.value_model.specs.Valid.{IsWhole};

    ghost Value = { ℤ };

    ghost view = { λ a. a.number };

    ghost invariant = { λ a. IsWhole a.number };

    ghost inverse = { λ z. record { number = z } };
}

impl Whole {
    /// The number, if it is in range.
    pub fn of(number: i64) -> Option<Whole>
        ensures in_range { IsSome result ↔ IsWhole number }
        ensures value { IfSome result (λ w. w ≡ number) }
    {
        if -MAX_WHOLE <= number && number <= MAX_WHOLE {
            Some(Whole { number })
        } else {
            None
        }
    }

    /// The number.
    pub fn get(&self) -> i64
        ensures value { result ≡ self.now }
        ensures in_range { IsWhole result }
    {
        self.number
    }
}
