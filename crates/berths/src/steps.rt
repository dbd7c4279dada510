//! The rule of the words, and the kinds of step.
ghost use Rattle.std.specs.Prelude.{ℕ};

use atomic_table::{Play, Split, TableRule};
use std::marker::PhantomData;

/// Which values may lie in which berth.
pub trait Fits {
    ghost fits: { ℕ → Self → Type 0 };
}

// The word of a berth is 1 where the value is there, and then it fits. A seat knows nothing: its view is 0.
pub struct EachFits<T> {
    of: PhantomData<T>,
}

impl<T: Fits> TableRule<Option<T>, u8, ()> for EachFits<T> {
    ghost use Rattle.berths.specs.Kept.{Kept};

    ghost holds = { λ key state. Kept T.fits state };

    ghost first = { λ key. 0 };
}

// One who finds 1 takes the value.
pub struct Lock<T> {
    of: PhantomData<T>,
}

impl<T: Fits> Play<Option<T>, u8> for Lock<T> {
    ghost use Rattle.berths.specs.Kept.{Locks};

    ghost then = { λ step seat found after. Locks T.fits step.word seat found after };
}

// The value that was taken last is given back.
pub struct Unlock;

impl<T> Play<Option<T>, u8> for Unlock {
    ghost use Rattle.berths.specs.Kept.{Unlocks};

    ghost then = { λ step seat found after. Unlocks seat after };
}

// A hand more, which holds nothing.
pub struct Copy;

impl Split<u8> for Copy {
    ghost left = { λ view. view };

    ghost right = { λ view. 0 };
}
