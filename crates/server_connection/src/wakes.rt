//! Telling the others that the store has new entries.
use program_steps::Status;

/// Who is told, outside every lock, that a run has made its entries. Nothing is promised of it.
pub trait Wakes {
    fn wake(&self);
}

/// The others are told of a run once, when it has ended: its steps follow each other without a wait.
pub(crate) fn tell_end<W: Wakes>(wake: &W, status: &Status) {
    if status.ended.is_some() {
        wake.wake();
    }
}
