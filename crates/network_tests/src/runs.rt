//! Runs over networks in memory.
use crate::rows::{CUT, RUNS, TIMED_WORDS, WORDS};
use crate::running::{comes_right, is_usage, wants_clocks};
use std::test::Fail;

#[test]
fn each_status_comes_at_its_cause(rt: HostRuntime) -> Result<(), Fail> {
    for row in RUNS.lines() {
        assert!(rt; comes_right(&rt, rt.alloc(), row, 0)?, "at {row}");
    }
    Ok(())
}

#[test]
fn an_output_may_be_cut_short(rt: HostRuntime) -> Result<(), Fail> {
    for row in CUT.lines() {
        assert!(rt; comes_right(&rt, rt.alloc(), row, 1)?, "at {row}");
    }
    Ok(())
}

#[test]
fn words_that_name_no_command(rt: HostRuntime) -> Result<(), Fail> {
    for words in WORDS.lines() {
        assert!(rt; is_usage(&rt, rt.alloc(), words)?, "at {words}");
    }
    Ok(())
}

#[test]
fn hearts_want_clocks(rt: HostRuntime) -> Result<(), Fail> {
    for words in TIMED_WORDS.lines() {
        assert!(rt; wants_clocks(&rt, rt.alloc(), words)?, "at {words}");
    }
    Ok(())
}
