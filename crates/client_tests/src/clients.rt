//! Scripts of a client and its server's texts, with what the client answers.
use crate::running::wrong_in;
use crate::scripts::{
    ABSENT, CALLS, FULL, GUARDED, HIDDEN, LONG, OWN_WRITES, STUBS, TASKS, TOO_LARGE, VERSION,
};
use std::test::Fail;

#[test]
fn clients(rt: HostRuntime) -> Result<(), Fail> {
    for script in [CALLS, HIDDEN, STUBS, ABSENT, VERSION, LONG, TOO_LARGE, FULL] {
        let wrong = wrong_in(rt.alloc(), TASKS, script)?;
        assert!(rt; wrong.is_empty(), "{}", wrong.as_str());
    }
    Ok(())
}

#[test]
fn own_writes(rt: HostRuntime) -> Result<(), Fail> {
    let wrong = wrong_in(rt.alloc(), GUARDED, OWN_WRITES)?;
    assert!(rt; wrong.is_empty(), "{}", wrong.as_str());
    Ok(())
}
