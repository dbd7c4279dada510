//! A server with more clients than it has places.
use crate::apps::{NAMED, app};
use crate::calling::serve_all;
use crate::visitors::{Board, LINKS, Visitors};
use ejson_value::Mem;
use std::alloc::Global;
use std::sync::{Arc, Wait};
use std::test::Fail;
use std::thread::Threads;

// Whether the server answers that it served all.
fn serves<R: Threads + Wait + Copy + Send + Sync + 'static>(
    rt: &R,
    alloc: Global,
    board: &Arc<Board, Global>,
) -> Result<bool, Mem> {
    let app = app(alloc, NAMED)?;
    let mut visitors = Visitors::new(alloc, Arc::try_clone(board)?);
    Ok(serve_all(rt, alloc, &app, &mut visitors, LINKS).is_ok())
}

// Whether it does, and each client met what it should.
fn serves_right<R: Threads + Wait + Copy + Send + Sync + 'static>(
    rt: &R,
    alloc: Global,
) -> Result<bool, Mem> {
    let board = Arc::new(alloc, Board::new())?;
    Ok(serves(rt, alloc, &board)? && board.is_right())
}

#[test]
fn as_many_are_served_at_once_as_there_are_places(rt: HostRuntime) -> Result<(), Fail> {
    assert!(rt; serves_right(&rt, rt.alloc())?);
    Ok(())
}
