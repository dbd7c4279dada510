ghost use Rattle.std.specs.Prelude.{◌≡◌, []};

use pass_log::{Log, LogName, Opened, Pass, Writer};
use std::alloc::{AllocError, Global};
use std::marker::Brand;
use std::test::Fail;
use std::thread;
use std::thread::Threads;

// The places of two appends, what a pass then confirms, its length, and its length once it met the writer's note.
fn first_lengths<N: LogName>(opened: Opened<u64>) -> [u64; 5]
    requires { opened ≡ N.log }
{
    let (log, mut writer, mut pass) = opened.named::<N>();
    let first = writer.append(&log, &7);
    let second = writer.append(&log, &8);
    let confirmed = pass.confirm(&log);
    let before = pass.len();
    let note = writer.note(&log);
    pass.meet(&log, note);
    [first, second, confirmed, before, pass.len()]
}

// Notes from pass to pass and to the writer: the length of a pass that met a shorter note, the place of the writer's
// next entry after it met a note, and the length and what it confirms of a pass that met a longer note.
fn later_lengths<N: LogName>(opened: Opened<u64>) -> [u64; 4]
    requires { opened ≡ N.log }
{
    let (log, mut writer, mut early) = opened.named::<N>();
    writer.append(&log, &7);
    let mut late = writer.note(&log).pass();
    let short = early.note(&log);
    late.meet(&log, short);
    let kept = late.len();
    let back = late.note(&log);
    writer.meet(&log, back);
    let next = writer.append(&log, &8);
    let long = late.note(&log);
    early.meet(&log, long);
    [kept, next, early.len(), early.confirm(&log)]
}

const APPENDED: u64 = 1000;

fn append_all<N: LogName>(log: &Log<u64, N>, mut writer: Writer<u64, N>) -> Writer<u64, N>
    requires { writer ≡ [] }
{
    for entry in 0..APPENDED {
        writer.append(log, &entry);
    }
    writer
}

// Whether no length that the pass confirms is below one before it.
fn never_falls<N: LogName>(log: &Log<u64, N>, pass: &mut Pass<u64, N>) -> bool {
    let mut last = 0;
    for _ in 0..APPENDED {
        let length = pass.confirm(log);
        if length < last {
            return false;
        }
        last = length;
    }
    true
}

// A thread appends beside one that confirms: whether the confirmed lengths never fell, and the length of the pass
// once it met the writer's note.
fn side_by_side<N: LogName + Send + Sync, R: Threads + Sync>(
    rt: &R,
    opened: Opened<u64>,
) -> (bool, u64)
    requires { opened ≡ N.log }
{
    let (log, writer, mut pass) = opened.named::<N>();
    let shared = &log;
    let watched = &mut pass;
    let (writer, rises) = thread::join(
        rt,
        move ||
            requires { writer ≡ [] }
        { append_all(shared, writer) },
        move || never_falls(shared, watched),
    );
    let mut writer = writer;
    let note = writer.note(shared);
    pass.meet(shared, note);
    (rises, pass.len())
}

fn first_lengths_of_new(alloc: Global) -> Result<[u64; 5], AllocError> {
    Ok(first_lengths::<Brand>(Opened::make(alloc)?))
}

fn later_lengths_of_new(alloc: Global) -> Result<[u64; 4], AllocError> {
    Ok(later_lengths::<Brand>(Opened::make(alloc)?))
}

fn side_by_side_of_new<R: Threads + Sync>(
    rt: &R,
    alloc: Global,
) -> Result<(bool, u64), AllocError> {
    Ok(side_by_side::<Brand, R>(rt, Opened::make(alloc)?))
}

#[test]
fn a_pass_learns_of_entries_by_notes(rt: HostRuntime) -> Result<(), Fail> {
    let lengths = first_lengths_of_new(rt.alloc())?;
    assert_eq!(rt; lengths.as_slice(), [0, 1, 2, 0, 2].as_slice());
    let lengths = later_lengths_of_new(rt.alloc())?;
    assert_eq!(rt; lengths.as_slice(), [1, 1, 1, 2].as_slice());
    Ok(())
}

#[test]
fn a_pass_confirms_beside_a_thread_that_appends(rt: HostRuntime) -> Result<(), Fail> {
    let (rises, length) = side_by_side_of_new(&rt, rt.alloc())?;
    assert!(rt; rises);
    assert_eq!(rt; length, APPENDED);
    Ok(())
}
