//! Sources and sinks over the standard library, whose calls fail or are interrupted.
use io_edge::{ReadAll, StdSink, StdSource, WriteAll, read_all, write_all};
use std::alloc::Global;
use std::io;
use std::io::{Read, Write};

// A reader and a writer that give and take a byte at a call, and fail at the third.
#[derive(Drop)]
struct Slow {
    calls: u8,
}

impl Read for Slow {
    fn read(&mut self, into: &mut [u8]) -> io::Result<usize> {
        self.calls = self.calls.saturating_add(1);
        if self.calls == 3 {
            return Err(io::Error::from(io::ErrorKind::Other));
        }
        if into.is_empty() {
            return Ok(0);
        }
        into[0] = b'x';
        Ok(1)
    }
}

impl Write for Slow {
    fn write(&mut self, bytes: &[u8]) -> io::Result<usize> {
        self.calls = self.calls.saturating_add(1);
        if self.calls == 3 {
            return Err(io::Error::from(io::ErrorKind::Other));
        }
        Ok(bytes.len().min(1))
    }

    fn flush(&mut self) -> io::Result<()> {
        Ok(())
    }
}

// A reader and a writer whose every other call is interrupted, from the first on.
#[derive(Drop)]
struct Interrupted {
    calls: u8,
}

impl Interrupted {
    fn is_cut_off(&mut self) -> bool {
        self.calls = self.calls.wrapping_add(1);
        self.calls % 2 == 1
    }
}

impl Read for Interrupted {
    fn read(&mut self, into: &mut [u8]) -> io::Result<usize> {
        if self.is_cut_off() {
            return Err(io::Error::from(io::ErrorKind::Interrupted));
        }
        if into.is_empty() || self.calls > 4 {
            return Ok(0);
        }
        into[0] = b'x';
        Ok(1)
    }
}

impl Write for Interrupted {
    fn write(&mut self, bytes: &[u8]) -> io::Result<usize> {
        if self.is_cut_off() {
            return Err(io::Error::from(io::ErrorKind::Interrupted));
        }
        Ok(bytes.len().min(1))
    }

    fn flush(&mut self) -> io::Result<()> {
        Ok(())
    }
}

fn reads_slowly(alloc: Global) -> bool {
    let mut source = StdSource::new(Slow { calls: 0 });
    let first = read_all(alloc, &mut source, 9);
    let second = read_all(alloc, &mut source, 9);
    matches!(first, Err(ReadAll::Failed)) && matches!(second, Err(ReadAll::TooLong))
}

fn writes_slowly() -> bool {
    let mut sink = StdSink::new(Slow { calls: 0 });
    let first = write_all(&mut sink, b"abcd") == Err(WriteAll::Failed { written: 2 });
    first && write_all(&mut sink, b"cd") == Ok(2)
}

// Two bytes come in spite of three interruptions.
fn reads_on(alloc: Global) -> bool {
    let mut source = StdSource::new(Interrupted { calls: 0 });
    match read_all(alloc, &mut source, 9) {
        Ok(bytes) => bytes.as_slice() == b"xx".as_slice(),
        Err(_) => false,
    }
}

fn writes_on() -> bool {
    let mut sink = StdSink::new(Interrupted { calls: 0 });
    write_all(&mut sink, b"abcd") == Ok(4)
}

#[test]
fn sources_and_sinks(rt: HostRuntime) {
    let alloc = rt.alloc();
    assert!(rt; reads_slowly(alloc) && writes_slowly());
    assert!(rt; reads_on(alloc) && writes_on());
}
