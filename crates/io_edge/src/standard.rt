ghost use Rattle.std.specs.Prelude.{◌≡◌, ℕ, None, ◌≤◌, ◌<◌, length, IfOk};

use crate::sink::Sink;
use crate::source::{Failed, Source};
use std::io::{ErrorKind, Read, Write};
use std::marker::Model;

// A call that is interrupted so many times in a row has failed.
const TRIES: u32 = 65_536;

// Reads once, and again where the read is interrupted.
fn read_through<R: Read>(reader: &mut R, into: &mut [u8]) -> Result<usize, Failed>
    ensures { IfOk result (λ n. n ≤ length into.old) }
{
    for _ in 0..TRIES {
        match reader.read(into) {
            Ok(n) => return Ok(n),
            Err(error) if error.kind() == ErrorKind::Interrupted => {}
            Err(_) => return Err(Failed),
        }
    }
    Err(Failed)
}

// Writes once, and again where the write is interrupted. A write of nothing has failed, where there is something.
fn write_through<W: Write>(writer: &mut W, bytes: &[u8]) -> Result<usize, Failed>
    ensures within { IfOk result (λ n. n ≤ length bytes.now) }
    ensures progress { IfOk result (λ n. 0 < length bytes.now → 0 < n) }
{
    for _ in 0..TRIES {
        match writer.write(bytes) {
            Ok(n) if n > 0 || bytes.is_empty() => return Ok(n),
            Ok(_) => return Err(Failed),
            Err(error) if error.kind() == ErrorKind::Interrupted => {}
            Err(_) => return Err(Failed),
        }
    }
    Err(Failed)
}

/// A source over a reader of the standard library. It tells nothing of the bytes. An interrupted read is made again.
#[derive(Drop)]
pub struct StdSource<R> {
    reader: R,
    faults: u64,
}

impl<R> Model for StdSource<R> {
    ghost use Rattle.std.specs.Prelude.{ℕ};

    ghost Value = { ℕ };

    ghost view = { λ a. a.faults };
}

impl<R: Read> StdSource<R> {
    /// A source of what the reader gives.
    pub fn new(reader: R) -> StdSource<R>
        ensures { result ≡ 0 }
    {
        StdSource { reader, faults: 0 }
    }
}

impl<R: Read> Source for StdSource<R> {
    ghost left = { λ _. None };

    ghost faults = { λ s. s };

    ghost reads = { λ _. None };

    fn read(&mut self, into: &mut [u8]) -> Result<usize, Failed> {
        // The count can't rise any more, so no failure can be told.
        if self.faults == u64::MAX {
            return Ok(0);
        }
        match read_through(&mut self.reader, into) {
            Ok(n) => Ok(n),
            Err(failed) => {
                self.faults += 1;
                Err(failed)
            }
        }
    }
}

/// A sink over a writer of the standard library. It tells nothing of the bytes. An interrupted write is made again.
#[derive(Drop)]
pub struct StdSink<W> {
    writer: W,
    faults: u64,
}

impl<W> Model for StdSink<W> {
    ghost use Rattle.std.specs.Prelude.{ℕ};

    ghost Value = { ℕ };

    ghost view = { λ a. a.faults };
}

impl<W: Write> StdSink<W> {
    /// A sink into the writer.
    pub fn new(writer: W) -> StdSink<W>
        ensures { result ≡ 0 }
    {
        StdSink { writer, faults: 0 }
    }
}

impl<W: Write> Sink for StdSink<W> {
    ghost written = { λ _. None };

    ghost faults = { λ s. s };

    fn write(&mut self, bytes: &[u8]) -> Result<usize, Failed> {
        // The count can't rise any more, so no failure can be told.
        if self.faults == u64::MAX {
            return Ok(bytes.len());
        }
        match write_through(&mut self.writer, bytes) {
            Ok(n) => Ok(n),
            Err(failed) => {
                self.faults += 1;
                Err(failed)
            }
        }
    }
}
