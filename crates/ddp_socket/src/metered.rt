ghost use Rattle.std.specs.Prelude.{◌≡◌};

use crate::answers::answer_to;
use std::alloc::Global;
use std::io;
use std::io::{ErrorKind, Read, Write};

/// How many reads of its stream a link makes one after another that give bytes. The next one comes to nothing, so that a
/// peer that sends on and on holds no call for ever.
pub const READS: u32 = 64;

/// How many writes to its stream a link makes one after another that take a part of the bytes. The next one comes to
/// nothing, so that a peer that takes few bytes at a time holds no call for ever.
pub const WRITES: u32 = 64;

// What a stream was used for.
#[derive(Drop)]
enum Course {
    // Nothing was written yet, and these bytes were read: a request, or what came in place of one.
    Heard(Vec<u8>),
    Said,
}

// A stream that would block after so many reads or writes in a row. A call that was interrupted, or that came to the limit
// of its time, would block too. A peer that is let go without a word is told why, if it asked for something.
pub struct Metered<S: Write + Drop> {
    stream: S,
    reads: u32,
    writes: u32,
    course: Course,
}

impl<S: Write + Drop> Drop for Metered<S> {
    fn drop(self) {
        let Metered {
            stream,
            reads: _,
            writes: _,
            course,
        } = self;
        let mut stream = stream;
        if let Course::Heard(head) = course {
            if !head.is_empty() {
                let _ = stream.write(answer_to(&head));
            }
        }
    }
}

impl<S: Write + Drop> Metered<S> {
    pub(crate) fn new(alloc: Global, stream: S) -> Metered<S>
        ensures { result.stream ≡ stream }
    {
        Metered {
            stream,
            reads: READS,
            writes: WRITES,
            course: Course::Heard(Vec::new(alloc)),
        }
    }

    // Keeps what was read before the first word; where memory is refused the rest of a request is unknown.
    fn hear(&mut self, bytes: &[u8])
        ensures { self.new.stream ≡ self.old.stream }
    {
        if let Course::Heard(head) = &mut self.course {
            let _ = head.extend_from_slice(bytes);
        }
    }
}

// An error of the stream, as one that would block where the call may be made again.
fn waiting(error: io::Error) -> io::Error {
    match error.kind() {
        ErrorKind::Interrupted | ErrorKind::TimedOut => io::Error::from(ErrorKind::WouldBlock),
        _ => error,
    }
}

impl<S: Read + Write + Drop> Read for Metered<S> {
    ghost remaining = { λ m. S.remaining m.stream };

    fn read(&mut self, into: &mut [u8]) -> io::Result<usize> {
        let Some(left) = self.reads.checked_sub(1) else {
            self.reads = READS;
            return Err(io::Error::from(ErrorKind::WouldBlock));
        };
        match self.stream.read(into) {
            Ok(n) => {
                self.reads = left;
                self.hear(&into[..n]);
                Ok(n)
            }
            Err(error) => {
                self.reads = READS;
                Err(waiting(error))
            }
        }
    }
}

impl<S: Write + Drop> Write for Metered<S> {
    ghost contents = { λ m. S.contents m.stream };

    fn write(&mut self, bytes: &[u8]) -> io::Result<usize> {
        let Some(left) = self.writes.checked_sub(1) else {
            self.writes = WRITES;
            return Err(io::Error::from(ErrorKind::WouldBlock));
        };
        match self.stream.write(bytes) {
            Ok(n) => {
                self.writes = if n < bytes.len() { left } else { WRITES };
                self.course = Course::Said;
                Ok(n)
            }
            Err(error) => {
                self.writes = WRITES;
                Err(waiting(error))
            }
        }
    }

    fn flush(&mut self) -> io::Result<()> {
        match self.stream.flush() {
            Ok(()) => Ok(()),
            Err(error) => Err(waiting(error)),
        }
    }
}
