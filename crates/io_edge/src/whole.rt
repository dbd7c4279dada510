ghost use Rattle.std.specs.Prelude.{◌≡◌, ◌≤◌, ◌<◌, ◌↔◌, ◌++◌, ◌+◌, ℕ, List, [], Some, length, take, drop, IfOk, IfErr, IfSome, OnOk, OnErr, IsErr};
ghost use Rattle.io_edge.specs.Outside.{Grows, ReadsAtMost};
ghost use Rattle.io_edge.specs.Whole.{written_before};

use crate::sink::Sink;
use crate::source::Source;
use ejson_value::Bytes;
use std::alloc::Global;
use thiserror::Error;

/// Why a source wasn't read whole.
#[derive(Clone, Copy, Debug, PartialEq, Eq, Error)]
pub enum ReadAll {
    #[error("the input could not be read")]
    Failed,
    #[error("the input is too long")]
    TooLong,
    #[error("out of memory")]
    Memory,
}

/// Why not all bytes were written.
#[derive(Clone, Copy, Debug, PartialEq, Eq, Error)]
pub enum WriteAll {
    #[error("the output could not be written after {written} bytes")]
    Failed { written: u64 },
}

// How many bytes are asked for at a time.
const PIECE: usize = 16384;

/// Reads a source to its end, if it has at most `limit` bytes. Each turn is one read, and each but the last gives a
/// byte at least.
pub fn read_all<I: Source>(alloc: Global, input: &mut I, limit: u64) -> Result<Bytes, ReadAll>
    ensures all { IfOk result (λ bytes. IfSome (I.left input.old) (λ old. bytes ≡ old)) }
    ensures end { OnOk result (IfSome (I.left input.old) (λ _. I.left input.new ≡ Some [])) }
    ensures within { IfOk result (λ bytes. length bytes ≤ limit) }
    ensures too_long { result ≡ Err ReadAll.TooLong → IfSome (I.left input.old) (λ old. limit < length old) }
    ensures taken { IfSome (I.left input.old) (λ old. (n : ℕ) × (I.left input.new ≡ Some (drop n old))) }
    ensures failed { result ≡ Err ReadAll.Failed → I.faults input.old < I.faults input.new }
    ensures sound { I.faults input.old < I.faults input.new → result ≡ Err ReadAll.Failed }
    ensures later { I.faults input.old ≤ I.faults input.new }
    ensures turns { ReadsAtMost (limit + 1) (I.reads input.old) (I.reads input.new) }
    ensures ok_turns { IfOk result (λ bytes. ReadsAtMost (length bytes + 1) (I.reads input.old) (I.reads input.new)) }
{
    let mut bytes = Vec::new(alloc);
    let mut piece = [0u8; PIECE];
    while bytes.len() as u64 <= limit {
        let n = match input.read(&mut piece) {
            Ok(n) => n,
            Err(_) => return Err(ReadAll::Failed),
        };
        if n == 0 {
            return Ok(Bytes::from_vec(bytes));
        }
        match bytes.extend_from_slice(&piece[..n]) {
            Ok(()) => {}
            Err(_) => return Err(ReadAll::Memory),
        }
    }
    Err(ReadAll::TooLong)
}

/// Writes all bytes to a sink, and answers how many they are.
pub fn write_all<O: Sink>(output: &mut O, bytes: &[u8]) -> Result<u64, WriteAll>
    ensures ok { IfOk result (λ n. n ≡ length bytes.now) }
    ensures all { OnOk result (Grows (O.written output.old) (O.written output.new) bytes.now) }
    ensures within { IfErr result (λ e. written_before e ≤ length bytes.now) }
    ensures part { IfErr result (λ e. Grows (O.written output.old) (O.written output.new) (take (written_before e) bytes.now)) }
    ensures sound { OnOk result (O.faults output.new ≡ O.faults output.old) }
    ensures failed { OnErr result (O.faults output.old < O.faults output.new) }
{
    let mut done = 0;
    while done < bytes.len() {
        match output.write(&bytes[done..]) {
            Ok(n) => done += n,
            Err(_) => {
                return Err(WriteAll::Failed {
                    written: done as u64,
                });
            }
        }
    }
    Ok(bytes.len() as u64)
}
