//! Reading to the end, and writing all of a piece.
ghost use Rattle.std.specs.Prelude.{◌≡◌, ℕ, ◌+◌, ◌≤◌, length, IfOk, OnOk, IsErrOf};
ghost use Rattle.std.specs.Io.KnownBytes.{IsAtEnd};
ghost use Rattle.spot_terms.specs.Causes.{Rose};
ghost use Rattle.spot_io.specs.Reads.{ReadsAll};
ghost use Rattle.spot_io.specs.Writes.{WritesText};

use crate::{Sink, SinkFault, Source};
use spot_terms::MOST_BYTES;
use std::alloc::Global;

/// Why reading stopped before the end.
#[derive(Clone, Copy, Debug, PartialEq, Eq)]
pub enum ReadEnd {
    /// A call of the source failed.
    Fault,
    /// More than 67,108,864 bytes came.
    TooLong,
    /// There was no memory for the bytes.
    Memory,
}

// The most bytes that one call is asked for.
const PIECE_BYTES: usize = 16_384;

/// Reads all bytes up to the end of the source, 67,108,864 at most. Answers `Fault` only where the source's count of
/// faults rose in this call, which it does at no other answer, and `TooLong` exactly where 67,108,865 bytes were taken; no more are ever taken.
pub fn read_all<S: Source>(alloc: Global, source: &mut S) -> Result<Vec<u8>, ReadEnd>
    ensures short { IfOk result (λ bytes. length bytes.items ≤ MOST_BYTES) }
    ensures told { ReadsAll (S.left source.old) (S.left source.new) result }
    ensures end { OnOk result (IsAtEnd (S.left source.new)) }
    ensures later { S.faults source.old ≤ S.faults source.new }
    ensures same { (IsErrOf result ReadEnd.Fault → ⊥) → S.faults source.new ≡ S.faults source.old }
    ensures fault { IsErrOf result ReadEnd.Fault → Rose (S.faults source.old) (S.faults source.new) }
{
    let mut bytes = Vec::new(alloc);
    let mut piece = [0u8; PIECE_BYTES];
    while bytes.len() <= MOST_BYTES {
        let room = PIECE_BYTES.min(MOST_BYTES + 1 - bytes.len());
        let Ok(count) = source.read(&mut piece[..room]) else {
            return Err(ReadEnd::Fault);
        };
        if count == 0 {
            return Ok(bytes);
        }
        if bytes.extend_from_slice(&piece[..count]).is_err() {
            return Err(ReadEnd::Memory);
        }
    }
    Err(ReadEnd::TooLong)
}

/// Appends all the bytes, which the sink has to be able to take. At a fault a front of them was appended, and the sink's
/// count of faults has risen in this call; else the count is as before. What the sink could take beside the bytes it still
/// can.
pub fn write_all<K: Sink>(sink: &mut K, bytes: &[u8]) -> Result<(), SinkFault>
    requires { K.takes sink.old (length bytes.now) }
    ensures { WritesText K.Sink sink.old sink.new bytes.now result }
{
    let mut rest = bytes;
    while !rest.is_empty() {
        let count = sink.write(rest)?;
        rest = &rest[count..];
    }
    Ok(())
}
