//! A source and a sink over memory that never fail.
ghost use Rattle.std.specs.Prelude.{◌≡◌, ℕ, ◌+◌, ◌-◌, ◌≤◌, min, List, [], Option, Some, Ok, length, drop, IfOk, vec_len, vec_capacity};
ghost use Rattle.std.specs.Io.{ReadsAtMost, WritesAtMost};
ghost use Rattle.std.specs.Io.KnownBytes.{ReadConsumes, WriteAppends};
ghost use Rattle.spot_terms.specs.Causes.{HasCause};
ghost use Rattle.std.proofs.Common.{arith};

use crate::{Sink, SinkFault, Source, SourceFault};
use std::alloc::{AllocError, Global};

/// A source over memory that never fails. It tells its bytes and gives as many as there is room for.
#[derive(Drop)]
pub struct NeverSource {
    /// All its bytes.
    pub bytes: Vec<u8>,
    /// How many of them were given.
    pub at: usize,
    pub ghost within: { at ≤ vec_len bytes },
}

/// A source that holds these bytes, at their beginning.
pub fn never_source(alloc: Global, bytes: &[u8]) -> Result<NeverSource, AllocError>
    ensures bytes { IfOk result (λ s. s.bytes.items ≡ bytes.now) }
    ensures fresh { IfOk result (λ s. s.at ≡ 0) }
{
    Ok(NeverSource {
        bytes: Vec::from_slice(alloc, bytes)?,
        at: 0,
    })
}

impl Source for NeverSource {
    ghost left = { λ s. Some (drop s.at s.bytes.items) };

    ghost faults = { λ _. 0 };

    fn read(&mut self, into: &mut [u8]) -> Result<usize, SourceFault>
        ensures bound { ReadsAtMost result into.new }
        ensures bytes { ReadConsumes (Some (drop self.old.at self.old.bytes.items)) (Some (drop self.new.at self.new.bytes.items)) result into.new }
        ensures cause { HasCause 0 0 result }
        ensures count { result ≡ Ok (min (length into.old) (vec_len self.old.bytes - self.old.at)) }
        ensures kept { self.new.bytes.items ≡ self.old.bytes.items }
    {
        let count = into.len().min(self.bytes.len() - self.at);
        let end = self.at + count;
        into[..count].copy_from_slice(&self.bytes[self.at..end]);
        self.at = end;
        Ok(count)
    }
}

/// A sink over memory that never fails. It tells its bytes and takes each piece whole; a piece has to fit into the room
/// that is left. It takes no memory after it is made.
#[derive(Drop)]
pub struct NeverSink {
    /// The bytes that were written.
    pub bytes: Vec<u8>,
    /// How many bytes there is room for, from the beginning.
    pub room: usize,
    pub ghost within: { vec_len bytes ≤ room },
    pub ghost reserved: { room ≤ vec_capacity bytes },
}

/// A sink with so much room and no bytes yet.
pub fn never_sink(alloc: Global, room: usize) -> Result<NeverSink, AllocError>
    ensures bytes { IfOk result (λ s. s.bytes.items ≡ []) }
    ensures room { IfOk result (λ s. s.room ≡ room) }
{
    Ok(NeverSink {
        bytes: Vec::with_capacity(alloc, room)?,
        room,
    })
}

impl Sink for NeverSink {
    ghost written = { λ s. Some s.bytes.items };

    ghost faults = { λ _. 0 };

    ghost takes = { λ s n. length s.bytes.items + n ≤ s.room };

    fn write(&mut self, piece: &[u8]) -> Result<usize, SinkFault>
        requires { length self.old.bytes.items + length piece.now ≤ self.old.room }
        ensures bound { WritesAtMost result piece.now }
        ensures some { IfOk result (λ n. n ≡ 0 → length piece.now ≡ 0) }
        ensures bytes { WriteAppends (Some self.old.bytes.items) (Some self.new.bytes.items) result piece.now }
        ensures room { IfOk result (λ n. (more : ℕ) → length self.old.bytes.items + (n + more) ≤ self.old.room → length self.new.bytes.items + more ≤ self.new.room) }
        ensures cause { HasCause 0 0 result }
        ensures whole { result ≡ Ok (length piece.now) }
        ensures kept { self.new.room ≡ self.old.room }
    {
        if self.bytes.extend_from_slice(piece).is_err() {
            unreachable!();
        }
        Ok(piece.len())
    }

    ghost fewer = { λ _ few many le can. Prim.omega arith };
}
