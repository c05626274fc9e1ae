//! A source and a sink over memory, which fail at the calls that they are told.
ghost use Rattle.std.specs.Prelude.{◌≡◌, ◌==◌, ◌&&◌, ◌||◌, ℕ, ◌+◌, ◌-◌, ◌^◌, ◌<◌, ◌≤◌, min, nat_lt, not, is_err, List, [], Option, Some, length, drop, IfOk, OnErr, vec_len, vec_capacity};
ghost use Rattle.std.specs.List.{list_any};
ghost use Rattle.std.specs.Io.{ReadsAtMost, WritesAtMost};
ghost use Rattle.std.specs.Io.KnownBytes.{ReadConsumes, WriteAppends};
ghost use Rattle.spot_terms.specs.Causes.{HasCause};

use crate::{Sink, SinkFault, Source, SourceFault};
use std::alloc::{AllocError, Global};

/// A source over memory, which tells its bytes, gives a few at a time, and fails at the calls that it is told to. A call
/// that fails moves nothing.
#[derive(Drop)]
pub struct MemSource {
    /// All its bytes.
    pub bytes: Vec<u8>,
    /// How many of them were given.
    pub at: usize,
    /// The most bytes of a call, at least 1.
    pub most: usize,
    /// How many calls there were.
    pub calls: u64,
    /// The calls that fail, counted from 1.
    pub fails: Vec<u64>,
    /// How many calls failed.
    pub count: u64,
    pub ghost within: { at ≤ vec_len bytes },
    pub ghost gives: { 0 < most },
}

/// A source that holds what it is given, at its beginning, with no calls yet. It gives `most` bytes a call, at least 1.
pub fn mem_source(
    alloc: Global,
    bytes: &[u8],
    most: usize,
    fails: &[u64],
) -> Result<MemSource, AllocError>
    requires { 0 < most }
    ensures bytes { IfOk result (λ s. s.bytes.items ≡ bytes.now) }
    ensures most { IfOk result (λ s. s.most ≡ most) }
    ensures fails { IfOk result (λ s. s.fails.items ≡ fails.now) }
    ensures fresh { IfOk result (λ s. (s.at ≡ 0) × (s.calls ≡ 0) × (s.count ≡ 0)) }
{
    Ok(MemSource {
        bytes: Vec::from_slice(alloc, bytes)?,
        at: 0,
        most,
        calls: 0,
        fails: Vec::from_slice(alloc, fails)?,
        count: 0,
    })
}

impl Source for MemSource {
    ghost left = { λ s. Some (drop s.at s.bytes.items) };

    ghost faults = { λ s. s.count };

    fn read(&mut self, into: &mut [u8]) -> Result<usize, SourceFault>
        ensures bound { ReadsAtMost result into.new }
        ensures bytes { ReadConsumes (Some (drop self.old.at self.old.bytes.items)) (Some (drop self.new.at self.new.bytes.items)) result into.new }
        ensures cause { HasCause self.old.count self.new.count result }
        ensures call { self.new.calls ≡ min (self.old.calls + 1) (2 ^ 64 - 1) }
        ensures fails { is_err result ≡ list_any (λ call. call == self.new.calls) self.old.fails.items }
        ensures count { IfOk result (λ n. n ≡ min (min (length into.old) self.old.most) (vec_len self.old.bytes - self.old.at)) }
        ensures kept { (self.new.bytes.items ≡ self.old.bytes.items) × (self.new.fails.items ≡ self.old.fails.items) × (self.new.most ≡ self.old.most) }
    {
        self.calls = self.calls.saturating_add(1);
        if self.fails.contains(&self.calls) {
            self.count = self.count.saturating_add(1);
            return Err(SourceFault);
        }
        let count = into.len().min(self.most).min(self.bytes.len() - self.at);
        let end = self.at + count;
        into[..count].copy_from_slice(&self.bytes[self.at..end]);
        self.at = end;
        Ok(count)
    }
}

/// A sink over memory, which tells its bytes, takes a few at a time, and fails at the calls that it is told to, and where
/// a piece that isn't empty finds no room. A call that fails appends nothing. It takes no memory after it is made.
#[derive(Drop)]
pub struct MemSink {
    /// The bytes that were written.
    pub bytes: Vec<u8>,
    /// How many bytes there is room for, from the beginning.
    pub room: usize,
    /// The most bytes of a call, at least 1.
    pub most: usize,
    /// How many calls there were.
    pub calls: u64,
    /// The calls that fail, counted from 1.
    pub fails: Vec<u64>,
    /// How many calls failed.
    pub count: u64,
    pub ghost within: { vec_len bytes ≤ room },
    pub ghost reserved: { room ≤ vec_capacity bytes },
    pub ghost takes_some: { 0 < most },
}

/// A sink that holds what it is given, with no bytes and no calls yet. It takes `most` bytes a call, at least 1.
pub fn mem_sink(
    alloc: Global,
    room: usize,
    most: usize,
    fails: &[u64],
) -> Result<MemSink, AllocError>
    requires { 0 < most }
    ensures bytes { IfOk result (λ s. s.bytes.items ≡ []) }
    ensures room { IfOk result (λ s. s.room ≡ room) }
    ensures most { IfOk result (λ s. s.most ≡ most) }
    ensures fails { IfOk result (λ s. s.fails.items ≡ fails.now) }
    ensures fresh { IfOk result (λ s. (s.calls ≡ 0) × (s.count ≡ 0)) }
{
    Ok(MemSink {
        bytes: Vec::with_capacity(alloc, room)?,
        room,
        most,
        calls: 0,
        fails: Vec::from_slice(alloc, fails)?,
        count: 0,
    })
}

impl Sink for MemSink {
    ghost written = { λ s. Some s.bytes.items };

    ghost faults = { λ s. s.count };

    ghost takes = { λ _ _. Unit {0} };

    fn write(&mut self, piece: &[u8]) -> Result<usize, SinkFault>
        ensures bound { WritesAtMost result piece.now }
        ensures some { IfOk result (λ n. n ≡ 0 → length piece.now ≡ 0) }
        ensures bytes { WriteAppends (Some self.old.bytes.items) (Some self.new.bytes.items) result piece.now }
        ensures room { IfOk result (λ _. Unit {0}) }
        ensures cause { HasCause self.old.count self.new.count result }
        ensures call { self.new.calls ≡ min (self.old.calls + 1) (2 ^ 64 - 1) }
        ensures fails { is_err result ≡ (list_any (λ call. call == self.new.calls) self.old.fails.items
            || (nat_lt 0 (length piece.now) && (vec_len self.old.bytes == self.old.room))) }
        ensures count { IfOk result (λ n. n ≡ min (min (length piece.now) self.old.most) (self.old.room - vec_len self.old.bytes)) }
        ensures kept { (self.new.room ≡ self.old.room) × (self.new.fails.items ≡ self.old.fails.items) × (self.new.most ≡ self.old.most) }
    {
        self.calls = self.calls.saturating_add(1);
        let room = self.room - self.bytes.len();
        if self.fails.contains(&self.calls) || (!piece.is_empty() && room == 0) {
            self.count = self.count.saturating_add(1);
            return Err(SinkFault);
        }
        let count = piece.len().min(self.most).min(room);
        if self.bytes.extend_from_slice(&piece[..count]).is_err() {
            unreachable!();
        }
        Ok(count)
    }

    ghost fewer = { λ _ _ _ _ _. tt };
}
