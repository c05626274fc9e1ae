//! What a source and a sink mean.
ghost use Rattle.std.specs.Prelude.{◌≡◌, ℕ, ◌+◌, ◌≤◌, List, [], Option, length, IfOk, OnOk, OnErr};
ghost use Rattle.std.specs.Io.{ReadsAtMost, WritesAtMost};
ghost use Rattle.std.specs.Io.KnownBytes.{Keeps, ReadConsumes, WriteAppends};
ghost use Rattle.spot_terms.specs.Causes.{HasCause};

/// A source couldn't read. It moved nothing, and its count of faults has risen.
#[derive(Clone, Copy, Debug, PartialEq, Eq)]
pub struct SourceFault;

/// A sink couldn't write. It appended nothing, and its count of faults has risen.
#[derive(Clone, Copy, Debug, PartialEq, Eq)]
pub struct SinkFault;

/// Where bytes come from.
pub trait Source {
    /// The bytes still to come, where the source tells them.
    ghost left: { Self → Option (List ℕ) };

    /// How many calls have failed. A call that succeeds leaves the count as it is; at its last value it stands for more.
    ghost faults: { Self → ℕ };

    /// Moves some of the bytes that are left to the front of the slice, and says how many, at most the length of the
    /// slice. None come exactly at the end, or with no room. Answers `SourceFault` only where the count rose in this
    /// call; then nothing has moved. Else the count is as before.
    fn read(&mut self, into: &mut [u8]) -> Result<usize, SourceFault>
        ensures bound { ReadsAtMost result into.new }
        ensures bytes { ReadConsumes (left self.old) (left self.new) result into.new }
        ensures cause { HasCause (faults self.old) (faults self.new) result };
}

/// Where bytes go.
pub trait Sink {
    /// The bytes so far, where the sink tells them.
    ghost written: { Self → Option (List ℕ) };

    /// How many calls have failed. A call that succeeds leaves the count as it is; at its last value it stands for more.
    ghost faults: { Self → ℕ };

    /// The sink can take so many bytes more.
    ghost takes: { Self → ℕ → Type 0 };

    /// Appends a front of the piece, and says how many bytes, at least one of a piece that isn't empty. The sink has to
    /// be able to take the whole piece. Answers `SinkFault` only where the count rose in this call; then nothing was
    /// appended. Else the count is as before. What a sink can take falls by no more than what it took.
    fn write(&mut self, piece: &[u8]) -> Result<usize, SinkFault>
        requires { takes self.old (length piece.now) }
        ensures bound { WritesAtMost result piece.now }
        ensures some { IfOk result (λ n. n ≡ 0 → length piece.now ≡ 0) }
        ensures bytes { WriteAppends (written self.old) (written self.new) result piece.now }
        ensures room { IfOk result (λ n. (more : ℕ) → takes self.old (n + more) → takes self.new more) }
        ensures cause { HasCause (faults self.old) (faults self.new) result };

    /// A sink that can take some bytes can take fewer.
    ghost fewer: { (sink : Self) (few many : ℕ) → few ≤ many → takes sink many → takes sink few };
}

/// A sink that may keep back what it took.
pub trait Buffered: Sink {
    /// The bytes that were taken and not sent on.
    ghost kept_back: { Self → List ℕ };

    /// Sends on what was kept back; what the sink tells stays. Answers `SinkFault` only where the count rose in this call;
    /// else the count is as before.
    fn flush(&mut self) -> Result<(), SinkFault>
        ensures sent { OnOk result (kept_back self.new ≡ []) }
        ensures told { Keeps (Self.written self.old) (Self.written self.new) }
        ensures cause { HasCause (Self.faults self.old) (Self.faults self.new) result };
}
