//! Tests of what is written of a run, and when.
ghost use Rattle.std.specs.Prelude.{pos, Some};
ghost use Rattle.std.proofs.Common.{arith};
ghost use Rattle.std.proofs.lemmas.Int.{ints};
ghost use Rattle.spot_terms.specs.Whole.{Within};

use super::*;
use area_run::AreaRun;
use base_sets::{EgoBounds, EgoStart, Grid};
use carve::Occupied;
use spot_io::{MemSink, Sink, SinkFault, mem_sink};
use spot_terms::{Pt, VBox};
use std::cell::Cell;
use std::test::Fail;

/// A piece at each step, a rectangle beside the start. It notes the greatest step at which it was asked for its run.
#[derive(Drop)]
struct Noted<'c> {
    greatest: &'c Cell<u32>,
}

impl<'c> Occupied for Noted<'c> {
    ghost count = { λ _ _. 1 };

    ghost hits = { λ _ _ _ p. Within (pos 30_000) (pos 30_100) p.x × Within (pos 0) (pos 999_999) p.y };

    ghost range = { λ _ _ _. (pos 0, pos 999_999) };

    ghost last = { λ _. 100 };

    ghost far = { λ _. 40_000_000_000_000 };

    fn pieces(&self, _step: u32) -> u32 {
        1
    }

    fn span(&self, _step: u32, _piece: u32) -> Option<(i64, i64)> {
        Some((0, 999_999))
    }

    fn run(&self, step: u32, _piece: u32, y0: i64, y1: i64) -> Option<(i64, i64)> {
        self.greatest.set(self.greatest.get().max(step));
        if 0 <= y0 && y1 <= 999_999 {
            Some((30_000, 30_100))
        } else {
            None
        }
    }

    fn next(&self, _step: u32, from: u32, _left: i64, _right: i64) -> u32 {
        from
    }

    ghost upright = { λ _ _ _ x y0 y y1 low high a b. (a.0, record { low = Prim.omega (arith, ints, a.1.low); high = Prim.omega (arith, ints, b.1.high) }) };

    ghost in_range = { λ _ _ _ p h. h.1 };
}

/// A sink that notes, of its first call and of its last, up to which step runs had been asked for by then.
#[derive(Drop)]
struct Noting<'c> {
    inner: MemSink,
    greatest: &'c Cell<u32>,
    first: Option<u32>,
    last: Option<u32>,
}

impl<'c> Sink for Noting<'c> {
    ghost written = { λ s. Some s.inner.bytes.items };

    ghost faults = { λ s. s.inner.count };

    ghost takes = { λ _ _. Unit {0} };

    fn write(&mut self, piece: &[u8]) -> Result<usize, SinkFault> {
        self.last = Some(self.greatest.get());
        if self.first.is_none() {
            self.first = self.last;
        }
        self.inner.write(piece)
    }

    ghost fewer = { λ _ _ _ _ h. h };
}

/// At rest in the origin, with a mm/s of uncertainty.
const REST: EgoStart = EgoStart {
    p: Pt { x: 0, y: 0 },
    b: VBox {
        xlo: -1,
        xhi: 1,
        ylo: -1,
        yhi: 1,
    },
};

const BOUNDS: EgoBounds = EgoBounds { a: 8, v: 50_000 };

const GRID: Grid = Grid {
    w: 2_000_000,
    g: 1_000_000,
};

const FIRST_STEP: &[u8] = b"set 0 0 0 x 2 0 -1 0 1 y 2 0 -1 0 1
count 0 1
";

#[test]
fn lines_of_a_step_are_written_before_the_next_is_computed(rt: HostRuntime) -> Result<(), Fail> {
    let greatest = Cell::new(0);
    let beside = Noted {
        greatest: &greatest,
    };
    let mut sink = Noting {
        inner: mem_sink(rt.alloc(), 100_000, 4096, &[])?,
        greatest: &greatest,
        first: None,
        last: None,
    };
    let mut run = AreaRun::open(rt.alloc(), &beside, &REST, &BOUNDS, &GRID, 100, 5)?;
    write_area(&mut run, &Unrecorded, &mut sink)?;
    assert!(rt; sink.inner.bytes.as_slice().starts_with(FIRST_STEP));
    assert!(rt;
        sink.inner
            .bytes
            .as_slice()
            .ends_with(b"\nopen\n".as_slice())
    );
    assert!(rt; sink.first.is_some_and(|step| step <= 1));
    assert_eq!(rt; sink.last, Some(5));
    Ok(())
}

#[test]
fn a_fault_leaves_a_front_of_the_steps(rt: HostRuntime) -> Result<(), Fail> {
    let greatest = Cell::new(0);
    let beside = Noted {
        greatest: &greatest,
    };
    let mut sink = mem_sink(rt.alloc(), 100_000, 16, &[10])?;
    let mut run = AreaRun::open(rt.alloc(), &beside, &REST, &BOUNDS, &GRID, 100, 1)?;
    assert!(rt; write_area(&mut run, &Unrecorded, &mut sink).is_err());
    assert!(rt; sink.bytes.len() > FIRST_STEP.len());
    assert!(rt; sink.bytes.as_slice().starts_with(FIRST_STEP));
    Ok(())
}
