//! The grid, and the boxes that the ego's motions stay in.

ghost use Rattle.std.specs.Prelude.{◌≡◌, ◌*◌, ◌≤◌, ◌≤ℤ◌, pos, List, Some, slice_get};
ghost use Rattle.spot_terms.specs.BaseSets.{InRect};
ghost use Rattle.spot_terms.specs.Courses as courses;
ghost use Rattle.spot_terms.specs.Courses.{cells_of};
ghost use Rattle.spot_terms.specs.EgoMotions.{FitsBound, IsEgoMotion};
ghost use Rattle.spot_terms.specs.Grid.{slot};
ghost use Rattle.spot_terms.specs.Motions.{State};
ghost use Rattle.spot_terms.specs.Ranges.{IsStart};
ghost use Rattle.spot_terms.specs.Whole.{SizeAtMost, Within};
ghost use Rattle.base_sets.specs.Values.{AreBounds, AreBoxPlaces, AreTicks, IsBox, IsBoxInOrder, IsEgoStart, IsGrid, rect_of_box, start_with};

use crate::ego::{EgoBounds, EgoStart};
use acc_occupancy::{AccStart, reach_number};
use spot_terms::MOST_STEPS;

/// The widths of the columns and of the rows of a grid, in µm: each from 100,000 to 10^8.
#[derive(Clone, Copy, Debug, PartialEq, Eq)]
pub struct Grid {
    pub w: i64,
    pub g: i64,
}

/// A box of places, in µm. It holds its ends.
#[derive(Clone, Copy, Debug, PartialEq, Eq)]
pub struct OuterBox {
    pub xlo: i64,
    pub xhi: i64,
    pub ylo: i64,
    pub yhi: i64,
}

impl Grid {
    /// The column of an x, which is at most 4·10^13 in size.
    pub fn col(&self, x: i64) -> i64
        requires grid { IsGrid self.now }
        requires place { SizeAtMost 40_000_000_000_000 x }
        ensures { result ≡ slot self.now.w x }
    {
        x.div_euclid(self.w)
    }

    /// The row of a y, which is at most 4·10^13 in size.
    pub fn row(&self, y: i64) -> i64
        requires grid { IsGrid self.now }
        requires place { SizeAtMost 40_000_000_000_000 y }
        ensures { result ≡ slot self.now.g y }
    {
        y.div_euclid(self.g)
    }
}

/// The box that each motion of the ego is in at a step: along x and along y the places that its start can reach by then.
///
/// A step has `k` ticks, 1 to 1000. `step` is at most 100. Where the start doesn't fit the bounds, the box may be out of
/// order: no motion is in it then.
pub fn outer_box(s: &EgoStart, e: &EgoBounds, k: u32, step: u32) -> OuterBox
    requires start { IsEgoStart s.now }
    requires bounds { AreBounds e.now }
    requires ticks { AreTicks k }
    requires step { step ≤ MOST_STEPS }
    ensures exact { rect_of_box result ≡ courses.outer_box (start_with s.now e.now) (step * k) }
    ensures order { FitsBound s.now.b e.now.v → IsBoxInOrder result }
    ensures near { AreBoxPlaces 21_000_000_000_000 result }
    ensures holds { (states : List State) (st : State) → IsEgoMotion s.now.p s.now.b e.now.a e.now.v states → slice_get states (step * k) ≡ Some st → InRect (rect_of_box result) st.p }
{
    let start = start_without_body(s, e);
    let tick = step * k;
    OuterBox {
        xlo: -reach_number(&start, 4, tick),
        xhi: reach_number(&start, 0, tick),
        ylo: -reach_number(&start, 6, tick),
        yhi: reach_number(&start, 2, tick),
    }
}

/// The ego's start as that of a participant without a body.
fn start_without_body(s: &EgoStart, e: &EgoBounds) -> AccStart
    requires start { IsEgoStart s.now }
    requires bounds { AreBounds e.now }
    ensures value { result ≡ start_with s.now e.now }
    ensures range { IsStart result }
{
    AccStart {
        p: s.p,
        b: s.b,
        a: e.a,
        v: e.v,
        r: 0,
    }
}

impl OuterBox {
    /// The number of cells of the box: the columns that meet it times the rows that meet it.
    pub fn cells(&self, grid: &Grid) -> u64
        requires reach { IsBox self.now }
        requires grid { IsGrid grid.now }
        ensures value { result ≡ cells_of grid.now.w grid.now.g (rect_of_box self.now) }
        ensures few { result ≤ 1_000_000_000_000_000_000 }
    {
        slots_met(grid.w, self.xlo, self.xhi) * slots_met(grid.g, self.ylo, self.yhi)
    }
}

/// How many slots of this width, columns or rows, meet the places from `lo` to `hi`, in µm.
///
/// The width is from 100,000 to 10^8. The places are at most 4·10^13 in size, and `lo` is at most `hi`.
pub fn slots_met(width: i64, lo: i64, hi: i64) -> u64
    requires width { Within (pos 100_000) (pos 100_000_000) width }
    requires order { lo ≤ℤ hi }
    requires low { SizeAtMost 40_000_000_000_000 lo }
    requires high { SizeAtMost 40_000_000_000_000 hi }
    ensures value { result ≡ courses.slots_met width lo hi }
    ensures few { result ≤ 1_000_000_000 }
{
    (hi.div_euclid(width) - lo.div_euclid(width) + 1) as u64
}
