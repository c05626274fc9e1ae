//! The row boxes of a step.

ghost use Rattle.std.specs.Prelude.{◌≡◌, ◌≤◌, ◌≤ℤ◌, pos};
ghost use Rattle.std.specs.Int.{int_max, int_min};
ghost use Rattle.spot_terms.specs.Grid.{slot};
ghost use Rattle.spot_terms.specs.RowBoxes.{row_boxes_in, slots_shared};
ghost use Rattle.spot_terms.specs.Whole.{SizeAtMost, Within, count_between};
ghost use Rattle.base_sets.specs.Values.{IsBox, IsGrid, rect_of_box};

use crate::occupied::Occupied;
use base_sets::{Grid, OuterBox};

/// The row boxes of a step: the cells of the box, and for each piece the rows of the box that meet its range of y.
pub fn row_boxes<O: Occupied>(o: &O, step: u32, b: &OuterBox, grid: &Grid) -> u64
    requires step { step ≤ O.last o.now }
    requires reach { IsBox b.now }
    requires grid { IsGrid grid.now }
    ensures { result ≡ row_boxes_in grid.now.w grid.now.g (rect_of_box b.now) (O.count o.now step) (O.range o.now step) }
{
    b.cells(grid) + o.rows(step, b, grid.g)
}

/// How many rows of the box, of height `g`, meet the range of y from `low` to `high`.
pub fn rows_shared(low: i64, high: i64, b: &OuterBox, g: i64) -> u64
    requires order { low ≤ℤ high }
    requires reach { IsBox b.now }
    requires height { Within (pos 100_000) (pos 100_000_000) g }
    ensures value { result ≡ slots_shared g (low, high) (b.now.ylo, b.now.yhi) }
    ensures few { result ≤ 1_000_000_000 }
{
    count(
        greater(row_of(g, low), row_of(g, b.ylo)),
        less(row_of(g, high), row_of(g, b.yhi)),
    )
}

// The row of a y.
pub(crate) fn row_of(g: i64, y: i64) -> i64
    requires height { Within (pos 100_000) (pos 100_000_000) g }
    ensures value { result ≡ slot g y }
    ensures small { SizeAtMost 100_000_000_000_000 result }
    ensures near { SizeAtMost 40_000_000_000_000 y → SizeAtMost 400_000_000 result }
{
    y.div_euclid(g)
}

// How many whole numbers there are from `first` to `last`.
fn count(first: i64, last: i64) -> u64
    requires first { SizeAtMost 100_000_000_000_000 first }
    requires last { SizeAtMost 100_000_000_000_000 last }
    ensures { result ≡ count_between first last }
{
    if first <= last {
        (last - first + 1) as u64
    } else {
        0
    }
}

// The greater one.
pub(crate) fn greater(a: i64, b: i64) -> i64
    ensures { result ≡ int_max a b }
{
    a.max(b)
}

// The less one.
fn less(a: i64, b: i64) -> i64
    ensures { result ≡ int_min a b }
{
    a.min(b)
}
