//! What a pair of polygons adds to the cells of a step.

ghost use Rattle.std.specs.Prelude.{◌≡◌, ◌≤◌, ◌≤ℤ◌, ◌+ℤ◌, ℕ, pos, length, slice_get, Some};
ghost use Rattle.spot_terms.specs.BaseSets.{greatest_place, least_place};
ghost use Rattle.spot_terms.specs.CellNumbers.{IsJoined};
ghost use Rattle.spot_terms.specs.Courses.{cells_of, slots_met};
ghost use Rattle.spot_terms.specs.Grid.{slot};
ghost use Rattle.spot_terms.specs.Hull.{IsCornerList};
ghost use Rattle.spot_terms.specs.Whole.{SizeAtMost, Within};
ghost use Rattle.base_sets.specs.Values.{AreTicks, IsBox, IsGrid, rect_of_box};
ghost use Rattle.merge_sets.specs.Adding.{AddsTo};
ghost use Rattle.merge_sets.specs.BoxSlots.{AreSlotsOf};
ghost use Rattle.merge_sets.specs.Cells.{AreSound, OfBoth, numbers_of};
ghost use Rattle.merge_sets.specs.Tables.{IsAddable};
ghost use Rattle.merge_sets.specs.declared.cells.Cell.{Cell as CellOf};

use crate::cells::Cell;
use crate::columns::join_columns;
use crate::places::BoxSlots;
use crate::slots::put_rows;
use base_sets::{Grid, OuterBox, slots_met};
use convex_poly::Poly;
use round_out::FrameNumbers;

/// The first slot of this width, a column or a row, that a polygon meets, and how many it meets.
///
/// The width is from 100,000 to 10^8 µm. The polygon has no part in any other slot.
pub fn slots_of(p: &Poly, width: i64) -> (i64, u32)
    requires width { Within (pos 100_000) (pos 100_000_000) width }
    ensures first { result.0 ≡ slot width (least_place p.now) }
    ensures count { result.1 ≡ slots_met width (least_place p.now) (greatest_place p.now) }
    ensures convex { IsCornerList p.now }
{
    let least = p.corners()[0].x;
    let greatest = p.support(1, 0);
    (
        least.div_euclid(width),
        slots_met(width, least, greatest) as u32,
    )
}

/// Adds a pair of polygons to the cells of a box, column by column. `rows` is made use of.
pub(crate) fn add_to(
    cells: &mut [Cell],
    rows: &mut [Option<FrameNumbers>],
    o: &OuterBox,
    grid: &Grid,
    k: u32,
    slots: &BoxSlots,
    x: &Poly,
    y: &Poly,
)
    requires reach { IsBox o.now }
    requires grid { IsGrid grid.now }
    requires ticks { AreTicks k }
    requires slots { AreSlotsOf o.now grid.now slots.now }
    requires room { cells_of grid.now.w grid.now.g (rect_of_box o.now) ≤ length cells.old }
    requires as_many { length rows.old ≡ length cells.old }
    requires sound { (i : ℕ) (c : CellOf) → slice_get cells.old i ≡ Some c → OfBoth (AreSound k) (numbers_of c) }
    requires x { IsAddable o.now.xlo o.now.xhi x.now }
    requires y { IsAddable o.now.ylo o.now.yhi y.now }
    ensures rows { length rows.new ≡ length rows.old }
    ensures cells { AddsTo o.now grid.now k x.now y.now cells.old cells.new }
{
    let (left, columns) = slots_of(x, grid.w);
    let (low, count) = slots_of(y, grid.g);
    let at = slots.place(left, low);
    put_rows(rows, y, grid.g, low, count, k);
    join_columns(
        cells,
        at,
        slots.rows,
        x,
        grid.w,
        left,
        columns,
        k,
        rows,
        count as usize,
    );
}
