//! Where the cells of a box stand.

ghost use Rattle.std.specs.Prelude.{◌≡◌, ◌↔◌, ℤ, IfNone, IfSome, IsTrue};
ghost use Rattle.spot_terms.specs.Whole.{Within};
ghost use Rattle.base_sets.specs.Values.{IsBox, IsGrid};
ghost use Rattle.merge_sets.specs.BoxSlots.{AreNear, AreSlotsOf, HasCell, place_in as place_of};

use base_sets::{Grid, OuterBox, slots_met};

/// The columns and rows of a box, and how many rows these are.
#[derive(Clone, Copy)]
pub(crate) struct BoxSlots {
    pub(crate) first_col: i64,
    pub(crate) last_col: i64,
    pub(crate) first_row: i64,
    pub(crate) last_row: i64,
    pub(crate) rows: usize,
}

impl BoxSlots {
    /// No columns and no rows.
    pub(crate) fn none() -> BoxSlots
        ensures none { (col row : ℤ) → HasCell result col row → ⊥ }
        ensures near { AreNear result }
    {
        BoxSlots {
            first_col: 1,
            last_col: 0,
            first_row: 1,
            last_row: 0,
            rows: 0,
        }
    }

    /// Those that meet a box.
    pub(crate) fn of_box(o: &OuterBox, grid: &Grid) -> BoxSlots
        requires reach { IsBox o.now }
        requires grid { IsGrid grid.now }
        ensures { AreSlotsOf o.now grid.now result }
    {
        BoxSlots {
            first_col: grid.col(o.xlo),
            last_col: grid.col(o.xhi),
            first_row: grid.row(o.ylo),
            last_row: grid.row(o.yhi),
            rows: slots_met(grid.g, o.ylo, o.yhi) as usize,
        }
    }

    /// Whether a cell is one of these columns and rows.
    fn has(&self, col: i64, row: i64) -> bool
        requires { AreNear self.now }
        ensures { IsTrue result ↔ HasCell self.now col row }
    {
        is_between(self.first_col, self.last_col, col)
            && is_between(self.first_row, self.last_row, row)
    }

    /// Where a cell stands: the columns from left to right, each from its lowest row on.
    pub(crate) fn place(&self, col: i64, row: i64) -> usize
        requires near { AreNear self.now }
        requires cell { HasCell self.now col row }
        ensures { result ≡ place_of self.now col row }
    {
        (col - self.first_col) as usize * self.rows + (row - self.first_row) as usize
    }

    /// Where a cell stands, if it is one of these columns and rows.
    pub(crate) fn place_in(&self, col: i64, row: i64) -> Option<usize>
        requires { AreNear self.now }
        ensures some { IfSome result (λ place. HasCell self.now col row × (place ≡ place_of self.now col row)) }
        ensures none { IfNone result (HasCell self.now col row → ⊥) }
    {
        if self.has(col, row) {
            Some(self.place(col, row))
        } else {
            None
        }
    }
}

/// Whether a number is from `lo` to `hi`.
fn is_between(lo: i64, hi: i64, z: i64) -> bool
    ensures { IsTrue result ↔ Within lo hi z }
{
    lo <= z && z <= hi
}
