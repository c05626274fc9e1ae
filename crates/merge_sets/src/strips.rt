//! Strips: the greatest numbers of the parts of some polygons, slot by slot.

ghost use Rattle.std.specs.Prelude.{◌≡◌, ◌<◌, ◌≤◌, ◌+◌, ◌+ℤ◌, ℕ, option_map, pos, length, IfSome};
ghost use Rattle.std.specs.List.{AllByRecursion};
ghost use Rattle.spot_terms.specs.Whole.{SizeAtMost, Within};
ghost use Rattle.base_sets.specs.Values.{AreTicks};
ghost use Rattle.merge_sets.specs.Cells.{AreEight, AreRows, IsNear};
ghost use Rattle.merge_sets.specs.Strips.{AreSoundRows, IsForgotten, JoinsPart, JoinsParts, row_joined};

use crate::cells::greater;
use crate::slots::slot_numbers;
use convex_poly::Poly;
use round_out::FrameNumbers;

/// Joins the numbers of the parts of a polygon in `n` slots from `first` on to the items of `rows` from `at` on. Those of the
/// first slots may be known already.
pub fn join_parts(
    rows: &mut [Option<FrameNumbers>],
    at: usize,
    p: &Poly,
    known: &[Option<FrameNumbers>],
    width: i64,
    first: i64,
    n: u32,
    k: u32,
)
    requires room { at + n ≤ length rows.old }
    requires rows { AreSoundRows k rows.old }
    requires known { AreRows (length known.now) width first k p.now known.now }
    requires corners { length p.now ≤ 18 }
    requires slow { AllByRecursion (λ c. SizeAtMost 1_000_000 c.y) p.now }
    requires width { Within (pos 100_000) (pos 100_000_000) width }
    requires first { SizeAtMost 1_000_000_000 first }
    requires near { (j : ℕ) → j < n → IsNear width (first +ℤ pos j) }
    requires ticks { AreTicks k }
    ensures { JoinsParts at n width first k p.now rows.old rows.new }
{
    for j in 0..n {
        join_slot(&mut rows[at + j as usize], p, known, width, first, j, k);
    }
}

/// Joins the numbers of the part of a polygon in the slot that comes `j` behind `first` to those of a row.
fn join_slot(
    row: &mut Option<FrameNumbers>,
    p: &Poly,
    known: &[Option<FrameNumbers>],
    width: i64,
    first: i64,
    j: u32,
    k: u32,
)
    requires row { IfSome row.old (λ f. AreEight f.n) }
    requires known { AreRows (length known.now) width first k p.now known.now }
    requires corners { length p.now ≤ 18 }
    requires slow { AllByRecursion (λ c. SizeAtMost 1_000_000 c.y) p.now }
    requires width { Within (pos 100_000) (pos 100_000_000) width }
    requires first { SizeAtMost 1_000_000_000 first }
    requires near { IsNear width (first +ℤ pos j) }
    requires ticks { AreTicks k }
    ensures { JoinsPart width (first +ℤ pos j) k p.now row.old row.new }
{
    let at = j as usize;
    if at < known.len() {
        join_part(row, &known[at]);
    } else {
        join_part(row, &slot_numbers(p, width, first + i64::from(j), k));
    }
}

/// Joins the numbers of a part, where there is one, to those of a slot.
fn join_part(row: &mut Option<FrameNumbers>, part: &Option<FrameNumbers>)
    requires row { IfSome row.old (λ f. AreEight f.n) }
    requires part { IfSome part.now (λ f. AreEight f.n) }
    ensures { option_map (λ f. f.n) row.new ≡ row_joined row.old part.now }
{
    if let Some(part) = part {
        match row {
            Some(before) => *before = greater(before, part),
            None => *row = Some(*part),
        }
    }
}

/// Takes out what came into the slots from `from` to below `to`.
pub fn forget(rows: &mut [Option<FrameNumbers>], from: usize, to: usize)
    requires order { from ≤ to }
    requires room { to ≤ length rows.old }
    ensures { IsForgotten from to rows.old rows.new }
{
    for j in from..to {
        rows[j] = None;
    }
}
