//! Cells: the greatest numbers of what came in.

ghost use Rattle.std.specs.Prelude.{◌≡◌, ◌≤◌, None, IfSome, length, option_map};
ghost use Rattle.spot_terms.specs.CellNumbers.{greater as greater_of};
ghost use Rattle.merge_sets.specs.Cells.{AreEight, IsCleared, OfBoth, joined_with, numbers_of, pair_of};

use round_out::FrameNumbers;

/// A cell: whether something came in, and the greatest numbers of what came in.
#[derive(Clone, Copy)]
pub(crate) struct Cell {
    pub(crate) taken: bool,
    pub(crate) x: FrameNumbers,
    pub(crate) y: FrameNumbers,
}

/// A cell into which nothing came.
pub(crate) fn empty_cell() -> Cell
    ensures { numbers_of result ≡ None }
{
    Cell {
        taken: false,
        x: FrameNumbers { n: [0; 8] },
        y: FrameNumbers { n: [0; 8] },
    }
}

/// Takes out of the first `n` cells what came into them.
pub(crate) fn clear(cells: &mut [Cell], n: usize)
    requires { n ≤ length cells.old }
    ensures { IsCleared n cells.old cells.new }
{
    for i in 0..n {
        cells[i].taken = false;
    }
}

/// The greater ones, number by number.
pub(crate) fn greater(a: &FrameNumbers, b: &FrameNumbers) -> FrameNumbers
    requires a { AreEight a.now.n }
    requires b { AreEight b.now.n }
    ensures { result.n ≡ greater_of a.now.n b.now.n }
{
    let [a0, a1, a2, a3, a4, a5, a6, a7] = a.n;
    let [b0, b1, b2, b3, b4, b5, b6, b7] = b.n;
    FrameNumbers {
        n: [
            a0.max(b0),
            a1.max(b1),
            a2.max(b2),
            a3.max(b3),
            a4.max(b4),
            a5.max(b5),
            a6.max(b6),
            a7.max(b7),
        ],
    }
}

/// Joins the numbers of two parts to a cell, where there is a second.
pub(crate) fn join_cell(cell: &mut Cell, x: &FrameNumbers, y: &Option<FrameNumbers>)
    requires cell { OfBoth AreEight (numbers_of cell.old) }
    requires x { AreEight x.now.n }
    requires y { IfSome y.now (λ f. AreEight f.n) }
    ensures { numbers_of cell.new ≡ joined_with x.now.n y.now (numbers_of cell.old) }
{
    if let Some(y) = y {
        if cell.taken {
            cell.x = greater(&cell.x, x);
            cell.y = greater(&cell.y, y);
        } else {
            *cell = Cell {
                taken: true,
                x: *x,
                y: *y,
            };
        }
    }
}

/// What a cell has.
pub(crate) fn numbers_in(cell: &Cell) -> Option<(FrameNumbers, FrameNumbers)>
    ensures { option_map pair_of result ≡ numbers_of cell.now }
{
    if cell.taken {
        Some((cell.x, cell.y))
    } else {
        None
    }
}
