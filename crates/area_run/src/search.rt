//! The runs of a column among those of a row.

ghost use Rattle.std.specs.Prelude.{◌≡◌, ◌≤◌, ◌≤ℤ◌, pos, ◌+ℤ◌, length};
ghost use Rattle.spot_terms.specs.Grid.{slot_low};
ghost use Rattle.spot_terms.specs.Whole.{SizeAtMost, Within};
ghost use Rattle.area_run.specs.Columns.{BeginInTurn, IsColumnOf, IsPartedAt};

/// How many of the runs begin before `x`.
fn begun_before(runs: &[(i64, i64)], x: i64) -> usize
    requires { BeginInTurn runs.now }
    ensures { IsPartedAt x runs.now result }
{
    let mut low = 0;
    let mut high = runs.len();
    while low < high {
        let middle = low + (high - low) / 2;
        if runs[middle].0 < x {
            low = middle + 1;
        } else {
            high = middle;
        }
    }
    low
}

/// The runs that begin in a column, where columns are `w` wide.
pub(crate) fn column_runs(runs: &[(i64, i64)], col: i64, w: i64) -> &[(i64, i64)]
    requires order { BeginInTurn runs.now }
    requires wide { Within (pos 100_000) (pos 100_000_000) w }
    requires low { SizeAtMost 50_000_000_000_000 (slot_low w col) }
    requires high { SizeAtMost 50_000_000_000_000 (slot_low w (col +ℤ pos 1)) }
    requires col { SizeAtMost 50_000_000_000_000 col }
    ensures { IsColumnOf w col runs.now result.now }
{
    let from = begun_before(runs, col * w);
    let to = begun_before(runs, (col + 1) * w);
    &runs[from..to]
}
