//! Rows of numbers turned round.

ghost use Rattle.std.specs.Prelude.{◌≡◌, ◌<◌, ◌≤◌, ◌^◌, ℕ, List, [], length, OnOk, IfOk};
ghost use Rattle.std.specs.List.{AllByRecursion};
ghost use Rattle.lanelets.specs.Listing.{AreColumns, AreBelow, HasRow};

use crate::numbers::Numbers;
use std::alloc::{AllocError, Global};

// So many empty lists.
fn empty_lists(alloc: Global, count: u32) -> Result<Vec<Numbers>, AllocError>
    ensures { IfOk result (λ lists. (length lists.items ≡ count) × AllByRecursion (λ list. list ≡ []) lists.items) }
{
    let mut lists = Vec::with_capacity(alloc, count as usize)?;
    for _ in 0..count {
        lists.push(Numbers::new(alloc))?;
    }
    Ok(lists)
}

// Adds `i` to the list of each number of the row.
fn add_row(columns: &mut [Numbers], row: &[u32], i: u32) -> Result<(), AllocError>
    requires { AllByRecursion (λ x. x < length columns.old) row.now }
    ensures { OnOk result (HasRow columns.old row.now i columns.new) }
{
    for x in row {
        let column = &mut columns[*x as usize];
        column.push_once(i)?;
    }
    Ok(())
}

/// For each number below `count` the numbers of the rows that have it, in order.
pub(crate) fn columns_of(
    alloc: Global,
    rows: &[Numbers],
    count: u32,
) -> Result<Vec<Numbers>, AllocError>
    requires few { length rows.now < 2 ^ 32 }
    requires within { AllByRecursion (AreBelow count) rows.now }
    ensures { IfOk result (λ columns. AreColumns rows.now count columns.items) }
{
    let mut columns = empty_lists(alloc, count)?;
    for (i, row) in rows.iter().enumerate() {
        add_row(&mut columns, row.list(), i as u32)?;
    }
    Ok(columns)
}
