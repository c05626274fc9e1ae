//! Which cells side moves join.

ghost use Rattle.std.specs.Prelude.{◌≡◌, ◌<◌, ◌≤◌, List, length, slice_get, Some, IfOk};
ghost use Rattle.std.specs.List.{AllByRecursion};
ghost use Rattle.spot_terms.specs.Cells.{Lane};
ghost use Rattle.lanelets.specs.Beside.{AreClassNumbers, AreClasses};
ghost use Rattle.lanelets.specs.Levels.{AreOwn};
ghost use Rattle.lanelets.specs.Listing.{AreRows};
ghost use Rattle.lanelets.specs.Nearby.{AreKept};
ghost use Rattle.lanelets.specs.Steps.{net_of, IsInside};

use crate::columns::columns_of;
use crate::kept::KeptLane;
use crate::levels::settle;
use crate::nearby::Nearby;
use crate::numbers::{Numbers, one_or_none};
use crate::pairs::side_pairs;
use crate::placed::PlacedCells;
use std::alloc::{AllocError, Global};

/// For each cell the number of its class, which is the least of the cells to which side moves lead from it, and for each
/// number the cells of that class, in order.
#[derive(Drop)]
pub(crate) struct Classes {
    pub(crate) numbers: Vec<u32>,
    pub(crate) cells: Vec<Numbers>,
}

// The numbers below `count`, each in its own place.
fn own_numbers(alloc: Global, count: u32) -> Result<Vec<u32>, AllocError>
    ensures { IfOk result (λ numbers. AreOwn count numbers.items) }
{
    let mut numbers = Vec::with_capacity(alloc, count as usize)?;
    for c in 0..count {
        numbers.push(c)?;
    }
    Ok(numbers)
}

// For each cell the number of its class.
fn class_numbers(
    alloc: Global,
    cells: &PlacedCells,
    lanes: &[KeptLane],
    nearby: &Nearby,
) -> Result<Vec<u32>, AllocError>
    requires inside { AllByRecursion (λ p. IsInside (length lanes.now) p.origin) cells.now }
    requires kept { (every : List Lane) × AreKept every (net_of cells.now) lanes.now nearby.now }
    ensures { IfOk result (λ numbers. (every : List Lane) → AreKept every (net_of cells.now) lanes.now nearby.now → AreClassNumbers every (net_of cells.now) numbers.items) }
{
    let pairs = side_pairs(alloc, cells, lanes, nearby)?;
    let mut numbers = own_numbers(alloc, cells.len())?;
    settle(alloc, &mut numbers, &pairs, cells.len())?;
    Ok(numbers)
}

// For each cell the list of the one number that it has.
fn class_rows(alloc: Global, numbers: &[u32]) -> Result<Vec<Numbers>, AllocError>
    ensures { IfOk result (λ rows. AreRows (λ c x. slice_get numbers.now c ≡ Some x) (length numbers.now) rows.items) }
{
    let mut rows = Vec::with_capacity(alloc, numbers.len())?;
    for n in numbers {
        rows.push(one_or_none(alloc, Some(*n))?)?;
    }
    Ok(rows)
}

/// The classes of the cells.
pub(crate) fn classes_of(
    alloc: Global,
    cells: &PlacedCells,
    lanes: &[KeptLane],
    nearby: &Nearby,
) -> Result<Classes, AllocError>
    requires inside { AllByRecursion (λ p. IsInside (length lanes.now) p.origin) cells.now }
    requires kept { (every : List Lane) × AreKept every (net_of cells.now) lanes.now nearby.now }
    ensures { IfOk result (λ classes. (every : List Lane) → AreKept every (net_of cells.now) lanes.now nearby.now → AreClasses every (net_of cells.now) classes) }
{
    let numbers = class_numbers(alloc, cells, lanes, nearby)?;
    let rows = class_rows(alloc, &numbers)?;
    let members = columns_of(alloc, &rows, cells.len())?;
    Ok(Classes {
        numbers,
        cells: members,
    })
}
