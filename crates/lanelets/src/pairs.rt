//! Pairs of cells that lie side by side, through which all that do are joined.

ghost use Rattle.std.specs.Prelude.{◌≡◌, ◌⊎◌, ◌<◌, ◌≤◌, ℕ, List, length, slice_get, take, Some, OnOk, IfOk};
ghost use Rattle.std.specs.List.{AllByRecursion};
ghost use Rattle.spot_terms.specs.Cells.{Lane};
ghost use Rattle.spot_terms.specs.Lists.{Includes, Pairwise};
ghost use Rattle.spot_terms.specs.Network.{IsSide};
ghost use Rattle.lanelets.specs.Beside.{ArePairs, ArePairsOf, HasPairsIn, IsPair};
ghost use Rattle.lanelets.specs.Kept.{IsKept};
ghost use Rattle.lanelets.specs.Listing.{AreBelow, Gathers, GathersBetween};
ghost use Rattle.lanelets.specs.Nearby.{AreKept};
ghost use Rattle.lanelets.specs.Steps.{net_of, IsInside, IsOfLane};

use crate::kept::{KeptLane, are_side_cells, have_as_many_points};
use crate::nearby::{Nearby, lane_at_cell, piece_number};
use crate::numbers::{Numbers, list_at};
use crate::placed::PlacedCells;
use crate::steps::origin_at;
use spot_terms::Origin;
use std::alloc::{AllocError, Global};

// Adds each cell of the list that lies beside the cell.
fn add_among(
    pairs: &mut Numbers,
    cells: &PlacedCells,
    lanes: &[KeptLane],
    c: u32,
    list: &[u32],
) -> Result<(), AllocError>
    requires inside { AllByRecursion (λ p. IsInside (length lanes.now) p.origin) cells.now }
    requires within { c < length cells.now }
    requires list { AreBelow (length cells.now) list.now }
    ensures { OnOk result ((every : List Lane) → Pairwise IsKept every lanes.now → Gathers (λ d. Includes list.now d × IsSide every (net_of cells.now) c d) pairs.old pairs.new) }
{
    for d in list {
        if are_side_cells(cells, lanes, c, *d) {
            pairs.push(*d)?;
        }
    }
    Ok(())
}

// All cells of the other list where the cell is the first of its own list, and else the first of them alone.
fn all_or_first<'a>(own: &[u32], other: &'a [u32], c: u32) -> &'a [u32]
    ensures all { slice_get own.now 0 ≡ Some c → result.now ≡ other.now }
    ensures some { (result.now ≡ other.now) ⊎ (result.now ≡ take 1 other.now) }
{
    if other.is_empty() || (!own.is_empty() && own[0] == c) {
        other
    } else {
        &other[..1]
    }
}

// Cells of which those of the lanelet at `f` that are paired with the cell are some: of lanelets with equal numbers of
// points those of the same piece.
fn candidates<'a>(
    cells: &PlacedCells,
    lanes: &[KeptLane],
    nearby: &'a Nearby,
    c: u32,
    f: u32,
) -> &'a [u32]
    requires inside { AllByRecursion (λ p. IsInside (length lanes.now) p.origin) cells.now }
    requires kept { (every : List Lane) × AreKept every (net_of cells.now) lanes.now nearby.now }
    requires within { c < length cells.now }
    requires lane { f < length lanes.now }
    ensures below { AreBelow (length cells.now) result.now }
    ensures all { (every : List Lane) → AreKept every (net_of cells.now) lanes.now nearby.now → HasPairsIn every (net_of cells.now) c f result.now }
{
    let Origin::Part { lane, piece, .. } = origin_at(cells, c) else {
        return list_at(&nearby.parts, f);
    };
    if !have_as_many_points(lanes, lane, f) {
        return all_or_first(list_at(&nearby.parts, lane), list_at(&nearby.parts, f), c);
    }
    let number = piece_number(&nearby.parts, f, piece, cells.len());
    list_at(&nearby.pieces, number)
}

// Adds cells that lie beside the cell, among them all in the lanelets at these positions that are paired with it.
fn add_near(
    pairs: &mut Numbers,
    cells: &PlacedCells,
    lanes: &[KeptLane],
    nearby: &Nearby,
    c: u32,
    near: &[u32],
) -> Result<(), AllocError>
    requires inside { AllByRecursion (λ p. IsInside (length lanes.now) p.origin) cells.now }
    requires kept { (every : List Lane) × AreKept every (net_of cells.now) lanes.now nearby.now }
    requires within { c < length cells.now }
    requires near { AreBelow (length lanes.now) near.now }
    ensures { OnOk result ((every : List Lane) → AreKept every (net_of cells.now) lanes.now nearby.now → GathersBetween (λ d. IsPair every (net_of cells.now) c d × ((f : ℕ) × Includes near.now f × IsOfLane (net_of cells.now) d f)) (IsSide every (net_of cells.now) c) pairs.old pairs.new) }
{
    for f in near {
        add_among(
            pairs,
            cells,
            lanes,
            c,
            candidates(cells, lanes, nearby, c, *f),
        )?;
    }
    Ok(())
}

// Cells that lie beside the cell, among them all that are paired with it.
fn pairs_of(
    alloc: Global,
    cells: &PlacedCells,
    lanes: &[KeptLane],
    nearby: &Nearby,
    c: u32,
) -> Result<Numbers, AllocError>
    requires inside { AllByRecursion (λ p. IsInside (length lanes.now) p.origin) cells.now }
    requires kept { (every : List Lane) × AreKept every (net_of cells.now) lanes.now nearby.now }
    requires within { c < length cells.now }
    ensures { IfOk result (λ pairs. (every : List Lane) → AreKept every (net_of cells.now) lanes.now nearby.now → ArePairsOf every (net_of cells.now) c pairs) }
{
    let mut pairs = Numbers::new(alloc);
    if let Some(e) = lane_at_cell(cells, c) {
        add_near(
            &mut pairs,
            cells,
            lanes,
            nearby,
            c,
            list_at(&nearby.neighbours, e),
        )?;
    }
    Ok(pairs)
}

/// For each cell some that lie beside it, so that each two cells that lie side by side are joined through these. Of
/// lanelets with unlike numbers of points, where each cell of the one lies beside each of the other, only pairs with the
/// first cell of either are among them.
pub(crate) fn side_pairs(
    alloc: Global,
    cells: &PlacedCells,
    lanes: &[KeptLane],
    nearby: &Nearby,
) -> Result<Vec<Numbers>, AllocError>
    requires inside { AllByRecursion (λ p. IsInside (length lanes.now) p.origin) cells.now }
    requires kept { (every : List Lane) × AreKept every (net_of cells.now) lanes.now nearby.now }
    ensures { IfOk result (λ pairs. (every : List Lane) → AreKept every (net_of cells.now) lanes.now nearby.now → ArePairs every (net_of cells.now) (length cells.now) pairs.items) }
{
    let mut pairs = Vec::with_capacity(alloc, cells.len() as usize)?;
    for c in 0..cells.len() {
        pairs.push(pairs_of(alloc, cells, lanes, nearby, c)?)?;
    }
    Ok(pairs)
}
