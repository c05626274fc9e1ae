//! Where cells that lie beside those of a lanelet are looked for.

ghost use Rattle.std.specs.Prelude.{◌≡◌, ◌↔◌, ◌<◌, ◌≤◌, ℕ, length, slice_index_or, Some, IfOk};
ghost use Rattle.std.specs.List.{AllByRecursion};
ghost use Rattle.spot_terms.specs.Ranges.{AreBuildable};
ghost use Rattle.lanelets.specs.Listing.{AreLists, AreRows};
ghost use Rattle.lanelets.specs.Nearby.{AreListed, AreSideRows, HasPieceNumber, IsNearby, IsPieceNumber};
ghost use Rattle.lanelets.specs.Steps.{net_of, IsInside, IsOfLane};

use crate::columns::columns_of;
use crate::kept::lane_of;
use crate::lanes::{lane_at, lane_count};
use crate::links::places_of;
use crate::numbers::{Numbers, list_at, one_or_none};
use crate::placed::PlacedCells;
use crate::steps::origin_at;
use indexmap::IndexMap;
use spot_terms::{MOST_CELLS, Origin, RawLane};
use std::alloc::{AllocError, Global};

/// For each lanelet by its position the positions of those that it lists as neighbours or that list it, and the cells
/// that are parts of it; and for each number of a piece the cells that are parts of that piece. Each list is in order.
#[derive(Drop)]
pub(crate) struct Nearby {
    pub(crate) neighbours: Vec<Numbers>,
    pub(crate) parts: Vec<Numbers>,
    pub(crate) pieces: Vec<Numbers>,
}

// For each lanelet the positions of those that it lists as neighbours.
fn side_rows(alloc: Global, lanes: &IndexMap<u32, RawLane>) -> Result<Vec<Numbers>, AllocError>
    requires { AreBuildable lanes.now.entries }
    ensures { IfOk result (λ rows. AreSideRows lanes.now.entries rows.items) }
{
    let mut rows = Vec::new(alloc);
    for e in 0..lane_count(lanes) {
        let (_, lane) = lane_at(lanes, e);
        rows.push(places_of(alloc, lanes, lane.sides.list())?)?;
    }
    Ok(rows)
}

// For each lanelet the positions of those that it lists as neighbours or that list it, in any order.
fn listed_rows(alloc: Global, lanes: &IndexMap<u32, RawLane>) -> Result<Vec<Numbers>, AllocError>
    requires { AreBuildable lanes.now.entries }
    ensures { IfOk result (λ rows. AreRows (λ f e. AreListed lanes.now.entries e f) (length lanes.now.entries) rows.items) }
{
    let listed = side_rows(alloc, lanes)?;
    let listing = columns_of(alloc, &listed, lane_count(lanes))?;
    let mut rows = Vec::new(alloc);
    for f in 0..lane_count(lanes) {
        let (_, lane) = lane_at(lanes, f);
        let mut row = places_of(alloc, lanes, lane.sides.list())?;
        row.extend(list_at(&listing, f))?;
        rows.push(row)?;
    }
    Ok(rows)
}

// For each lanelet the positions of those that it lists as neighbours or that list it, in order.
fn neighbours_of(alloc: Global, lanes: &IndexMap<u32, RawLane>) -> Result<Vec<Numbers>, AllocError>
    requires { AreBuildable lanes.now.entries }
    ensures { IfOk result (λ lists. AreLists (AreListed lanes.now.entries) (length lanes.now.entries) lists.items) }
{
    let rows = listed_rows(alloc, lanes)?;
    let lists = columns_of(alloc, &rows, lane_count(lanes))?;
    Ok(lists)
}

/// The position of the lanelet that a cell is a part of.
pub(crate) fn lane_at_cell(cells: &PlacedCells, c: u32) -> Option<u32>
    requires { c < length cells.now }
    ensures { (e : ℕ) → (result ≡ Some e) ↔ IsOfLane (net_of cells.now) c e }
{
    lane_of(origin_at(cells, c))
}

// For each cell the lanelet that it is a part of.
fn lane_rows(alloc: Global, cells: &PlacedCells) -> Result<Vec<Numbers>, AllocError>
    ensures is { IfOk result (λ rows. AreRows (λ c e. IsOfLane (net_of cells.now) c e) (length cells.now) rows.items) }
    ensures few { length cells.now ≤ MOST_CELLS }
{
    let mut rows = Vec::new(alloc);
    for c in 0..cells.len() {
        rows.push(one_or_none(alloc, lane_at_cell(cells, c))?)?;
    }
    Ok(rows)
}

// For each of so many lanelets the cells that are parts of it.
fn parts_of(alloc: Global, cells: &PlacedCells, count: u32) -> Result<Vec<Numbers>, AllocError>
    requires { AllByRecursion (λ p. IsInside count p.origin) cells.now }
    ensures { IfOk result (λ parts. AreLists (λ e c. IsOfLane (net_of cells.now) c e) count parts.items) }
{
    let rows = lane_rows(alloc, cells)?;
    let parts = columns_of(alloc, &rows, count)?;
    Ok(parts)
}

// The first number of the list, or else 0.
fn first_or_zero(list: &[u32]) -> u32
    ensures { result ≡ slice_index_or list.now 0 0 }
{
    if list.is_empty() { 0 } else { list[0] }
}

/// The number, below `count`, of a piece of the lanelet at `e`. The pieces of a lanelet are numbered from its first cell
/// on. Each has a cell at least, so that with as many numbers as there are cells no two pieces have the same.
pub(crate) fn piece_number(parts: &[Numbers], e: u32, piece: u32, count: u32) -> u32
    requires within { e < length parts.now }
    requires some { 0 < count }
    ensures is { IsPieceNumber parts.now count e piece result }
    ensures low { result < count }
{
    let first = first_or_zero(list_at(parts, e));
    ((u64::from(first) + u64::from(piece)) % u64::from(count)) as u32
}

// The number of the piece that a cell is a part of.
fn piece_at_cell(cells: &PlacedCells, parts: &[Numbers], c: u32) -> Option<u32>
    requires inside { AllByRecursion (λ p. IsInside (length parts.now) p.origin) cells.now }
    requires within { c < length cells.now }
    ensures { (k : ℕ) → (result ≡ Some k) ↔ HasPieceNumber parts.now (net_of cells.now) c k }
{
    match origin_at(cells, c) {
        Origin::Part { lane, piece, .. } => { Some(piece_number(parts, lane, piece, cells.len())) }
        Origin::Bridge { .. } => None,
    }
}

// For each cell the number of the piece that it is a part of.
fn piece_rows(
    alloc: Global,
    cells: &PlacedCells,
    parts: &[Numbers],
) -> Result<Vec<Numbers>, AllocError>
    requires { AllByRecursion (λ p. IsInside (length parts.now) p.origin) cells.now }
    ensures { IfOk result (λ rows. AreRows (λ c k. HasPieceNumber parts.now (net_of cells.now) c k) (length cells.now) rows.items) }
{
    let mut rows = Vec::new(alloc);
    for c in 0..cells.len() {
        rows.push(one_or_none(alloc, piece_at_cell(cells, parts, c))?)?;
    }
    Ok(rows)
}

// For each number of a piece the cells that are parts of that piece.
fn pieces_of(
    alloc: Global,
    cells: &PlacedCells,
    parts: &[Numbers],
) -> Result<Vec<Numbers>, AllocError>
    requires { AllByRecursion (λ p. IsInside (length parts.now) p.origin) cells.now }
    ensures { IfOk result (λ pieces. AreLists (λ k c. HasPieceNumber parts.now (net_of cells.now) c k) (length cells.now) pieces.items) }
{
    let rows = piece_rows(alloc, cells, parts)?;
    let pieces = columns_of(alloc, &rows, cells.len())?;
    Ok(pieces)
}

/// The neighbours of each lanelet, its cells, and the cells of each piece.
pub(crate) fn nearby_of(
    alloc: Global,
    lanes: &IndexMap<u32, RawLane>,
    cells: &PlacedCells,
) -> Result<Nearby, AllocError>
    requires buildable { AreBuildable lanes.now.entries }
    requires inside { AllByRecursion (λ p. IsInside (length lanes.now.entries) p.origin) cells.now }
    ensures { IfOk result (λ nearby. IsNearby lanes.now.entries (net_of cells.now) nearby) }
{
    let neighbours = neighbours_of(alloc, lanes)?;
    let parts = parts_of(alloc, cells, lane_count(lanes))?;
    let pieces = pieces_of(alloc, cells, &parts)?;
    Ok(Nearby {
        neighbours,
        parts,
        pieces,
    })
}
