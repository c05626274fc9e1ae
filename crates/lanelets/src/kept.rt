//! What a network keeps of lanelets, and which cells lie side by side.

ghost use Rattle.std.specs.Prelude.{◌≡◌, ◌↔◌, ◌<◌, List, length, slice_get, Some, IsTrue, IfOk};
ghost use Rattle.std.specs.List.{AllByRecursion};
ghost use Rattle.spot_terms.specs.Cells.{Lane};
ghost use Rattle.spot_terms.specs.Lists.{Pairwise};
ghost use Rattle.spot_terms.specs.Network.{IsSide, Overlaps, are_neighbours as are_neighbours_of, lane_of as lane_of_origin};
ghost use Rattle.spot_terms.specs.Ranges.{AreBuildable};
ghost use Rattle.lanelets.specs.Kept.{AreBeside, IsKept};
ghost use Rattle.lanelets.specs.Steps.{net_of, IsInside};

use crate::lanes::{lane_at, lane_count};
use crate::numbers::{Numbers, has_number};
use crate::placed::PlacedCells;
use crate::steps::origin_at;
use indexmap::IndexMap;
use spot_terms::{Origin, RawLane};
use std::alloc::{AllocError, Global};

/// A lanelet's id, the number of points of each of its bounds, and the ids that it lists as neighbours.
#[derive(Drop)]
pub(crate) struct KeptLane {
    id: u32,
    points: usize,
    sides: Numbers,
}

// What is kept of a lanelet.
fn kept_lane(alloc: Global, id: u32, lane: &RawLane) -> Result<KeptLane, AllocError>
    ensures { IfOk result (λ kept. IsKept (id, lane.now) kept) }
{
    let mut sides = Numbers::new(alloc);
    sides.extend(lane.sides.list())?;
    Ok(KeptLane {
        id,
        points: lane.left.list().len(),
        sides,
    })
}

/// What is kept of all lanelets.
pub(crate) fn kept_lanes(
    alloc: Global,
    lanes: &IndexMap<u32, RawLane>,
) -> Result<Vec<KeptLane>, AllocError>
    requires { AreBuildable lanes.now.entries }
    ensures { IfOk result (λ kept. Pairwise IsKept lanes.now.entries kept.items) }
{
    let mut kept = Vec::new(alloc);
    for e in 0..lane_count(lanes) {
        let (id, lane) = lane_at(lanes, e);
        kept.push(kept_lane(alloc, id, lane)?)?;
    }
    Ok(kept)
}

// Whether two lanelets are neighbours.
fn are_neighbours(l: &KeptLane, m: &KeptLane) -> bool
    ensures { (a b : Lane) → IsKept a l.now → IsKept b m.now → result ≡ are_neighbours_of a b }
{
    l.id != m.id && (has_number(l.sides.list(), m.id) || has_number(m.sides.list(), l.id))
}

// Whether two cells are parts of pieces of the same number that overlap.
fn do_overlap(a: Origin, b: Origin) -> bool
    ensures { IsTrue result ↔ Overlaps a b }
{
    match (a, b) {
        (
            Origin::Part {
                piece,
                part,
                parts,
                ..
            },
            Origin::Part {
                piece: other_piece,
                part: other,
                parts: others,
                ..
            },
        ) => {
            piece == other_piece
                && u64::from(part) * u64::from(others) < (u64::from(other) + 1) * u64::from(parts)
                && u64::from(other) * u64::from(parts) < (u64::from(part) + 1) * u64::from(others)
        }
        _ => false,
    }
}

// Whether cells that come from there lie side by side as cells of these lanelets.
fn are_beside(l: &KeptLane, m: &KeptLane, a: Origin, b: Origin) -> bool
    ensures { (k n : Lane) → IsKept k l.now → IsKept n m.now → (IsTrue result ↔ AreBeside k n a b) }
{
    are_neighbours(l, m) && (l.points != m.points || do_overlap(a, b))
}

/// Whether the bounds of the lanelets at these positions have equal numbers of points.
pub(crate) fn have_as_many_points(lanes: &[KeptLane], e: u32, f: u32) -> bool
    requires first { e < length lanes.now }
    requires second { f < length lanes.now }
    ensures { (every : List Lane) → Pairwise IsKept every lanes.now → (l m : Lane) → slice_get every e ≡ Some l → slice_get every f ≡ Some m → (IsTrue result ↔ (length l.1.left ≡ length m.1.left)) }
{
    lanes[e as usize].points == lanes[f as usize].points
}

/// The position of the lanelet that a cell that comes from there is a part of.
pub(crate) fn lane_of(origin: Origin) -> Option<u32>
    ensures { result ≡ lane_of_origin origin }
{
    match origin {
        Origin::Part { lane, .. } => Some(lane),
        Origin::Bridge { .. } => None,
    }
}

/// Whether two cells lie side by side.
pub(crate) fn are_side_cells(cells: &PlacedCells, lanes: &[KeptLane], c: u32, d: u32) -> bool
    requires inside { AllByRecursion (λ p. IsInside (length lanes.now) p.origin) cells.now }
    requires first { c < length cells.now }
    requires second { d < length cells.now }
    ensures { (every : List Lane) → Pairwise IsKept every lanes.now → (IsTrue result ↔ IsSide every (net_of cells.now) c d) }
{
    let a = origin_at(cells, c);
    let b = origin_at(cells, d);
    let Some(e) = lane_of(a) else {
        return false;
    };
    let Some(f) = lane_of(b) else {
        return false;
    };
    are_beside(&lanes[e as usize], &lanes[f as usize], a, b)
}
