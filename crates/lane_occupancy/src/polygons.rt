//! The lane polygons of a start.

ghost use Rattle.std.specs.Prelude.{◌≡◌, ◌≤◌, ℕ, map, length, IfOk};
ghost use Rattle.spot_terms.specs.LanePolygons.{AreLanePolygons, IsReached};
ghost use Rattle.spot_terms.specs.Lists.{Lists};
ghost use Rattle.spot_terms.specs.Motions.{IsStartSpeed};
ghost use Rattle.spot_terms.specs.Ranges.{IsStart};
ghost use Rattle.lane_occupancy.specs.Polygons.{polygon_of, AreLabelsOf, HasCount};
ghost use Rattle.lane_occupancy.specs.Laws.{HoldsLaneBodies};

use crate::intervals::{first_interval, interval_ends};
use convex_poly::{Poly, sum_hull};
use heading::start_speed;
use lane_paths::{LabelTable, Network};
use round_out::body_poly;
use spot_terms::{AccStart, Items, MOST_STEPS, MOST_TICKS};
use std::alloc::{AllocError, Global};

/// A lane polygon: what a body covers whose centre is in the cell with this number, and the first interval that the
/// cell is reached in.
#[derive(Drop)]
pub struct LanePoly {
    pub cell: u32,
    pub first: u32,
    pub poly: Poly,
}

/// A list of lane polygons.
pub type LanePolys = Items<LanePoly>;

/// How many cells a participant reaches in the intervals below `steps`, each of `k` ticks: as many lane polygons it has.
///
/// The labels are those of the network from the start's position, up to the reach length at the end of the last interval.
///
/// The only error is want of memory.
pub fn reached_cells(
    alloc: Global,
    net: &Network,
    labels: &LabelTable,
    s: &AccStart,
    k: u32,
    steps: u32,
) -> Result<u32, AllocError>
    requires start { IsStart s.now }
    requires ticks { (1 ≤ k) × (k ≤ MOST_TICKS) }
    requires steps { steps ≤ MOST_STEPS }
    requires labels { AreLabelsOf net.now s.now k steps labels.now }
    ensures { IfOk result (λ count. HasCount net.now s.now k steps count) }
{
    let ends = interval_ends(alloc, s, start_speed(&s.b), k, steps)?;
    let reached = labels.list();
    let cells = net.len();
    let mut count = 0;
    for x in reached {
        prove!(x.cell < cells);
        if first_interval(&ends, x).is_some() {
            count += 1;
        }
    }
    Ok(count)
}

/// The lane polygons of a participant in the intervals below `steps`, each of `k` ticks, by cell number. The only error is
/// want of memory.
///
/// A cell has one where the reach length at the end of such an interval is at least the cell's label; the first such
/// interval is the polygon's. The polygon is the hull of all sums of a corner of the cell and a corner of the body's
/// octagon. The labels are those of the network from the start's position, up to the reach length at the end of the last
/// interval. Each whole point of a lane motion's body at a tick of an interval lies in a polygon whose first interval is
/// that one or an earlier one.
pub fn lane_polys(
    alloc: Global,
    net: &Network,
    labels: &LabelTable,
    s: &AccStart,
    k: u32,
    steps: u32,
) -> Result<LanePolys, AllocError>
    requires start { IsStart s.now }
    requires ticks { (1 ≤ k) × (k ≤ MOST_TICKS) }
    requires steps { steps ≤ MOST_STEPS }
    requires labels { AreLabelsOf net.now s.now k steps labels.now }
    ensures exact { IfOk result (λ polys. (speed : ℕ) → IsStartSpeed s.now.b speed → AreLanePolygons net.now s.now speed k steps (map polygon_of polys)) }
    ensures holds { IfOk result (λ polys. (speed : ℕ) → IsStartSpeed s.now.b speed → HoldsLaneBodies net.now s.now speed k steps (map polygon_of polys)) }
{
    let ends = interval_ends(alloc, s, start_speed(&s.b), k, steps)?;
    let body = body_poly(s.r);
    let reached = labels.list();
    let mut polys = Vec::new(alloc);
    for x in reached {
        if let Some(first) = first_interval(&ends, x) {
            let poly = sum_hull(&net.cell(x.cell).poly, &body);
            polys.push(LanePoly {
                cell: x.cell,
                first,
                poly,
            })?;
        }
    }
    Ok(LanePolys::from_vec(polys))
}
