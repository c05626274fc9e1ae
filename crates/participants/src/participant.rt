//! A participant: where it starts, and its octagons.

ghost use Rattle.std.specs.Prelude.{◌≡◌, ◌<◌, Some, length, slice_index_or, true, IfOk};
ghost use Rattle.spot_terms.specs.Ranges.{IsStart};
ghost use Rattle.participants.specs.Outsets.{HasLabels, HasPolygons, IsOutset, IsHolding};
ghost use Rattle.participants.specs.Pieces.{no_octagon, IsFound};
ghost use Rattle.participants.specs.Places.{piece_at};
ghost use Rattle.participants.specs.Predictions.{AreOctagons, HasSmallOctagons};

use crate::outset::{Outset, Start};
use acc_occupancy::AccRun;
use convex_poly::{OctNumbers, Poly};
use lane_occupancy::{LanePolys, lane_polys};
use lanelets::Network;
use spot_terms::{AccStart, Horizon, Items, Mover};
use std::alloc::{AllocError, Global};

/// A list of octagons.
pub type OctList = Items<OctNumbers>;

/// A participant: a dynamic obstacle whose initial time is 0.
#[derive(Drop)]
pub struct Participant {
    pub id: u32,
    pub start: AccStart,
    /// The start speed in mm/s.
    pub speed: u64,
    /// Whether it follows lanes.
    pub lane: bool,
    /// Where it follows lanes, its lane polygons by cell number, and else none.
    pub polys: LanePolys,
    /// Its octagon for each interval.
    pub octs: OctList,
}

impl Participant {
    /// What makes a piece of the participant: its octagon in an interval, and where it follows lanes the lane polygon of
    /// this number, with which the octagon is cut.
    pub(crate) fn parts(&self, interval: u32, which: u32) -> (&OctNumbers, Option<&Poly>)
        requires interval { interval < length self.now.octs }
        requires which { self.now.lane ≡ true → which < length self.now.polys }
        ensures octagon { result.0.now ≡ slice_index_or self.now.octs interval no_octagon }
        ensures piece { IsFound (Some (piece_at interval which self.now)) result.0.now result.1 }
    {
        let octagon = &self.octs.list()[interval as usize];
        if self.lane {
            (octagon, Some(&self.polys.list()[which as usize].poly))
        } else {
            (octagon, None)
        }
    }
}

// The octagons of the intervals.
fn octagons(alloc: Global, s: &AccStart, h: Horizon) -> Result<OctList, AllocError>
    requires start { IsStart s.now }
    ensures exact { IfOk result (λ octagons. AreOctagons s.now h.k h.steps octagons) }
    ensures small { IfOk result (λ octagons. HasSmallOctagons h.steps octagons) }
{
    let mut items = Vec::with_capacity(alloc, h.steps as usize)?;
    let mut run = AccRun::open(s, h.k);
    for _ in 0..h.steps {
        items.push(run.next())?;
    }
    Ok(OctList::from_vec(items))
}

// The lane polygons of a participant that follows lanes, and none of one that is free.
fn polygons(
    alloc: Global,
    net: &Network,
    outset: &Outset,
    h: Horizon,
) -> Result<LanePolys, AllocError>
    requires start { IsStart outset.now.start.start }
    requires labels { HasLabels net.now h.k h.steps outset.now.start.start outset.now.labels }
    ensures { IfOk result (λ polys. HasPolygons net.now h.k h.steps outset.now.start.start outset.now.labels polys) }
{
    match &outset.labels {
        Some(labels) => lane_polys(alloc, net, labels, &outset.start.start, h.k, h.steps),
        None => Ok(LanePolys::from_vec(Vec::new(alloc))),
    }
}

/// The participant that a dynamic obstacle is, with its occupancies as far as the prediction looks. The only error is
/// want of memory.
pub fn participant_of(
    alloc: Global,
    net: &Network,
    m: &Mover,
    outset: &Outset,
    h: Horizon,
) -> Result<Participant, AllocError>
    requires outset { IsOutset net.now h.k h.steps m.now outset.now }
    ensures { IfOk result (λ p. IsHolding net.now h.k h.steps m.now p) }
{
    let Start { start, speed } = outset.start;
    let octs = octagons(alloc, &start, h)?;
    let polys = polygons(alloc, net, outset, h)?;
    Ok(Participant {
        id: m.id,
        start,
        speed,
        lane: outset.labels.is_some(),
        polys,
        octs,
    })
}
