//! Where the pieces of each interval are kept.

ghost use Rattle.std.specs.Prelude.{◌≡◌, ◌+◌, ◌<◌, ◌≤◌, ◌++◌, ℕ, List, Some, length, slice_get, slice_index_or, IfOk};
ghost use Rattle.std.specs.List.Sorted.{IsNonDecreasingBy};
ghost use Rattle.spot_terms.specs.Lists.{Pairwise};
ghost use Rattle.spot_terms.specs.Pieces.{Piece};
ghost use Rattle.participants.specs.Pieces.{participant_pieces};
ghost use Rattle.participants.specs.Places.{nobody, places_in, ArePlaces, HaveFewPolygons, IsCounted, IsPlaceOf};

use crate::participant::Participant;
use convex_poly::BoundingBox;
use spot_terms::{IdList, MOST_LANE_POLYGONS, MOST_OBSTACLES, MOST_STEPS};
use std::alloc::{AllocError, Global};
use std::marker::Model;

/// Which participant a piece is of, which of its lane polygons the octagon is cut with where it follows lanes, the first
/// interval that has the piece, and the box round the lane polygon.
#[derive(Clone, Copy)]
pub struct Place {
    pub who: u32,
    pub which: u32,
    pub first: u32,
    pub bounds: Option<BoundingBox>,
}

// How many of all places are a block.
const BLOCK: usize = 16;

// How many places an interval has, and how many of them stand before each block.
#[derive(Drop)]
struct Interval {
    count: u32,
    before: IdList,
}

/// The places of all participants, in document order. An interval has those whose first interval isn't later.
///
/// A list of its own for each interval would be the longer the more intervals there are, 100 at most: many times the lane
/// polygons themselves. So an interval has only a number for each block of 16 places. These numbers rise, so that a binary
/// search finds the block of a place, and at most 16 places are looked at, however few of them are the interval's.
#[derive(Drop)]
pub struct Places {
    items: Vec<Place>,
    intervals: Vec<Interval>,
}

impl Model for Places {
    ghost use Rattle.std.specs.Prelude.{length};
    ghost use Rattle.participants.specs.Places.{PlaceTable, AreCounted};

    ghost Value = { PlaceTable };

    ghost view = { λ t. record { places = t.items.items; intervals = length t.intervals.items } };

    ghost invariant = { λ t. AreCounted t.items.items t.intervals.items };
}

impl Places {
    /// How many places an interval has.
    pub fn count(&self, interval: u32) -> u32
        requires { interval < self.now.intervals }
        ensures { result ≡ length (places_in interval self.now.places) }
    {
        self.intervals[interval as usize].count
    }

    /// All places, in document order.
    pub fn list(&self) -> &[Place]
        ensures { result.now ≡ self.now.places }
    {
        &self.items
    }

    /// The place of this rank among those of an interval.
    pub fn get(&self, interval: u32, rank: u32) -> Place
        requires interval { interval < self.now.intervals }
        requires rank { rank < length (places_in interval self.now.places) }
        ensures { slice_get (places_in interval self.now.places) rank ≡ Some result }
    {
        let before = self.intervals[interval as usize].before.list();
        let block = last_up_to(before, rank);
        let from = block * BLOCK;
        let to = (from + BLOCK).min(self.items.len());
        let mut left = rank - before[block];
        for at in from..to {
            let place = self.items[at];
            if place.first <= interval {
                if left == 0 {
                    return place;
                }
                left -= 1;
            }
        }
        unreachable!()
    }
}

// Which is the last of these numbers that isn't above `most`, where none is below an earlier one.
fn last_up_to(numbers: &[u32], most: u32) -> usize
    requires rise { IsNonDecreasingBy (λ n. n) numbers.now }
    requires some { 0 < length numbers.now }
    requires first { slice_index_or numbers.now 0 0 ≤ most }
    ensures within { result < length numbers.now }
    ensures up_to { slice_index_or numbers.now result 0 ≤ most }
    ensures next { result + 1 < length numbers.now → most < slice_index_or numbers.now (result + 1) 0 }
{
    numbers.partition_point(|n| *n <= most) - 1
}

// Appends the places of one participant.
fn put_places(
    places: &mut Vec<Place>,
    participants: &[Participant],
    who: u32,
) -> Result<(), AllocError>
    requires who { who < length participants.now }
    requires few { length (slice_index_or participants.now who nobody).polys ≤ MOST_LANE_POLYGONS }
    ensures pieces { IfOk result (λ _. (interval : ℕ) (before : List Piece) → Pairwise (IsPlaceOf participants.now interval) (places_in interval places.old.items) before
        → Pairwise (IsPlaceOf participants.now interval) (places_in interval places.new.items) (before ++ participant_pieces interval (slice_index_or participants.now who nobody))) }
    ensures few { IfOk result (λ _. length places.new.items ≤ length places.old.items + MOST_LANE_POLYGONS) }
{
    let p = &participants[who as usize];
    if !p.lane {
        places.push(Place {
            who,
            which: 0,
            first: 0,
            bounds: None,
        })?;
        return Ok(());
    }
    for (which, polygon) in p.polys.list().iter().enumerate() {
        places.push(Place {
            who,
            which: which as u32,
            first: polygon.first,
            bounds: Some(polygon.poly.bounding_box()),
        })?;
    }
    Ok(())
}

// The places of all participants.
fn all_places(alloc: Global, participants: &[Participant]) -> Result<Vec<Place>, AllocError>
    requires few { length participants.now ≤ MOST_OBSTACLES }
    requires polygons { HaveFewPolygons participants.now }
    ensures places { IfOk result (λ places. (interval : ℕ) → ArePlaces participants.now interval (places_in interval places.items)) }
    ensures few { IfOk result (λ places. length places.items ≤ 1_073_741_824) }
{
    let mut places = Vec::new(alloc);
    for who in 0..participants.len() {
        put_places(&mut places, participants, who as u32)?;
    }
    Ok(places)
}

// Counts the places of an interval, all of them and those before each block.
fn counted(alloc: Global, places: &[Place], interval: u32) -> Result<Interval, AllocError>
    requires { length places.now ≤ 1_073_741_824 }
    ensures { IfOk result (λ counted. IsCounted places.now interval counted) }
{
    let mut count: u32 = 0;
    let mut before = Vec::new(alloc);
    for (at, place) in places.iter().enumerate() {
        if at % BLOCK == 0 {
            before.push(count)?;
        }
        if place.first <= interval {
            count += 1;
        }
    }
    let before = IdList::from_vec(before);
    Ok(Interval { count, before })
}

/// The places of all participants in the intervals below `steps`. The only error is want of memory.
pub fn places_of(
    alloc: Global,
    participants: &[Participant],
    steps: u32,
) -> Result<Places, AllocError>
    requires few { length participants.now ≤ MOST_OBSTACLES }
    requires polygons { HaveFewPolygons participants.now }
    requires steps { steps ≤ MOST_STEPS }
    ensures intervals { IfOk result (λ table. table.intervals ≡ steps) }
    ensures places { IfOk result (λ table. (interval : ℕ) → ArePlaces participants.now interval (places_in interval table.places)) }
    ensures few { IfOk result (λ table. length table.places ≤ 1_073_741_824) }
{
    let items = all_places(alloc, participants)?;
    let mut intervals = Vec::new(alloc);
    for interval in 0..steps {
        intervals.push(counted(alloc, &items, interval)?)?;
    }
    Ok(Places { items, intervals })
}
