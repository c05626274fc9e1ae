//! The prediction of a scenario.

ghost use Rattle.std.specs.Prelude.{◌≡◌, ◌-◌, ◌<◌, ◌≤◌, ℕ, length, slice_get, slice_index_or, IfOk, IfErr, IsTrue};
ghost use Rattle.std.specs.List.{AllByRecursion};
ghost use Rattle.spot_terms.specs.Participants.{starting, HasPairs};
ghost use Rattle.spot_terms.specs.Ranges.{IsFixedInRange};
ghost use Rattle.spot_terms.specs.Reach.{disc_numbers};
ghost use Rattle.spot_terms.specs.Lists.{Pairwise};
ghost use Rattle.spot_terms.specs.Pieces.{Hits, range_of};
ghost use Rattle.spot_terms.specs.Whole.{Within};
ghost use Rattle.spot_terms.specs.declared.plain.Pt.{Pt as Point};
ghost use Rattle.carve.proofs.PieceLaws.{hits_upright, hits_in_range};
ghost use Rattle.participants.specs.Outsets.{AreGathered};
ghost use Rattle.participants.specs.Pieces.{no_octagon, pieces_at, HasOutline, HasPieces, IsFound};
ghost use Rattle.participants.specs.Places.{nobody};
ghost use Rattle.participants.specs.Predictions.{HoldsMotions, IsSmall, IsSmallIn, IsFixedOctagon, IsPredictFault, IsPrediction, PairsAreOne};

use crate::outset::outset_of;
use crate::participant::{Participant, participant_of};
use crate::pieces::{cut_run, is_piece_beside, rows_met, span_of};
use crate::places::{Place, Places, places_of};
use base_sets::OuterBox;
use carve::Occupied;
use convex_poly::{BoundingBox, OctNumbers, Poly};
use lane_paths::LabelSearch;
use lanelets::Network;
use round_out::octagon_at;
use spot_terms::{Fixed, Horizon, MOST_LANE_POLYGONS, MOST_STEPS, Pt, Scenario};
use std::alloc::{AllocError, Global};
use std::marker::Model;
use thiserror::Error;

/// Why there is no prediction.
#[derive(Clone, Copy, Debug, PartialEq, Eq, Error)]
pub enum PredictFault {
    /// More pairs of a participant and a lane polygon than 262,144.
    #[error("{0} lane polygons are too many")]
    TooManyLanePolygons(u64),
    /// There was no memory.
    #[error("out of memory")]
    Memory,
}

impl From<AllocError> for PredictFault {
    ghost use Rattle.participants.specs.declared.prediction.PredictFault.TheVariants.{Memory};

    ghost from_gives = { λ _ fault. fault ≡ Memory };

    fn from(_error: AllocError) -> PredictFault {
        PredictFault::Memory
    }
}

/// The participants of a scenario and the octagons of its static obstacles, in document order, and what they occupy at
/// each step.
///
/// The pieces of a step are the octagons of the static obstacles, then those of each participant in the interval before
/// the step, or in the first one at step 0: its octagon where it is free, and else its octagon cut with each lane polygon
/// that is reached by then.
#[derive(Drop)]
pub struct Prediction {
    participants: Vec<Participant>,
    fixed: Vec<(u32, OctNumbers)>,
    steps: u32,
    places: Places,
}

impl Model for Prediction {
    ghost use Rattle.participants.specs.Places.{IsKept};
    ghost use Rattle.participants.specs.Predictions.{Occupancies};

    ghost Value = { Occupancies };

    ghost view = { λ p. record { participants = p.participants.items; fixed = p.fixed.items; steps = p.steps } };

    ghost invariant = { λ p. IsKept (record { participants = p.participants.items; fixed = p.fixed.items; steps = p.steps }) p.places };
}

impl Prediction {
    /// The participants: the dynamic obstacles whose initial time is 0.
    pub fn list(&self) -> &[Participant]
        ensures { result.now ≡ self.now.participants }
    {
        &self.participants
    }

    /// The ids of the static obstacles, each with its octagon for all time.
    pub fn fixed(&self) -> &[(u32, OctNumbers)]
        ensures { result.now ≡ self.now.fixed }
    {
        &self.fixed
    }

    /// What makes a piece of a step, in the order of the step's pieces: an octagon, whose numbers are at most 10^14 µm in
    /// size, and the lane polygon that it is cut with, where there is one.
    pub fn parts(&self, step: u32, piece: u32) -> (&OctNumbers, Option<&Poly>)
        requires step { step ≤ self.now.steps }
        requires piece { piece < length (pieces_at self.now step) }
        ensures small { IsSmall result.0.now }
        ensures piece { IsFound (slice_get (pieces_at self.now step) piece) result.0.now result.1 }
    {
        let fixed = self.fixed.len() as u32;
        if piece < fixed {
            return (&self.fixed[piece as usize].1, None);
        }
        let interval = interval_of(step);
        let place = self.places.get(interval, piece - fixed);
        self.participants[place.who as usize].parts(interval, place.which)
    }

    // What tells the range of a piece of a step: its octagon, and the box round the lane polygon that it is cut with.
    fn outline(&self, step: u32, piece: u32) -> (&OctNumbers, Option<BoundingBox>)
        requires step { step ≤ self.now.steps }
        requires piece { piece < length (pieces_at self.now step) }
        ensures small { IsSmall result.0.now }
        ensures piece { HasOutline (pieces_at self.now step) piece result.0.now result.1 }
    {
        let fixed = self.fixed.len() as u32;
        if piece < fixed {
            return (&self.fixed[piece as usize].1, None);
        }
        let interval = interval_of(step);
        let place = self.places.get(interval, piece - fixed);
        let octagon = octagon_in(&self.participants, interval, &place);
        (octagon, place.bounds)
    }

    // Whether a piece of a step is seen to have no point whose x is from `left` to `right`.
    fn is_beside(&self, step: u32, piece: u32, left: i64, right: i64) -> bool
        requires step { step ≤ self.now.steps }
        requires piece { piece < length (pieces_at self.now step) }
        ensures { IsTrue result → (q : Point) → Hits (pieces_at self.now step) piece q → Within left right q.x → ⊥ }
    {
        let (octagon, bounds) = self.outline(step, piece);
        is_piece_beside(octagon, &bounds, left, right)
    }
}

impl Occupied for Prediction {
    ghost count = { λ o step. length (pieces_at o step) };

    ghost hits = { λ o step piece q. Hits (pieces_at o step) piece q };

    ghost range = { λ o step piece. range_of (pieces_at o step) piece };

    ghost last = { λ o. o.steps };

    ghost far = { λ _. 40_000_000_000_000 };

    fn pieces(&self, step: u32) -> u32 {
        self.fixed.len() as u32 + self.places.count(interval_of(step))
    }

    fn span(&self, step: u32, piece: u32) -> Option<(i64, i64)> {
        let (octagon, bounds) = self.outline(step, piece);
        span_of(octagon, &bounds)
    }

    fn rows(&self, step: u32, b: &OuterBox, g: i64) -> u64 {
        let mut rows = 0;
        for f in &self.fixed {
            rows += rows_met(span_of(&f.1, &None), b, g);
        }
        let interval = interval_of(step);
        for place in self.places.list() {
            if place.first <= interval {
                let octagon = octagon_in(&self.participants, interval, place);
                rows += rows_met(span_of(octagon, &place.bounds), b, g);
            }
        }
        rows
    }

    fn run(&self, step: u32, piece: u32, y0: i64, y1: i64) -> Option<(i64, i64)> {
        let (octagon, polygon) = self.parts(step, piece);
        match polygon {
            Some(polygon) => cut_run(octagon, polygon, y0, y1),
            None => octagon.run(y0, y1),
        }
    }

    fn next(&self, step: u32, from: u32, left: i64, right: i64) -> u32 {
        let count = self.pieces(step);
        let mut piece = from;
        while piece < count && self.is_beside(step, piece, left, right) {
            piece += 1;
        }
        piece
    }

    ghost upright = { λ o step piece x y0 y y1 low high a b. hits_upright (pieces_at o step) piece x y0 y y1 low high a b };

    ghost in_range = { λ o step piece q h. hits_in_range (pieces_at o step) piece q h };
}

// The interval before a step, or the first one at step 0.
fn interval_of(step: u32) -> u32
    ensures { result ≡ step - 1 }
{
    step.saturating_sub(1)
}

// The octagon of a place's participant in an interval.
fn octagon_in<'p>(participants: &'p [Participant], interval: u32, place: &Place) -> &'p OctNumbers
    requires who { place.now.who < length participants.now }
    requires interval { interval < length (slice_index_or participants.now place.now.who nobody).octs }
    ensures { result.now ≡ slice_index_or (slice_index_or participants.now place.now.who nobody).octs interval no_octagon }
{
    &participants[place.who as usize].octs.list()[interval as usize]
}

// The octagon of a static obstacle's disc.
fn octagon_of(f: &Fixed) -> OctNumbers
    requires { IsFixedInRange f.now }
    ensures value { result.n ≡ disc_numbers (record { x = f.now.x; y = f.now.y }) f.now.enclosing }
    ensures small { IsSmall result }
{
    octagon_at(Pt { x: f.x, y: f.y }, f.enclosing)
}

// What is gathered of the obstacles that start at time 0: the number of the pairs of one of them and a lane polygon, and
// the participants that they are, where there aren't too many pairs.
#[derive(Drop)]
struct Gathered {
    pairs: u64,
    participants: Vec<Participant>,
}

// Goes once over the obstacles that start at time 0, as their labels take most of the time. From where there are too many
// pairs on, no participant is made, and the pairs are only counted.
fn gather(alloc: Global, s: &Scenario, net: &Network, steps: u32) -> Result<Gathered, AllocError>
    requires steps { steps ≤ MOST_STEPS }
    ensures { IfOk result (λ g. AreGathered net.now s.now.step steps (starting s.now.movers) g.pairs g.participants.items) }
{
    let h = Horizon { k: s.step, steps };
    let mut pairs: u64 = 0;
    let mut search = LabelSearch::new(alloc);
    let mut participants = Vec::new(alloc);
    for m in s.movers.list() {
        if m.time == 0 {
            let outset = outset_of(alloc, &mut search, net, m, h)?;
            pairs += u64::from(outset.count);
            if pairs <= MOST_LANE_POLYGONS {
                participants.push(participant_of(alloc, net, m, &outset, h)?)?;
            }
        }
    }
    Ok(Gathered {
        pairs,
        participants,
    })
}

fn fixed_of(alloc: Global, s: &Scenario) -> Result<Vec<(u32, OctNumbers)>, AllocError>
    ensures exact { IfOk result (λ list. Pairwise IsFixedOctagon s.now.fixed list.items) }
    ensures small { IfOk result (λ list. AllByRecursion (λ f. IsSmall f.1) list.items) }
{
    let mut fixed = Vec::new(alloc);
    for f in s.fixed.list() {
        fixed.push((f.id, octagon_of(f)))?;
    }
    Ok(fixed)
}

// The prediction that these participants make.
fn prediction_of(
    alloc: Global,
    s: &Scenario,
    participants: Vec<Participant>,
    steps: u32,
) -> Result<Prediction, AllocError>
    requires steps { (1 ≤ steps) × (steps ≤ MOST_STEPS) }
    requires few { length participants.items ≤ length s.now.movers }
    requires small { AllByRecursion (IsSmallIn steps) participants.items }
    ensures participants { IfOk result (λ p. p.participants ≡ participants.items) }
    ensures fixed { IfOk result (λ p. Pairwise IsFixedOctagon s.now.fixed p.fixed) }
    ensures steps { IfOk result (λ p. p.steps ≡ steps) }
{
    let fixed = fixed_of(alloc, s)?;
    let places = places_of(alloc, &participants, steps)?;
    Ok(Prediction {
        participants,
        fixed,
        steps,
        places,
    })
}

/// Predicts where the participants of a scenario may be, in each of so many intervals of its step, 1 to 100. The network is
/// that of the scenario's lanelets.
///
/// `TooManyLanePolygons` comes exactly where the participants have more than 262,144 lane polygons together, and says how
/// many; the only other fault is want of memory.
pub fn predict(
    alloc: Global,
    s: &Scenario,
    net: &Network,
    steps: u32,
) -> Result<Prediction, PredictFault>
    requires network { net.now ≡ s.now.lanelets.entries }
    requires steps { (1 ≤ steps) × (steps ≤ MOST_STEPS) }
    ensures ok { IfOk result (λ p. IsPrediction s.now steps p) }
    ensures pieces { IfOk result (λ p. HasPieces s.now steps p) }
    ensures few { IfOk result (λ p. (n : ℕ) → HasPairs s.now steps n → n ≤ MOST_LANE_POLYGONS) }
    ensures holds { IfOk result (λ p. AllByRecursion (λ q. HoldsMotions s.now.lanelets.entries s.now.step steps q) p.participants) }
    ensures fault { IfErr result (λ fault. IsPredictFault s.now steps fault) }
{
    let gathered = gather(alloc, s, net, steps)?;
    if gathered.pairs > MOST_LANE_POLYGONS {
        return Err(PredictFault::TooManyLanePolygons(gathered.pairs));
    }
    Ok(prediction_of(alloc, s, gathered.participants, steps)?)
}

/// A scenario has one number of pairs of a participant and a lane polygon.
pub fn a_scenario_has_one_number_of_pairs()
    ensures { PairsAreOne }
{}
