//! Octagons by their eight numbers.

ghost use Rattle.std.specs.Prelude.{◌≡◌, ◌↔◌, ◌≤◌, ◌≤ℤ◌, ℤ, IsTrue, map, length};
ghost use Rattle.std.specs.List.{AllByRecursion};
ghost use Rattle.spot_terms.specs.Lists.{Pairwise};
ghost use Rattle.spot_terms.specs.Whole.{SizeAtMost};
ghost use Rattle.spot_terms.specs.Reach.{normals, along, InOctagon};
ghost use Rattle.convex_poly.specs.OctRows.{HasRows, IsEastwards, IsWestwards};
ghost use Rattle.convex_poly.specs.Runs.{IsRun, pt};

use spot_terms::Pt;

/// An octagon: of each of the normals (1, 0), (1, 1), (0, 1), (-1, 1), (-1, 0), (-1, -1), (0, -1) and
/// (1, -1), in this order, the greatest value of normal · point, in µm. It holds all points up to these eight numbers;
/// some of them may be redundant, and there may be no such point.
#[derive(Clone, Copy, Debug, PartialEq, Eq)]
pub struct OctNumbers {
    pub n: [i64; 8],
}

impl OctNumbers {
    /// Whether the point lies in the octagon: normal · point is at most the number, for each of the eight.
    pub fn contains(&self, p: Pt) -> bool
        requires x { SizeAtMost 40_000_000_000_000 p.x }
        requires y { SizeAtMost 40_000_000_000_000 p.y }
        requires numbers { AllByRecursion (SizeAtMost 100_000_000_000_000) self.now.n }
        ensures { IsTrue result ↔ InOctagon self.now.n p }
    {
        are_at_most(&places(p), &self.n)
    }

    /// The least and the greatest whole x with (x, `y0`) and (x, `y1`) both in the octagon; all between are in it too.
    /// `None` exactly where there is none.
    pub fn run(&self, y0: i64, y1: i64) -> Option<(i64, i64)>
        requires y0 { SizeAtMost 40_000_000_000_000 y0 }
        requires y1 { SizeAtMost 40_000_000_000_000 y1 }
        requires numbers { AllByRecursion (SizeAtMost 100_000_000_000_000) self.now.n }
        ensures { IsRun (λ x. InOctagon self.now.n (pt x y0) × InOctagon self.now.n (pt x y1)) result }
    {
        run_between(&self.n, y0.min(y1), y0.max(y1))
    }
}

/// The least and the greatest whole x with (x, `low`) and (x, `high`) both in the octagon of the numbers.
fn run_between(n: &[i64; 8], low: i64, high: i64) -> Option<(i64, i64)>
    requires order { low ≤ℤ high }
    requires low { SizeAtMost 40_000_000_000_000 low }
    requires high { SizeAtMost 40_000_000_000_000 high }
    requires numbers { AllByRecursion (SizeAtMost 100_000_000_000_000) n.now }
    ensures { IsRun (λ x. InOctagon n.now (pt x low) × InOctagon n.now (pt x high)) result }
{
    let first = first_x(n, low, high);
    let last = last_x(n, low, high);
    if has_rows(n, low, high) && first <= last {
        Some((first, last))
    } else {
        None
    }
}

/// Whether both rows are within the numbers of (0, 1) and (0, -1).
fn has_rows(n: &[i64; 8], low: i64, high: i64) -> bool
    requires low { SizeAtMost 40_000_000_000_000 low }
    requires numbers { AllByRecursion (SizeAtMost 100_000_000_000_000) n.now }
    ensures { IsTrue result ↔ HasRows n.now low high }
{
    high <= n[2] && -low <= n[6]
}

/// The least x that the numbers of (-1, 1), (-1, 0) and (-1, -1) leave both rows.
fn first_x(n: &[i64; 8], low: i64, high: i64) -> i64
    requires low { SizeAtMost 40_000_000_000_000 low }
    requires high { SizeAtMost 40_000_000_000_000 high }
    requires numbers { AllByRecursion (SizeAtMost 100_000_000_000_000) n.now }
    ensures { (x : ℤ) → (result ≤ℤ x) ↔ IsEastwards n.now low high x }
{
    (-n[4]).max(high - n[3]).max(-n[5] - low)
}

/// The greatest x that the numbers of (1, 0), (1, 1) and (1, -1) leave both rows.
fn last_x(n: &[i64; 8], low: i64, high: i64) -> i64
    requires low { SizeAtMost 40_000_000_000_000 low }
    requires high { SizeAtMost 40_000_000_000_000 high }
    requires numbers { AllByRecursion (SizeAtMost 100_000_000_000_000) n.now }
    ensures { (x : ℤ) → (x ≤ℤ result) ↔ IsWestwards n.now low high x }
{
    n[0].min(n[1] - high).min(n[7] + low)
}

/// normal · point, for each of the eight normals.
fn places(p: Pt) -> [i64; 8]
    requires x { SizeAtMost 40_000_000_000_000 p.x }
    requires y { SizeAtMost 40_000_000_000_000 p.y }
    ensures { result ≡ map (λ n. along n p) normals }
{
    let sum = p.x + p.y;
    let difference = p.x - p.y;
    [p.x, sum, p.y, -difference, -p.x, -sum, -p.y, difference]
}

/// Whether each place is at most the number beside it.
fn are_at_most(places: &[i64], numbers: &[i64]) -> bool
    requires { length places.now ≡ length numbers.now }
    ensures { IsTrue result ↔ Pairwise (λ place number. place ≤ℤ number) places.now numbers.now }
{
    for (i, place) in places.iter().enumerate() {
        if *place > numbers[i] {
            return false;
        }
    }
    true
}
