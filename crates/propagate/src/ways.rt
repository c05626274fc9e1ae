//! How far the corners of a polygon lead in a step in which no speed changes.

ghost use Rattle.std.specs.Prelude.{◌≡◌, ◌<◌, ◌+ℤ◌, ◌*ℤ◌, pos, length};
ghost use Rattle.std.specs.List.{AllByRecursion};
ghost use Rattle.std.specs.Int.{int_max, int_min};
ghost use Rattle.spot_terms.specs.Whole.{SizeAtMost, Within};
ghost use Rattle.propagate.specs.Children.{IsStepPoint};
ghost use Rattle.propagate.specs.Ways.{AreWays};

use convex_poly::Pt;

/// The least and the greatest of some numbers.
#[derive(Clone, Copy)]
pub struct Span {
    pub least: i64,
    pub greatest: i64,
}

impl Span {
    /// The span of one number.
    fn of(number: i64) -> Span
        ensures least { result.least ≡ number }
        ensures greatest { result.greatest ≡ number }
    {
        Span {
            least: number,
            greatest: number,
        }
    }

    /// Takes in a further number.
    fn widen(&mut self, number: i64)
        ensures least { self.new.least ≡ int_min self.old.least number }
        ensures greatest { self.new.greatest ≡ int_max self.old.greatest number }
    {
        self.least = self.least.min(number);
        self.greatest = self.greatest.max(number);
    }
}

/// The spans of the corners of a polygon: of their speeds, of their places, of the next places, which they lead to in a
/// step at their speeds, and of the sums of both places.
#[derive(Clone, Copy)]
pub struct Ways {
    pub speed: Span,
    pub place: Span,
    pub next: Span,
    pub both: Span,
}

/// The spans of the corners, for a step of `k` ticks.

pub fn ways_of(corners: &[Pt], k: i64) -> Ways
    requires some { 0 < length corners.now }
    requires near { AllByRecursion IsStepPoint corners.now }
    requires ticks { Within (pos 1) (pos 1000) k }
    ensures { AreWays k corners.now result }
{
    let first = corners[0];
    let next = next_place(first, k);
    let mut ways = Ways {
        speed: Span::of(first.y),
        place: Span::of(first.x),
        next: Span::of(next),
        both: Span::of(first.x + next),
    };
    for i in 1..corners.len() {
        let corner = corners[i];
        let next = next_place(corner, k);
        ways.speed.widen(corner.y);
        ways.place.widen(corner.x);
        ways.next.widen(next);
        ways.both.widen(corner.x + next);
    }
    ways
}

/// The place to which a corner leads in `k` ticks at its speed.
fn next_place(corner: Pt, k: i64) -> i64
    requires near { IsStepPoint corner }
    requires ticks { Within (pos 1) (pos 1000) k }
    ensures value { result ≡ corner.x +ℤ k *ℤ corner.y }
    ensures size { SizeAtMost 31_000_000_000_000 result }
{
    corner.x + k * corner.y
}
