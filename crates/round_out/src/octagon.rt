//! The octagons of discs about any point.

ghost use Rattle.std.specs.Prelude.{◌≡◌, ◌≤◌};
ghost use Rattle.spot_terms.specs.Bodies.{InDisc};
ghost use Rattle.spot_terms.specs.Reach.{disc_numbers, InOctagon};
ghost use Rattle.spot_terms.specs.Whole.{SizeAtMost};
ghost use Rattle.spot_terms.specs.declared.plain.Pt.{Pt as Point};
ghost use Rattle.round_out.specs.Octagons.{numbers_about};

use crate::disc::disc_number;
use convex_poly::{OctNumbers, Pt};
use spot_terms::MOST_COORDINATE;

/// The octagon of the disc of radius `r` about a point, in µm: it holds each whole point of the disc.
///
/// The point's coordinates are at most 10^13 in size, and `r` is at most 400 m.
pub fn octagon_at(p: Pt, r: u64) -> OctNumbers
    requires x { SizeAtMost MOST_COORDINATE p.x }
    requires y { SizeAtMost MOST_COORDINATE p.y }
    requires radius { r ≤ 400_000_000 }
    ensures value { result.n ≡ disc_numbers p r }
    ensures holds { (q : Point) → InDisc r p q → InOctagon result.n q }
{
    octagon_about(p, disc_number(0, r), disc_number(1, r))
}

// The octagon about a point that reaches so far along the axes and along the diagonals.
fn octagon_about(p: Pt, axis: i64, diagonal: i64) -> OctNumbers
    requires x { SizeAtMost MOST_COORDINATE p.x }
    requires y { SizeAtMost MOST_COORDINATE p.y }
    requires axis { SizeAtMost 800_000_000 axis }
    requires diagonal { SizeAtMost 800_000_000 diagonal }
    ensures { result.n ≡ numbers_about p axis diagonal }
{
    let sum = p.x + p.y;
    let difference = p.x - p.y;
    OctNumbers {
        n: [
            p.x + axis,
            sum + diagonal,
            p.y + axis,
            diagonal - difference,
            axis - p.x,
            diagonal - sum,
            axis - p.y,
            difference + diagonal,
        ],
    }
}
