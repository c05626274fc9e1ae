//! Parts of polygons: between two places, and up to a speed. Each is made by two clips.

ghost use Rattle.std.specs.Prelude.{◌≤◌, [], ◌∷◌, length};
ghost use Rattle.spot_terms.specs.ClippedTo.{places, speeds};
ghost use Rattle.spot_terms.specs.Whole.{SizeAtMost};
ghost use Rattle.round_out.specs.Clips.{StaysInBox, StaysOnSide, reflection};
ghost use Rattle.round_out.specs.Parts.{GainsAtMostTwo, IsPart, KeepsParts, StaysBetween, StaysSlow};

use crate::clips::{Side, are_on_side, clip};
use convex_poly::Poly;

/// The part of a polygon at the places from `lo` to `hi`, in µm: clipped to `hi` and then to `lo`. `None` exactly where
/// one of the clips leaves nothing.
///
/// The polygon has at most 18 corners, and both places are at most 4·10^13 in size. Each whole point of the polygon at
/// these places is in the part, which has at most two corners more, none elsewhere, and reaches no further than the
/// polygon along the axes.
pub fn part_between(p: &Poly, lo: i64, hi: i64) -> Option<Poly>
    requires corners { length p.now ≤ 18 }
    requires low { SizeAtMost 40_000_000_000_000 lo }
    requires high { SizeAtMost 40_000_000_000_000 hi }
    ensures part { IsPart (places lo hi) p.now result }
    ensures keeps { KeepsParts (places lo hi) p.now result }
    ensures side { StaysBetween lo hi result }
    ensures few { GainsAtMostTwo p.now result }
    ensures axes { StaysInBox p.now result }
{
    clip_twice(p, Side::XMax, hi, Side::XMin, -lo)
}

/// The part of a polygon at speeds, in mm/s, of at most `v` in size: clipped to `v` and then to `-v`, as `part_between`
/// clips to places. `None` exactly where one of the clips leaves nothing.
pub fn slow_part(p: &Poly, v: i64) -> Option<Poly>
    requires corners { length p.now ≤ 18 }
    requires speed { SizeAtMost 40_000_000_000_000 v }
    ensures part { IsPart (speeds v) p.now result }
    ensures keeps { KeepsParts (speeds v) p.now result }
    ensures side { StaysSlow v result }
    ensures few { GainsAtMostTwo p.now result }
    ensures axes { StaysInBox p.now result }
{
    clip_twice(p, Side::VMax, v, Side::VMin, v)
}

/// The polygon on the first side, up to the bound `a`, and then on the second one, up to `b`.
fn clip_twice(p: &Poly, first: Side, a: i64, second: Side, b: i64) -> Option<Poly>
    requires corners { length p.now ≤ 18 }
    requires first { SizeAtMost 40_000_000_000_000 a }
    requires second { SizeAtMost 40_000_000_000_000 b }
    ensures part { IsPart ((reflection first, a) ∷ (reflection second, b) ∷ []) p.now result }
    ensures keeps { KeepsParts ((reflection first, a) ∷ (reflection second, b) ∷ []) p.now result }
    ensures on_first { StaysOnSide (reflection first) a result }
    ensures on_second { StaysOnSide (reflection second) b result }
    ensures few { GainsAtMostTwo p.now result }
    ensures axes { StaysInBox p.now result }
{
    if are_on_side(p.corners(), first, a) {
        // the first clip would only copy
        return clip(p, second, b);
    }
    match clip(p, first, a) {
        Some(half) => clip(&half, second, b),
        None => None,
    }
}
