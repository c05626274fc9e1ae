//! How far the segments between vectors stay from 0. The clearance of two vectors is the greatest whole number at most the
//! squared distance of 0 from the segment between them, in µm².

ghost use Rattle.std.specs.Prelude.{◌≡◌, ◌<◌, ◌≤◌, ◌/◌, ◌∷◌, [], length, min, pos, ◌+ℤ◌, ◌-ℤ◌, ◌*ℤ◌, ◌≤ℤ◌, ◌<ℤ◌};
ghost use Rattle.std.specs.List.{AllByRecursion};
ghost use Rattle.spot_terms.specs.Whole.{SizeAtMost};
ghost use Rattle.convex_poly.specs.Vectors.{IsShort};
ghost use Rattle.lane_paths.specs.Clearances.{IsLeastSize, IsLeastClearance, IsLesserClearance, ReachesTo};

use convex_poly::plane::{short_inner_product, short_turn};
use spot_terms::Pt;

/// The least clearance of two of the vectors. Each pair is looked at in one order only, and those of a vector with itself first.
pub(crate) fn least_clearance(vectors: &[Pt]) -> u128
    requires some { 0 < length vectors.now }
    requires small { AllByRecursion IsShort vectors.now }
    ensures is { IsLeastClearance vectors.now result }
    ensures within { result ≤ 2_000_000_000_000_000_000 }
{
    let mut least = least_size(vectors);
    for (i, u) in vectors.iter().enumerate() {
        least = lesser_clearance(least, u, &vectors[i + 1..]);
    }
    least
}

/// The least squared size of one of the vectors.
fn least_size(vectors: &[Pt]) -> u128
    requires some { 0 < length vectors.now }
    requires small { AllByRecursion IsShort vectors.now }
    ensures { IsLeastSize vectors.now result }
{
    let mut least = size(short_inner_product(&vectors[0], &vectors[0]));
    for u in vectors {
        least = least.min(size(short_inner_product(u, u)));
    }
    least
}

/// The least of `least`, which is at most the squared size of each vector, and the clearances of `u` and each of the vectors.
fn lesser_clearance(least: u128, u: &Pt, vectors: &[Pt]) -> u128
    requires u_in { IsShort u.now }
    requires small { AllByRecursion IsShort vectors.now }
    requires u_reached { ReachesTo least u.now }
    requires reached { AllByRecursion (ReachesTo least) vectors.now }
    ensures { IsLesserClearance least u.now vectors.now result }
{
    let mut lesser = least;
    for v in vectors {
        lesser = lesser_of(lesser, u, v);
    }
    lesser
}

/// The lesser of `least`, which is at most the squared sizes of two vectors, and their clearance. Only where the point nearest to 0
/// is between the two can the clearance be less.
fn lesser_of(least: u128, u: &Pt, v: &Pt) -> u128
    requires u_in { IsShort u.now }
    requires v_in { IsShort v.now }
    requires u_reached { ReachesTo least u.now }
    requires v_reached { ReachesTo least v.now }
    ensures { IsLesserClearance least u.now (v.now ∷ []) result }
{
    let uv = short_inner_product(u, v);
    let uu = short_inner_product(u, u);
    let vv = short_inner_product(v, v);
    if uu <= uv || vv <= uv {
        return least;
    }
    lesser_quotient(least, square(short_turn(u, v)), square_length(uu, uv, vv))
}

/// The lesser of `least` and a quotient, rounded down, which is computed only where it is less.
fn lesser_quotient(least: u128, of: u128, by: u128) -> u128
    requires least_in { least ≤ 2_000_000_000_000_000_000 }
    requires by_in { by ≤ 8_000_000_000_000_000_000 }
    requires some { 0 < by }
    ensures { result ≡ min least (of / by) }
{
    if least * by <= of { least } else { of / by }
}

/// A number that isn't negative.
fn size(n: i64) -> u128
    requires { pos 0 ≤ℤ n }
    ensures { pos result ≡ n }
{
    u128::from(n.unsigned_abs())
}

/// The square.
fn square(n: i64) -> u128
    requires { SizeAtMost 2_000_000_000_000_000_000 n }
    ensures { pos result ≡ n *ℤ n }
{
    let size = u128::from(n.unsigned_abs());
    size * size
}

/// The squared length of the segment between two vectors, from their inner products.
fn square_length(uu: i64, uv: i64, vv: i64) -> u128
    requires uu_in { SizeAtMost 2_000_000_000_000_000_000 uu }
    requires uv_in { SizeAtMost 2_000_000_000_000_000_000 uv }
    requires vv_in { SizeAtMost 2_000_000_000_000_000_000 vv }
    requires u_far { uv <ℤ uu }
    requires v_far { uv <ℤ vv }
    ensures value { pos result ≡ (uu -ℤ uv) +ℤ (vv -ℤ uv) }
    ensures some { 0 < result }
    ensures within { result ≤ 8_000_000_000_000_000_000 }
{
    u128::from(((uu - uv) + (vv - uv)).unsigned_abs())
}
