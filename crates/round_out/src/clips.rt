//! What is left of a polygon on one side of a line along an axis.

ghost use Rattle.std.specs.Prelude.{◌≡◌, ◌↔◌, ◌<◌, ◌≤◌, ◌+◌, ◌++◌, ◌-ℤ◌, ◌*ℤ◌, ◌<ℤ◌, ◌≤ℤ◌, neg_ℤ, IsTrue, length, map};
ghost use Rattle.std.specs.List.{AllByRecursion};
ghost use Rattle.spot_terms.specs.Clips.{IsClip, as_it_is, swapped, turned_and_swapped, x_turned};
ghost use Rattle.spot_terms.specs.Clips.{beside, clip_points as clip_points_of, clipped_edge};
ghost use Rattle.spot_terms.specs.Clips.{height_above as height_above_of, height_below as height_below_of};
ghost use Rattle.spot_terms.specs.Whole.{SizeAtMost};
ghost use Rattle.convex_poly.specs.Polygons.{IsPosition};
ghost use Rattle.round_out.specs.Clips.{GainsAtMostOne, KeepsSide, StaysInBox, StaysOnSide, reflection};
ghost use Rattle.round_out.specs.Growth.{GrowsBy, by_place, by_speed, rounded_by};

use arrayvec::ArrayVec;
use convex_poly::plane::{offset, times};
use convex_poly::{Poly, hull};
use spot_num::div_floor;
use spot_terms::Pt;

/// The polygon where x is at most `c`: the hull of its corners there and of the whole points next to where its edges
/// cross x = c. `None` exactly where no corner is there.
///
/// The polygon has at most 19 corners, and `c`, in µm, is at most 4·10^13 in size. Each whole point of the polygon on
/// this side is in the result, which has at most one corner more, none past the line, and reaches no further than the
/// polygon along the axes.
pub fn clip_x_max(p: &Poly, c: i64) -> Option<Poly>
    requires corners { length p.now ≤ 19 }
    requires line { SizeAtMost 40_000_000_000_000 c }
    ensures clip { IsClip as_it_is c p.now result }
    ensures keeps { KeepsSide as_it_is c p.now result }
    ensures side { StaysOnSide as_it_is c result }
    ensures few { GainsAtMostOne p.now result }
    ensures axes { StaysInBox p.now result }
    ensures growth { GrowsBy by_speed p.now result }
{
    clip(p, Side::XMax, c)
}

/// The polygon where x is at least `c`, as `clip_x_max` has it where x is at most `c`.
pub fn clip_x_min(p: &Poly, c: i64) -> Option<Poly>
    requires corners { length p.now ≤ 19 }
    requires line { SizeAtMost 40_000_000_000_000 c }
    ensures clip { IsClip x_turned (neg_ℤ c) p.now result }
    ensures keeps { KeepsSide x_turned (neg_ℤ c) p.now result }
    ensures side { StaysOnSide x_turned (neg_ℤ c) result }
    ensures few { GainsAtMostOne p.now result }
    ensures axes { StaysInBox p.now result }
    ensures growth { GrowsBy by_speed p.now result }
{
    clip(p, Side::XMin, -c)
}

/// The polygon where y, a speed in mm/s, is at most `c`, as `clip_x_max` has it where x is at most `c`.
pub fn clip_v_max(p: &Poly, c: i64) -> Option<Poly>
    requires corners { length p.now ≤ 19 }
    requires line { SizeAtMost 40_000_000_000_000 c }
    ensures clip { IsClip swapped c p.now result }
    ensures keeps { KeepsSide swapped c p.now result }
    ensures side { StaysOnSide swapped c result }
    ensures few { GainsAtMostOne p.now result }
    ensures axes { StaysInBox p.now result }
    ensures growth { GrowsBy by_place p.now result }
{
    clip(p, Side::VMax, c)
}

/// The polygon where y, a speed in mm/s, is at least `c`, as `clip_x_max` has it where x is at most `c`.
pub fn clip_v_min(p: &Poly, c: i64) -> Option<Poly>
    requires corners { length p.now ≤ 19 }
    requires line { SizeAtMost 40_000_000_000_000 c }
    ensures clip { IsClip turned_and_swapped (neg_ℤ c) p.now result }
    ensures keeps { KeepsSide turned_and_swapped (neg_ℤ c) p.now result }
    ensures side { StaysOnSide turned_and_swapped (neg_ℤ c) result }
    ensures few { GainsAtMostOne p.now result }
    ensures axes { StaysInBox p.now result }
    ensures growth { GrowsBy by_place p.now result }
{
    clip(p, Side::VMin, -c)
}

/// A side of a line along an axis.
#[derive(Clone, Copy)]
pub(crate) enum Side {
    /// x at most a bound.
    XMax,
    /// -x at most a bound.
    XMin,
    /// y at most a bound.
    VMax,
    /// -y at most a bound.
    VMin,
}

impl Side {
    /// The reflection, which undoes itself, that makes the side x at most a bound.
    fn reflect(self, p: Pt) -> Pt
        requires { IsPosition p }
        ensures value { result ≡ reflection self p }
        ensures position { IsPosition result }
    {
        match self {
            Side::XMax => p,
            Side::XMin => Pt { x: -p.x, y: p.y },
            Side::VMax => Pt { x: p.y, y: p.x },
            Side::VMin => Pt { x: -p.y, y: -p.x },
        }
    }
}

/// The polygon on the side, up to the bound `c`.
pub(crate) fn clip(p: &Poly, side: Side, c: i64) -> Option<Poly>
    requires corners { length p.now ≤ 19 }
    requires line { SizeAtMost 40_000_000_000_000 c }
    ensures clip { IsClip (reflection side) c p.now result }
    ensures keeps { KeepsSide (reflection side) c p.now result }
    ensures side { StaysOnSide (reflection side) c result }
    ensures few { GainsAtMostOne p.now result }
    ensures axes { StaysInBox p.now result }
    ensures growth { GrowsBy (rounded_by side) p.now result }
{
    let corners = p.corners();
    if are_on_side(corners, side, c) {
        return Some(p.copy());
    }
    if are_past(corners, side, c) {
        return None;
    }
    let mut points = ArrayVec::new();
    put_clip_points(&mut points, corners, side, c);
    Some(hull(points.as_slice()))
}

/// Whether no corner is past the line.
pub(crate) fn are_on_side(corners: &[Pt], side: Side, c: i64) -> bool
    requires { AllByRecursion IsPosition corners.now }
    ensures { IsTrue result ↔ AllByRecursion (λ v. (reflection side v).x ≤ℤ c) corners.now }
{
    for corner in corners {
        if side.reflect(*corner).x > c {
            return false;
        }
    }
    true
}

/// Whether each corner is past the line.
fn are_past(corners: &[Pt], side: Side, c: i64) -> bool
    requires { AllByRecursion IsPosition corners.now }
    ensures { IsTrue result ↔ AllByRecursion (λ v. c <ℤ (reflection side v).x) corners.now }
{
    for corner in corners {
        if side.reflect(*corner).x <= c {
            return false;
        }
    }
    true
}

/// Puts the points whose hull is the clip into `points`, in place of what is there.
fn put_clip_points(points: &mut ArrayVec<Pt, 64>, corners: &[Pt], side: Side, c: i64)
    requires some { 0 < length corners.now }
    requires few { length corners.now ≤ 19 }
    requires positions { AllByRecursion IsPosition corners.now }
    requires line { SizeAtMost 40_000_000_000_000 c }
    ensures { points.new.items ≡ map (reflection side) (clip_points_of c (map (reflection side) corners.now)) }
{
    points.clear();
    for i in 1..corners.len() {
        let (from, to) = (side.reflect(corners[i - 1]), side.reflect(corners[i]));
        push_edge(points, &from, &to, side, c);
    }
    let (from, to) = (
        side.reflect(corners[corners.len() - 1]),
        side.reflect(corners[0]),
    );
    push_edge(points, &from, &to, side, c);
}

/// Adds the start of a reflected edge, where it is on the side, and the whole points next to where the edge crosses the
/// line.
fn push_edge(points: &mut ArrayVec<Pt, 64>, from: &Pt, to: &Pt, side: Side, c: i64)
    requires room { length points.old.items ≤ 61 }
    requires from_in { IsPosition from.now }
    requires to_in { IsPosition to.now }
    requires line { SizeAtMost 40_000_000_000_000 c }
    ensures items { points.new.items ≡ points.old.items ++ map (reflection side) (clipped_edge c (from.now, to.now)) }
    ensures few { length points.new.items ≤ length points.old.items + 3 }
{
    if from.x <= c {
        points.push(side.reflect(*from));
    }
    if from.x < c && c < to.x {
        push_crossing(points, from, to, side, c);
    } else if to.x < c && c < from.x {
        push_crossing(points, to, from, side, c);
    }
}

/// Adds the whole points next to where an edge crosses the line, whose ends are `from` before and `to` past it.
fn push_crossing(points: &mut ArrayVec<Pt, 64>, from: &Pt, to: &Pt, side: Side, c: i64)
    requires room { length points.old.items ≤ 62 }
    requires from_in { IsPosition from.now }
    requires to_in { IsPosition to.now }
    requires before { from.now.x <ℤ c }
    requires past { c <ℤ to.now.x }
    ensures { points.new.items ≡ points.old.items ++ map (reflection side) (beside c from.now to.now) }
{
    let below = height_below(from, to, c);
    let above = height_above(from, to, c, below);
    points.push(side.reflect(Pt { x: c, y: below }));
    points.push(side.reflect(Pt { x: c, y: above }));
}

/// The y of the crossing, rounded down.
fn height_below(from: &Pt, to: &Pt, c: i64) -> i64
    requires from_in { IsPosition from.now }
    requires to_in { IsPosition to.now }
    requires before { from.now.x <ℤ c }
    requires past { c <ℤ to.now.x }
    ensures value { result ≡ height_below_of c from.now to.now }
    ensures size { SizeAtMost 40_000_000_000_000 result }
{
    let part = div_floor(rise(from, to, c), i128::from(offset(from.x, to.x)));
    (i128::from(from.y) + part) as i64
}

/// The y of the crossing, rounded up, from the same rounded down: it divides only once for both.
fn height_above(from: &Pt, to: &Pt, c: i64, below: i64) -> i64
    requires from_in { IsPosition from.now }
    requires to_in { IsPosition to.now }
    requires before { from.now.x <ℤ c }
    requires past { c <ℤ to.now.x }
    requires below { below ≡ height_below_of c from.now to.now }
    requires below_in { SizeAtMost 40_000_000_000_000 below }
    ensures value { result ≡ height_above_of c from.now to.now }
    ensures size { SizeAtMost 40_000_000_000_000 result }
{
    if times(offset(from.y, below), offset(from.x, to.x)) == rise(from, to, c) {
        below
    } else {
        below + 1
    }
}

/// How far the edge rises up to the line, times its width.
fn rise(from: &Pt, to: &Pt, c: i64) -> i128
    requires from_in { IsPosition from.now }
    requires to_in { IsPosition to.now }
    requires before { from.now.x <ℤ c }
    requires past { c <ℤ to.now.x }
    ensures { result ≡ (to.now.y -ℤ from.now.y) *ℤ (c -ℤ from.now.x) }
{
    times(offset(from.y, to.y), offset(from.x, c))
}
