//! The whole x of two rows that lie in a polygon: a span that each edge narrows.
ghost use Rattle.std.specs.Prelude.{◌≡◌, ◌↔◌, ◌<ℤ◌, ◌≤ℤ◌, ◌-ℤ◌, ◌*ℤ◌, pos, IsTrue};
ghost use Rattle.spot_terms.specs.Whole.{SizeAtMost, Within};
ghost use Rattle.convex_poly.specs.Polygons.{IsPolygon, IsPosition};
ghost use Rattle.convex_poly.specs.Runs.{AreLeft, IsBetween, IsBoxed, IsInRows, IsQuotient, IsRun, IsSpan, IsStart};

use crate::plane::{offset, times};
use spot_num::div_floor;
use spot_terms::Pt;

/// The least and the greatest whole x with (x, `y0`) and (x, `y1`) both in the hull of the corners.
pub(crate) fn run_of(corners: &[Pt], y0: i64, y1: i64) -> Option<(i64, i64)>
    requires polygon { IsPolygon corners.now }
    requires y0 { SizeAtMost 40_000_000_000_000 y0 }
    requires y1 { SizeAtMost 40_000_000_000_000 y1 }
    ensures { IsRun (IsInRows corners.now y0 y1) result }
{
    let mut span = start(corners, y0, y1)?;
    for i in 1..corners.len() {
        span = narrowed(span, &corners[i - 1], &corners[i], y0, y1)?;
    }
    narrowed(span, &corners[corners.len() - 1], &corners[0], y0, y1)
}

/// Where the edges alone don't bound the polygon, for it is a point or a segment, the span of its box.
fn start(corners: &[Pt], y0: i64, y1: i64) -> Option<(i64, i64)>
    requires { IsPolygon corners.now }
    ensures { IsRun (IsStart corners.now y0 y1) result }
{
    match corners {
        [only] => boxed(only, only, y0, y1),
        [from, to] => boxed(from, to, y0, y1),
        _ => Some((-40_000_000_000_000, 40_000_000_000_000)),
    }
}

/// The span of a box, where both rows meet it.
fn boxed(from: &Pt, to: &Pt, y0: i64, y1: i64) -> Option<(i64, i64)>
    requires ordered { from.now.x ≤ℤ to.now.x }
    requires from_in { IsPosition from.now }
    requires to_in { IsPosition to.now }
    ensures { IsRun (IsBoxed from.now to.now y0 y1) result }
{
    if is_between(from.y, to.y, y0) && is_between(from.y, to.y, y1) {
        Some((from.x, to.x))
    } else {
        None
    }
}

/// Whether `y` lies between the two, whichever of them is less.
fn is_between(a: i64, b: i64, y: i64) -> bool
    ensures { IsTrue result ↔ IsBetween a b y }
{
    (a <= y && y <= b) || (b <= y && y <= a)
}

/// The part of the span where both rows are left of the edge from `a` to `b`, or on it.
fn narrowed(span: (i64, i64), a: &Pt, b: &Pt, y0: i64, y1: i64) -> Option<(i64, i64)>
    requires span { IsSpan span }
    requires a_in { IsPosition a.now }
    requires b_in { IsPosition b.now }
    requires y0 { SizeAtMost 40_000_000_000_000 y0 }
    requires y1 { SizeAtMost 40_000_000_000_000 y1 }
    ensures { IsRun (λ x. Within span.0 span.1 x × AreLeft a.now b.now y0 y1 x) result }
{
    let room = room_beside(a, b, y0).min(room_beside(a, b, y1));
    let rise = offset(a.y, b.y);
    if rise > 0 {
        lowered(span, a.x, room, rise)
    } else if rise < 0 {
        raised(span, a.x, room, -rise)
    } else if room >= 0 {
        Some(span)
    } else {
        None
    }
}

/// The greatest rise · (x - a.x) of the points (x, `y`) left of the edge, or on it.
fn room_beside(a: &Pt, b: &Pt, y: i64) -> i128
    requires a_in { IsPosition a.now }
    requires b_in { IsPosition b.now }
    requires y_in { SizeAtMost 40_000_000_000_000 y }
    ensures value { result ≡ (b.now.x -ℤ a.now.x) *ℤ (y -ℤ a.now.y) }
    ensures within { SizeAtMost 10_000_000_000_000_000_000_000_000_000 result }
{
    times(offset(a.x, b.x), offset(a.y, y))
}

/// The part of the span with rise · (x - from) at most `room`. It divides only where that is less than the span.
fn lowered(span: (i64, i64), from: i64, room: i128, rise: i64) -> Option<(i64, i64)>
    requires span { IsSpan span }
    requires from { SizeAtMost 40_000_000_000_000 from }
    requires room { SizeAtMost 10_000_000_000_000_000_000_000_000_000 room }
    requires rise { pos 0 <ℤ rise }
    requires rise_in { SizeAtMost 100_000_000_000_000 rise }
    ensures { IsRun (λ x. Within span.0 span.1 x × ((rise *ℤ (x -ℤ from)) ≤ℤ room)) result }
{
    if has_room(rise, from, span.1, room) {
        return Some(span);
    }
    let last = i128::from(from) + quotient(room, rise);
    if last < i128::from(span.0) {
        None
    } else {
        Some((span.0, last as i64))
    }
}

/// The part of the span with fall · (from - x) at most `room`. It divides only where that is less than the span.
fn raised(span: (i64, i64), from: i64, room: i128, fall: i64) -> Option<(i64, i64)>
    requires span { IsSpan span }
    requires from { SizeAtMost 40_000_000_000_000 from }
    requires room { SizeAtMost 10_000_000_000_000_000_000_000_000_000 room }
    requires fall { pos 0 <ℤ fall }
    requires fall_in { SizeAtMost 100_000_000_000_000 fall }
    ensures { IsRun (λ x. Within span.0 span.1 x × ((fall *ℤ (from -ℤ x)) ≤ℤ room)) result }
{
    if has_room(fall, span.0, from, room) {
        return Some(span);
    }
    let first = i128::from(from) - quotient(room, fall);
    if first > i128::from(span.1) {
        None
    } else {
        Some((first as i64, span.1))
    }
}

/// Whether rise · (to - from) is at most `room`.
fn has_room(rise: i64, from: i64, to: i64, room: i128) -> bool
    requires from { SizeAtMost 40_000_000_000_000 from }
    requires to { SizeAtMost 40_000_000_000_000 to }
    requires room { SizeAtMost 10_000_000_000_000_000_000_000_000_000 room }
    requires rise { SizeAtMost 100_000_000_000_000 rise }
    ensures { IsTrue result ↔ ((rise *ℤ (to -ℤ from)) ≤ℤ room) }
{
    times(rise, offset(from, to)) <= room
}

/// room / rise, rounded down.
fn quotient(room: i128, rise: i64) -> i128
    requires room { SizeAtMost 10_000_000_000_000_000_000_000_000_000 room }
    requires rise { pos 0 <ℤ rise }
    ensures value { IsQuotient room rise result }
    ensures within { SizeAtMost 10_000_000_000_000_000_000_000_000_000 result }
{
    div_floor(room, i128::from(rise))
}
