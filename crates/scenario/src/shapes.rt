//! The radii of shapes.

ghost use Rattle.std.specs.Prelude.{◌≡◌, ◌<◌, ◌≤◌, ◌+◌, ◌*◌, ℕ, length, pos, codes, IfOk, IfSome, IfNone};
ghost use Rattle.std.specs.List.{All};
ghost use Rattle.spot_terms.specs.Lists.{Includes};
ghost use Rattle.spot_terms.specs.Whole.{SizeAtMost, square, IsRootCeiling};
ghost use Rattle.spot_terms.specs.Bodies.{IsLeast};
ghost use Rattle.spot_claims.specs.Tree.{all_named};
ghost use Rattle.spot_claims.specs.Radii.{Holds, IsOffset, HasRadii};
ghost use Rattle.spot_claims.specs.Profile.{size};
ghost use Rattle.scenario.specs.Has.{HasNumber, HasCenter, HasCircle, HasRectangle, HasCorners, HasShape};
ghost use Rattle.scenario.specs.Radii.{CircleIs, RectangleIs, PolygonIs, IsReach, Greatest, PartIs, HasPart, PartsAre, IsSmall, greater_of, name_of};

use crate::table::{SHAPE_COORDINATE_RANGE, SIZE_RANGE};
use crate::values::{number_at, point_at};
use crate::walk::each_child;
use spot_num::isqrt_ceil;
use spot_terms::{MOST_RADIUS, MOST_SHAPE, Pt};
use spot_tree::Tree;
use std::alloc::{AllocError, Global};

/// The enclosing and the inscribed radius of a shape or of a part of one, in micrometres.
#[derive(Clone, Copy, Debug, PartialEq, Eq)]
pub(crate) struct Radii {
    pub(crate) enclosing: u64,
    pub(crate) inscribed: u64,
}

// A kind of part of a shape.
#[derive(Clone, Copy, Debug, PartialEq, Eq)]
enum Part {
    Circle,
    Rectangle,
    Polygon,
}

impl Part {
    // The name of such a part.
    fn name(self) -> &'static str
        ensures { result.now ≡ name_of self }
    {
        match self {
            Part::Circle => "circle",
            Part::Rectangle => "rectangle",
            Part::Polygon => "polygon",
        }
    }
}

// A number from 0 to 100,000,000 in the first child of a name, in micrometres.
fn size_at(tree: &Tree, e: u32, name: &str) -> u64
    requires inside { e < length tree.now }
    requires has { HasNumber tree.now e name.now size }
    ensures holds { Holds tree.now e name.now 6 (pos result) }
    ensures within { result ≤ MOST_SHAPE }
{
    number_at(tree, e, name, &SIZE_RANGE) as u64
}

// The least whole distance that a point is at most away from the origin.
fn distance(p: Pt) -> u64
    requires x { SizeAtMost MOST_SHAPE p.x }
    requires y { SizeAtMost MOST_SHAPE p.y }
    ensures least { IsRootCeiling (square p.x + square p.y) result }
    ensures within { result ≤ 141_421_357 }
{
    let x = p.x.unsigned_abs() as u128;
    let y = p.y.unsigned_abs() as u128;
    isqrt_ceil(x * x + y * y)
}

// How far the centre of a part is from the position of its shape: 0 without one.
fn offset_at(tree: &Tree, e: u32) -> u64
    requires inside { e < length tree.now }
    requires has { HasCenter tree.now e }
    ensures is { IsOffset tree.now e result }
    ensures within { result ≤ 141_421_357 }
{
    match tree.child(e, "center") {
        Some(center) => distance(point_at(tree, center, &SHAPE_COORDINATE_RANGE)),
        None => 0,
    }
}

// The radii of a circle: its radius, with the offset added and taken away, but not below 0.
fn circle_at(tree: &Tree, e: u32) -> Radii
    requires inside { e < length tree.now }
    requires has { HasCircle tree.now e }
    ensures is { CircleIs tree.now e result.enclosing result.inscribed }
    ensures within { result.enclosing ≤ MOST_RADIUS }
    ensures inner { result.inscribed ≤ MOST_RADIUS }
{
    let radius = size_at(tree, e, "radius");
    let offset = offset_at(tree, e);
    Radii {
        enclosing: radius + offset,
        inscribed: radius.saturating_sub(offset),
    }
}

// The least whole number that is at least half the diagonal of a rectangle.
fn half_diagonal(length: u64, width: u64) -> u64
    requires length { length ≤ MOST_SHAPE }
    requires width { width ≤ MOST_SHAPE }
    ensures least { IsLeast (λ q. length * length + width * width ≤ 4 * (q * q)) result }
    ensures within { result ≤ MOST_SHAPE }
{
    let square = length as u128 * length as u128 + width as u128 * width as u128;
    isqrt_ceil((square + 3) / 4)
}

// The radii of a rectangle: half its diagonal, and half its lesser side, rounded down; with the offset as in a circle.
fn rectangle_at(tree: &Tree, e: u32) -> Radii
    requires inside { e < length tree.now }
    requires has { HasRectangle tree.now e }
    ensures is { RectangleIs tree.now e result.enclosing result.inscribed }
    ensures within { result.enclosing ≤ MOST_RADIUS }
    ensures inner { result.inscribed ≤ MOST_RADIUS }
{
    let length = size_at(tree, e, "length");
    let width = size_at(tree, e, "width");
    let offset = offset_at(tree, e);
    Radii {
        enclosing: half_diagonal(length, width) + offset,
        inscribed: (length.min(width) / 2).saturating_sub(offset),
    }
}

// The least whole distance that all these corners are at most away from the origin.
fn reach_of(tree: &Tree, corners: &[u32]) -> u64
    requires inside { All (λ e. e < length tree.now) corners.now }
    requires has { HasCorners tree.now corners.now }
    ensures is { IsReach tree.now corners.now result }
    ensures within { result ≤ MOST_RADIUS }
{
    let mut reach: u64 = 0;
    for corner in corners {
        reach = reach.max(distance(point_at(tree, *corner, &SHAPE_COORDINATE_RANGE)));
    }
    reach
}

// The radii of a polygon: the distance of its farthest corner, and 0.
fn polygon_at(alloc: Global, tree: &Tree, e: u32) -> Result<Radii, AllocError>
    requires inside { e < length tree.now }
    requires has { HasCorners tree.now (all_named tree.now (codes "point") e) }
    ensures is { IfOk result (λ r. PolygonIs tree.now e r.enclosing r.inscribed) }
    ensures within { IfOk result (λ r. r.enclosing ≤ MOST_RADIUS) }
    ensures inner { IfOk result (λ r. r.inscribed ≤ MOST_RADIUS) }
{
    let corners = each_child(alloc, tree, "point", &[e])?;
    Ok(Radii {
        enclosing: reach_of(tree, &corners),
        inscribed: 0,
    })
}

// The greater of each of the radii, where there are any.
fn greater(a: Option<Radii>, b: Option<Radii>) -> Option<Radii>
    ensures { result ≡ greater_of a b }
{
    match (a, b) {
        (Some(a), Some(b)) => Some(Radii {
            enclosing: a.enclosing.max(b.enclosing),
            inscribed: a.inscribed.max(b.inscribed),
        }),
        (Some(a), None) => Some(a),
        (None, b) => b,
    }
}

// The radii of a part.
fn part_at(alloc: Global, tree: &Tree, part: Part, e: u32) -> Result<Radii, AllocError>
    requires inside { e < length tree.now }
    requires has { HasPart part tree.now e }
    ensures is { IfOk result (λ r. PartIs part tree.now e r.enclosing r.inscribed) }
    ensures small { IfOk result (λ r. IsSmall r) }
{
    match part {
        Part::Circle => Ok(circle_at(tree, e)),
        Part::Rectangle => Ok(rectangle_at(tree, e)),
        Part::Polygon => polygon_at(alloc, tree, e),
    }
}

// The greatest radii of the parts of one kind, where there are any.
fn parts_of(alloc: Global, tree: &Tree, shape: u32, part: Part) -> Result<Option<Radii>, AllocError>
    requires inside { shape < length tree.now }
    requires has { (e : ℕ) → Includes (all_named tree.now (name_of part) shape) e → HasPart part tree.now e }
    ensures is { IfOk result (λ most. Greatest (PartsAre part tree.now shape) most) }
    ensures small { IfOk result (λ most. IfSome most (λ r. IsSmall r)) }
    ensures none { IfOk result (λ most. IfNone most ((e : ℕ) → Includes (all_named tree.now (name_of part) shape) e → ⊥)) }
{
    let elements = each_child(alloc, tree, part.name(), &[shape])?;
    let mut most = None;
    for e in &elements {
        most = greater(most, Some(part_at(alloc, tree, part, *e)?));
    }
    Ok(most)
}

/// The radii of a shape: of several parts the greatest of each.
pub(crate) fn shape_at(alloc: Global, tree: &Tree, shape: u32) -> Result<Radii, AllocError>
    requires inside { shape < length tree.now }
    requires has { HasShape tree.now shape }
    ensures is { IfOk result (λ r. HasRadii tree.now shape r.enclosing r.inscribed) }
    ensures small { IfOk result (λ r. IsSmall r) }
{
    let circles = parts_of(alloc, tree, shape, Part::Circle)?;
    let rectangles = parts_of(alloc, tree, shape, Part::Rectangle)?;
    let polygons = parts_of(alloc, tree, shape, Part::Polygon)?;
    match greater(greater(circles, rectangles), polygons) {
        Some(radii) => Ok(radii),
        None => unreachable!(),
    }
}
