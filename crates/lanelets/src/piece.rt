//! Pieces of lanelets, and how they are cut.

ghost use Rattle.std.specs.Prelude.{◌≡◌, ◌<◌, ◌≤◌, pos, ◌+ℤ◌, ◌-ℤ◌, ◌*ℤ◌};
ghost use Rattle.std.specs.List.{AllByRecursion};
ghost use Rattle.spot_terms.specs.Whole.{SizeAtMost, quotient_floor};
ghost use Rattle.spot_terms.specs.Cells.{side_square as side_square_of, part_count as part_count_of, cut};
ghost use Rattle.spot_terms.specs.Hull.{IsHullOf};
ghost use Rattle.spot_terms.specs.Ranges.{IsPairInRange};
ghost use Rattle.lanelets.specs.Pieces.{IsPieceInRange, IsNear, AreNear, corners_between};

use convex_poly::{Poly, hull};
use spot_num::{div_floor, isqrt_ceil};
use spot_terms::Pt;

/// How long a part may be on both of its sides, in µm.
const PART_LENGTH: u64 = 2_000_000;

/// A piece of a lanelet: the points of both bounds at its start and at its end, in µm.
#[derive(Clone, Copy, Debug, PartialEq, Eq)]
pub(crate) struct Piece {
    pub(crate) left: (i64, i64),
    pub(crate) left_end: (i64, i64),
    pub(crate) right: (i64, i64),
    pub(crate) right_end: (i64, i64),
}

// The squared length of a side.
fn side_square(from: (i64, i64), to: (i64, i64)) -> u128
    requires from_in { IsPairInRange from }
    requires to_in { IsPairInRange to }
    ensures value { result ≡ side_square_of from to }
    ensures size { result ≤ 800_000_000_000_000_000_000_000_000 }
{
    let x = u128::from(to.0.abs_diff(from.0));
    let y = u128::from(to.1.abs_diff(from.1));
    x * x + y * y
}

/// Into how many parts the piece is cut: at least 1, and so many that each is at most 2 m long on both sides.
pub(crate) fn part_count(piece: &Piece) -> u32
    requires { IsPieceInRange piece.now }
    ensures value { result ≡ part_count_of piece.now.left piece.now.left_end piece.now.right piece.now.right_end }
    ensures some { 0 < result }
    ensures size { result ≤ 14_200_000 }
{
    let left = side_square(piece.left, piece.left_end);
    let right = side_square(piece.right, piece.right_end);
    let longest = isqrt_ceil(left.max(right));
    let parts = (longest + (PART_LENGTH - 1)) / PART_LENGTH;
    parts.max(1) as u32
}

// The coordinate at the part `t` / `parts` of the way, rounded down.
fn cut_between(from: i64, to: i64, t: u32, parts: u32) -> i64
    requires from_in { SizeAtMost 10_000_000_000_000 from }
    requires to_in { SizeAtMost 10_000_000_000_000 to }
    requires some { 0 < parts }
    requires part { t ≤ parts }
    ensures value { result ≡ from +ℤ quotient_floor ((to -ℤ from) *ℤ pos t) (pos parts) }
    ensures size { SizeAtMost 10_000_000_000_000 result }
{
    let way = i128::from(to) - i128::from(from);
    let gone = div_floor(way * i128::from(t), i128::from(parts));
    (i128::from(from) + gone) as i64
}

// The point at the part `t` / `parts` of a side.
fn cut_at(from: (i64, i64), to: (i64, i64), t: u32, parts: u32) -> Pt
    requires from_in { IsPairInRange from }
    requires to_in { IsPairInRange to }
    requires some { 0 < parts }
    requires part { t ≤ parts }
    ensures value { result ≡ cut from to t parts }
    ensures near { IsNear result }
{
    Pt {
        x: cut_between(from.0, to.0, t, parts),
        y: cut_between(from.1, to.1, t, parts),
    }
}

/// The cut of the piece at the part `t` / `parts`: its left and its right point.
pub(crate) fn portal(piece: &Piece, t: u32, parts: u32) -> (Pt, Pt)
    requires piece { IsPieceInRange piece.now }
    requires some { 0 < parts }
    requires part { t ≤ parts }
    ensures value { result ≡ (cut piece.now.left piece.now.left_end t parts, cut piece.now.right piece.now.right_end t parts) }
    ensures near { AreNear result }
{
    (
        cut_at(piece.left, piece.left_end, t, parts),
        cut_at(piece.right, piece.right_end, t, parts),
    )
}

/// The hull of two portals.
pub(crate) fn hull_between(entry: (Pt, Pt), exit: (Pt, Pt)) -> Poly
    requires entry_in { AreNear entry }
    requires exit_in { AreNear exit }
    ensures hull { IsHullOf (corners_between entry exit) result }
    ensures near { AllByRecursion IsNear result }
{
    hull(&[entry.0, entry.1, exit.0, exit.1])
}
