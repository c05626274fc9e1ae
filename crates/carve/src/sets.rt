//! Lists of base sets whose room is taken once, and the cutting of a set to runs.

ghost use Rattle.std.specs.Prelude.{◌≡◌, ◌↔◌, ◌+◌, ◌<◌, ◌≤◌, ◌++◌, ◌∷◌, [], length, IfOk, IsTrue};
ghost use Rattle.std.specs.List.{AllByRecursion};
ghost use Rattle.spot_terms.specs.Whole.{SizeAtMost, Within};
ghost use Rattle.base_sets.specs.Values.{value_of};
ghost use Rattle.convex_poly.specs.Polygons.{IsPosition};
ghost use Rattle.carve.specs.Cuts.{IsCutBy, with_x};
ghost use Rattle.carve.specs.Parts.{parts_of};
ghost use Rattle.carve.specs.Ranges.{AreRunPlaces};

use base_sets::BaseSet;
use convex_poly::Poly;
use round_out::part_between;
use spot_terms::Pt;
use std::alloc::{AllocError, Global};
use std::marker::Model;

/// A list of base sets, with room for so many.
#[derive(Drop)]
pub struct SetList {
    items: Vec<BaseSet>,
    room: u64,
}

impl Model for SetList {
    ghost use Rattle.std.specs.Prelude.{◌≤◌, map, vec_capacity};
    ghost use Rattle.base_sets.specs.Values.{value_of};
    ghost use Rattle.carve.specs.Rooms.{SetRoom};

    ghost Value = { SetRoom };

    ghost view = { λ l. record { room = l.room; sets = map value_of l.items.items } };

    ghost invariant = { λ l. l.room ≤ vec_capacity l.items };
}

impl SetList {
    /// Room for so many sets, of which there are none yet.
    pub fn open(alloc: Global, room: u64) -> Result<SetList, AllocError>
        ensures { IfOk result (λ l. l ≡ record { room = room; sets = [] }) }
    {
        Ok(SetList {
            items: Vec::with_capacity(alloc, room as usize)?,
            room,
        })
    }

    /// The sets, in order.
    pub fn list(&self) -> &[BaseSet]
        ensures { Rattle.std.specs.Prelude.map value_of result.now ≡ self.now.sets }
    {
        &self.items
    }

    /// Takes all sets out. The whole room is there again.
    pub fn clear(&mut self)
        ensures { self.new ≡ record { room = self.old.room; sets = [] } }
    {
        self.items.clear();
    }

    /// Adds a set, for which there is room.
    pub fn push(&mut self, set: BaseSet)
        requires { length self.old.sets < self.old.room }
        ensures { self.new ≡ record { room = self.old.room; sets = self.old.sets ++ value_of set ∷ [] } }
    {
        if self.items.push(set).is_err() {
            unreachable!();
        }
    }
}

/// A base set whose polygons are kept elsewhere.
#[derive(Clone, Copy)]
pub struct SetParts<'a> {
    pub col: i64,
    pub row: i64,
    pub x: &'a Poly,
    pub y: &'a Poly,
}

// The set with another polygon in the plane of x.
fn set_with_x(b: &SetParts<'_>, x: Poly) -> BaseSet
    ensures { value_of result ≡ with_x (parts_of b.now) x }
{
    BaseSet {
        col: b.col,
        row: b.row,
        x,
        y: b.y.copy(),
    }
}

/// Adds what of the set is left in each of the runs, in their order, where something is. Each of them takes one of the room.
///
/// The set's x polygon has at most 18 corners, and there is room for as many further sets as there are runs, whose places
/// are at most 4·10^13 in size. Each whole state of the set whose x lies in a run is held by one of them.
pub fn cut_parts(b: &SetParts<'_>, runs: &[(i64, i64)], out: &mut SetList)
    requires corners { length b.now.x.now ≤ 18 }
    requires places { AreRunPlaces runs.now }
    requires room { length out.old.sets + length runs.now ≤ out.old.room }
    ensures sets { IsCutBy (parts_of b.now) runs.now out.old.sets out.new.sets }
    ensures room { out.new.room ≡ out.old.room }
{
    for run in runs {
        if lie_between(b.x.corners(), run.0, run.1) {
            // both clips would only copy
            out.push(set_with_x(b, b.x.copy()));
        } else {
            cut_part(b, run, out);
        }
    }
}

// Adds what of the set is left in a run, where something is.
#[inline(never)]
fn cut_part(b: &SetParts<'_>, run: &(i64, i64), out: &mut SetList)
    requires corners { length b.now.x.now ≤ 18 }
    requires low { SizeAtMost 40_000_000_000_000 run.now.0 }
    requires high { SizeAtMost 40_000_000_000_000 run.now.1 }
    requires room { length out.old.sets < out.old.room }
    ensures sets { IsCutBy (parts_of b.now) (run.now ∷ []) out.old.sets out.new.sets }
    ensures few { length out.new.sets ≤ length out.old.sets + 1 }
    ensures room { out.new.room ≡ out.old.room }
{
    if let Some(x) = part_between(b.x, run.0, run.1) {
        out.push(set_with_x(b, x));
    }
}

// Whether all corners are at places from `lo` to `hi`.
fn lie_between(corners: &[Pt], lo: i64, hi: i64) -> bool
    requires { AllByRecursion IsPosition corners.now }
    ensures { IsTrue result ↔ AllByRecursion (λ v. Within lo hi v.x) corners.now }
{
    for corner in corners {
        if corner.x < lo || hi < corner.x {
            return false;
        }
    }
    true
}

/// The same of a set that has its polygons.
pub fn cut(b: &BaseSet, runs: &[(i64, i64)], out: &mut SetList)
    requires corners { length b.now.x ≤ 18 }
    requires places { AreRunPlaces runs.now }
    requires room { length out.old.sets + length runs.now ≤ out.old.room }
    ensures sets { IsCutBy (value_of b.now) runs.now out.old.sets out.new.sets }
    ensures room { out.new.room ≡ out.old.room }
{
    let parts = SetParts {
        col: b.col,
        row: b.row,
        x: &b.x,
        y: &b.y,
    };
    cut_parts(&parts, runs, out);
}
