//! Children along y, each with the numbers of its parts, kept while a step is made.

ghost use Rattle.std.specs.Prelude.{◌≡◌, ◌↔◌, ◌<◌, IfSome, IsTrue, List, length};
ghost use Rattle.std.specs.List.{AllByRecursion};
ghost use Rattle.spot_terms.specs.declared.plain.Pt.{Pt as Point};
ghost use Rattle.base_sets.specs.Values.{IsBox};
ghost use Rattle.propagate.specs.Children.{IsChildIn, IsStepPoint};
ghost use Rattle.area_run.specs.Plans.{IsPlan};
ghost use Rattle.area_run.specs.Strips.{AreKept, ArePartsIn, FitsBox, HasPolygon, IsChildOf, IsKeptOf, JoinsChild};

use crate::plan::Plan;
use crate::strip::Strip;
use base_sets::{BaseSet, OuterBox};
use convex_poly::Poly;
use merge_sets::{put_rows, slots_of};
use propagate::plane_child;
use round_out::FrameNumbers;
use std::alloc::{AllocError, Global};

/// How many parts of a child are made at once.
const MOST_KNOWN: u32 = 8;

/// How many children are kept.
const MOST_CHILDREN: u64 = 1024;

/// A child along y: the first row that it meets, how many it meets, and the numbers of its parts in the first ones.
#[derive(Drop)]
pub(crate) struct ChildParts {
    pub(crate) y: Poly,
    pub(crate) first: i64,
    pub(crate) count: u32,
    pub(crate) few: u32,
    pub(crate) known: [Option<FrameNumbers>; 8],
}

impl ChildParts {
    /// The parts of a child in the rows of a box.
    pub(crate) fn of(plan: &Plan, b: &OuterBox, y: Poly) -> ChildParts
        requires plan { IsPlan plan.now }
        requires reach { IsBox b.now }
        requires child { IsChildIn b.now.ylo b.now.yhi plan.now.e.v y }
        ensures parts { ArePartsIn plan.now b.now result }
        ensures child { result.y ≡ y }
    {
        let (first, count) = slots_of(&y, plan.grid.g);
        let few = count.min(MOST_KNOWN);
        let mut known = [None; 8];
        put_rows(&mut known, &y, plan.grid.g, first, few, plan.k);
        ChildParts {
            y,
            first,
            count,
            few,
            known,
        }
    }
}

/// A polygon along y and its child, where it has one.
#[derive(Drop)]
pub(crate) struct Kept {
    pub(crate) of: Poly,
    pub(crate) child: Option<ChildParts>,
}

/// The children of the last polygons of rows: of rows that are as many apart as there is room for, that of the last.
#[derive(Drop)]
pub(crate) struct Children {
    pub(crate) kept: Vec<Option<Kept>>,
    ghost some: { 0 < length kept.items },
}

impl Children {
    /// Room for the children of so many rows, of which none is kept yet.
    pub(crate) fn open(alloc: Global, rows: u64) -> Result<Children, AllocError> {
        let room = rows.min(MOST_CHILDREN) as usize + 1;
        let mut kept = Vec::with_capacity(alloc, room)?;
        for _ in 0..room {
            kept.push(None)?;
        }
        Ok(Children { kept })
    }

    /// Keeps none any more.
    pub(crate) fn start(&mut self, plan: &Plan, b: &OuterBox)
        ensures { AreKept plan.now b.now self.new.kept.items }
    {
        for i in 0..self.kept.len() {
            self.kept[i] = None;
        }
    }

    /// Where the child of a row is kept.
    fn place(&self, row: i64) -> usize
        ensures { result < length self.now.kept.items }
    {
        row.rem_euclid(self.kept.len() as i64) as usize
    }

    /// The child of a set's polygon along y comes to the strip, where there is one. It is kept for the next set of the row.
    pub(crate) fn join(&mut self, plan: &Plan, b: &OuterBox, set: &BaseSet, strip: &mut Strip)
        requires plan { IsPlan plan.now }
        requires reach { IsBox b.now }
        requires near { AllByRecursion IsStepPoint set.now.y }
        requires kept { AreKept plan.now b.now self.old.kept.items }
        requires fits { FitsBox plan.now b.now strip.old.rows.items strip.old.from strip.old.to }
        ensures joined { JoinsChild plan.now b.now set.now.y strip.old.rows.items strip.new.rows.items }
        ensures kept { AreKept plan.now b.now self.new.kept.items }
        ensures fits { FitsBox plan.now b.now strip.new.rows.items strip.new.from strip.new.to }
        ensures room { length strip.new.rows.items ≡ length strip.old.rows.items }
    {
        let at = self.place(set.row);
        keep(&mut self.kept[at], plan, b, &set.y);
        join_kept(&self.kept[at], plan, b, strip);
    }
}

/// The child of a polygon along y, where there is one, with the numbers of its parts.
fn child_of(plan: &Plan, b: &OuterBox, y: &Poly) -> Option<ChildParts>
    requires plan { IsPlan plan.now }
    requires reach { IsBox b.now }
    requires near { AllByRecursion IsStepPoint y.now }
    ensures { IsChildOf plan.now b.now y.now result }
{
    match plane_child(y, &plan.e, plan.k, b.ylo, b.yhi) {
        Some(child) => Some(ChildParts::of(plan, b, child)),
        None => None,
    }
}

/// Keeps the child of this polygon, if it isn't the one that is kept.
fn keep(kept: &mut Option<Kept>, plan: &Plan, b: &OuterBox, y: &Poly)
    requires plan { IsPlan plan.now }
    requires reach { IsBox b.now }
    requires near { AllByRecursion IsStepPoint y.now }
    requires kept { IfSome kept.old (λ k. IsChildOf plan.now b.now k.of k.child) }
    ensures { IsKeptOf plan.now b.now y.now kept.new }
{
    if !is_kept(kept, y) {
        *kept = Some(Kept {
            of: y.copy(),
            child: child_of(plan, b, y),
        });
    }
}

/// Whether the child of this polygon is kept.
fn is_kept(kept: &Option<Kept>, y: &Poly) -> bool
    ensures { IsTrue result ↔ HasPolygon y.now kept.now }
{
    match kept {
        Some(kept) => is_same(&kept.of, y),
        None => false,
    }
}

/// The child that is kept comes to the strip, where there is one.
fn join_kept(kept: &Option<Kept>, plan: &Plan, b: &OuterBox, strip: &mut Strip)
    requires plan { IsPlan plan.now }
    requires reach { IsBox b.now }
    requires kept { (y : List Point) × IsKeptOf plan.now b.now y kept.now }
    requires fits { FitsBox plan.now b.now strip.old.rows.items strip.old.from strip.old.to }
    ensures joined { (y : List Point) → IsKeptOf plan.now b.now y kept.now → JoinsChild plan.now b.now y strip.old.rows.items strip.new.rows.items }
    ensures fits { FitsBox plan.now b.now strip.new.rows.items strip.new.from strip.new.to }
    ensures room { length strip.new.rows.items ≡ length strip.old.rows.items }
{
    if let Some(kept) = kept {
        if let Some(child) = &kept.child {
            strip.join(plan, b, child);
        }
    }
}

/// Whether two polygons are equal.
pub(crate) fn is_same(p: &Poly, q: &Poly) -> bool
    ensures { IsTrue result ↔ p.now ≡ q.now }
{
    p.corners() == q.corners()
}
