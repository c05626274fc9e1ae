//! The shortest lengths to waypoints, by Dijkstra's algorithm: lengths are lowered from the start on. Of n cells, number c is
//! the hull of cell c, where a route ends, n + d is the entry of cell d, and 2n is the start.

ghost use Rattle.std.specs.Prelude.{◌≡◌, ◌↔◌, ◌+◌, ◌<◌, ℕ, [], length, slice_get, take, Some, IfNone, IfOk, IfSome, IsTrue, OnOk};
ghost use Rattle.lane_paths.specs.GapBounds.{IsGapBound};
ghost use Rattle.lane_paths.specs.Edges.{AreFirst, HasAtMost};
ghost use Rattle.lane_paths.specs.Relaxations.{IsDone, IsLesser, IsNotLesser, Relaxes, StepsTo};

use crate::frontier::Frontier;
use crate::gaps::{gap, gap_at_least};
use crate::label_table::LabelTable;
use crate::lengths::Lengths;
use convex_poly::Poly;
use spot_terms::Pt;
use std::alloc::{AllocError, Global};

/// A waypoint with a cell in which it can be left, the length of the way to it, and its hull.
#[derive(Drop)]
pub(crate) struct Waypoint {
    pub(crate) cell: u32,
    pub(crate) length: u64,
    pub(crate) shape: Poly,
}

/// The lengths of the waypoints of so many cells, by their numbers, up to a limit, and the cells whose entries are still
/// to be gone on from.
#[derive(Drop)]
pub(crate) struct ShortestLengths {
    pub(crate) count: u32,
    pub(crate) limit: u64,
    pub(crate) lengths: Lengths,
    pub(crate) frontier: Frontier,
}

impl ShortestLengths {
    /// Of no cells.
    pub(crate) fn new(alloc: Global) -> ShortestLengths {
        ShortestLengths {
            count: 0,
            limit: 0,
            lengths: Lengths::new(alloc),
            frontier: Frontier::new(alloc),
        }
    }

    /// Begins a search: of the waypoints of `count` cells only the start has a length, 0. What was reached before is forgotten,
    /// which takes no longer than it took to reach it.
    pub(crate) fn begin(&mut self, alloc: Global, count: u32, limit: u64) -> Result<(), AllocError>
        ensures count { OnOk result (self.new.count ≡ count) }
        ensures limit { OnOk result (self.new.limit ≡ limit) }
        ensures lengths { OnOk result (AreFirst count self.new.lengths) }
        ensures frontier { OnOk result (self.new.frontier ≡ []) }
    {
        let start = 2 * count as usize;
        self.count = count;
        self.limit = limit;
        self.frontier = Frontier::new(alloc);
        self.lengths.restart(start + 1)?;
        self.lengths.set(start, 0)
    }

    /// The length of the waypoint with this number, where it has one.
    pub(crate) fn length_at(&self, number: usize) -> Option<u64>
        requires { number < length self.now.lengths }
        ensures { slice_get self.now.lengths number ≡ Some result }
    {
        self.lengths.get(number)
    }

    // Whether the waypoint with this number has a length that is at most `n`.
    fn has_at_most(&self, number: usize, n: u64) -> bool
        requires { number < length self.now.lengths }
        ensures { IsTrue result ↔ HasAtMost self.now.lengths number n }
    {
        match self.lengths.get(number) {
            Some(k) => k <= n,
            None => false,
        }
    }

    /// Whether the entry of a cell has this length.
    pub(crate) fn is_current(&self, so_far: u64, d: u32) -> bool
        requires within { d < self.now.count }
        requires many { length self.now.lengths ≡ self.now.count + self.now.count + 1 }
        ensures { IsTrue result ↔ (slice_get self.now.lengths (self.now.count + d) ≡ Some (Some so_far)) }
    {
        match self.lengths.get(self.count as usize + d as usize) {
            Some(k) => k == so_far,
            None => false,
        }
    }

    // Whether the waypoint with this number has a length that is at most a sum, or the sum is above the limit.
    fn is_done(&self, so_far: u64, further: u64, to: usize) -> bool
        requires { to < length self.now.lengths }
        ensures { IsTrue result ↔ IsDone self.now (so_far + further) to }
    {
        so_far > self.limit
            || further > self.limit - so_far
            || self.has_at_most(to, so_far + further)
    }

    // Whether the boxes tell that there is no need to go from a waypoint to one with this number and these points: it has no
    // greater length, or that is above the limit, even if the gap is only as great as they tell.
    fn is_done_by_boxes(&self, from: &Waypoint, to: usize, points: &[Pt]) -> bool
        requires within { to < length self.now.lengths }
        requires some { 0 < length points.now }
        ensures yes { IsTrue result → IsNotLesser self.now from.now to points.now }
        ensures no { (n : ℕ) → IsGapBound from.now.shape points.now n → IsDone self.now (from.now.length + n) to → IsTrue result }
    {
        self.is_done(from.length, 0, to)
            || self.is_done(from.length, gap_at_least(from.shape.corners(), points), to)
    }

    /// Whether the boxes tell that there is no need to go from a waypoint to the entry of a cell, which has these points.
    pub(crate) fn is_entry_done(&self, from: &Waypoint, d: u32, entry: &[Pt]) -> bool
        requires within { d < self.now.count }
        requires many { length self.now.lengths ≡ self.now.count + self.now.count + 1 }
        requires some { 0 < length entry.now }
        ensures yes { IsTrue result → IsNotLesser self.now from.now (self.now.count + d) entry.now }
        ensures no { (n : ℕ) → IsGapBound from.now.shape entry.now n → IsDone self.now (from.now.length + n) (self.now.count + d) → IsTrue result }
    {
        self.is_done_by_boxes(from, self.count as usize + d as usize, entry)
    }

    // The length of a waypoint with this number and hull by way of another, where that is within the limit and less than
    // the one that it has.
    fn lesser(&self, from: &Waypoint, to: usize, shape: &Poly) -> Option<u64>
        requires { to < length self.now.lengths }
        ensures some { IfSome result (IsLesser self.now from.now to shape.now) }
        ensures none { IfNone result (IsNotLesser self.now from.now to shape.now) }
    {
        let further = gap(&from.shape, shape);
        if self.is_done(from.length, further, to) {
            return None;
        }
        Some(from.length + further)
    }

    /// Goes from a waypoint to the hull of a cell, where a route ends.
    pub(crate) fn reach_end(
        &mut self,
        from: &Waypoint,
        c: u32,
        shape: &Poly,
    ) -> Result<(), AllocError>
        requires within { c < self.old.count }
        requires many { length self.old.lengths ≡ self.old.count + self.old.count + 1 }
        ensures { OnOk result ((i : ℕ) → Relaxes (StepsTo i c from.now.shape shape.now) from.now.length self.old self.new) }
    {
        if self.is_done_by_boxes(from, c as usize, shape.corners()) {
            return Ok(());
        }
        if let Some(n) = self.lesser(from, c as usize, shape) {
            self.lengths.set(c as usize, n)?;
        }
        Ok(())
    }

    /// Goes from a waypoint to the entry of a cell.
    pub(crate) fn reach_entry(
        &mut self,
        from: &Waypoint,
        d: u32,
        shape: &Poly,
    ) -> Result<(), AllocError>
        requires within { d < self.old.count }
        requires many { length self.old.lengths ≡ self.old.count + self.old.count + 1 }
        ensures { OnOk result ((i : ℕ) → Relaxes (StepsTo i (self.old.count + d) from.now.shape shape.now) from.now.length self.old self.new) }
    {
        let number = self.count as usize + d as usize;
        if let Some(n) = self.lesser(from, number, shape) {
            self.lengths.set(number, n)?;
            self.frontier.push(n, d)?;
        }
        Ok(())
    }

    /// The lengths of the hulls of the cells, as labels.
    pub(crate) fn label_table(&self, alloc: Global) -> Result<LabelTable, AllocError>
        requires { length self.now.lengths ≡ self.now.count + self.now.count + 1 }
        ensures { IfOk result (λ table. table ≡ take self.now.count self.now.lengths) }
    {
        LabelTable::of(alloc, &self.lengths, self.count)
    }
}
