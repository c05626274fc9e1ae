//! A run, step by step.

use crate::children::Children;
use crate::fault::AreaFault;
use crate::fill::fill;
use crate::first::first_sets;
use crate::limits::room_within;
use crate::plan::Plan;
use crate::put::put_all;
use crate::rooms::Rooms;
use crate::rows::StepRuns;
use crate::strip::Strip;
use base_sets::{BaseSet, EgoBounds, EgoStart, Grid, OuterBox};
use carve::{Occupied, SetList};
use merge_sets::{CellTable, Planes};
use spot_terms::MOST_STEPS;
use std::alloc::{AllocError, Global};
use std::marker::Model;

/// How a run stands: sets are left, or the step has none.
#[derive(Clone, Copy, Debug, PartialEq, Eq)]
pub enum Verdict {
    /// Sets are left.
    Open,
    /// This step has no set.
    Empty(u32),
}

/// A run of the drivable area over occupied pieces, with all memory for its steps.
#[derive(Drop)]
pub struct AreaRun<'o, O: Occupied> {
    steps: u32,
    at: StepRuns<'o, O>,
    table: CellTable,
    planes: Planes,
    children: Children,
    strip: Strip,
    sets: SetList,
    next: SetList,
}

impl<'o, O: Occupied> Model for AreaRun<'o, O> {
    ghost use Rattle.std.specs.Prelude.{◌≡◌, length, vec_capacity};
    ghost use Rattle.area_run.specs.Running.{CanRun, Stand, StandsAt};

    ghost Value = { Stand O };

    ghost view = { λ r. record { o = r.at.o.now; plan = r.at.plan; steps = r.steps; at = r.at.step; sets = r.sets.sets } };

    ghost invariant = { λ r.
        CanRun r.at.plan (O.last r.at.o.now) (O.far r.at.o.now) (O.count r.at.o.now) (O.hits r.at.o.now) (O.range r.at.o.now) r.steps r.table.most r.at.taken.rows r.at.taken.room r.at.runs.room (vec_capacity r.at.ends) (vec_capacity r.at.free) r.sets.room r.next.room (length r.strip.rows.items)
        × StandsAt r.at.plan (O.last r.at.o.now) (O.far r.at.o.now) (O.count r.at.o.now) (O.hits r.at.o.now) (O.range r.at.o.now) r.steps r.at.step r.sets.sets
        × (r.planes.k ≡ r.at.plan.k) × (r.planes.rows ≡ r.at.taken.rows) };
}

impl<'o, O: Occupied> AreaRun<'o, O> {
    ghost use Rattle.std.specs.Prelude.{◌≡◌, ◌+◌, ◌<◌, ◌≤◌, ◌^◌, [], length, map, IfErr, IfOk};
    ghost use Rattle.spot_terms.specs.Avoidance.{HoldsOrStrikes};
    ghost use Rattle.spot_terms.specs.Courses.{box_at};
    ghost use Rattle.spot_terms.specs.EgoMotions.{FitsBound};
    ghost use Rattle.spot_terms.specs.RowBoxes.{IsWithinArea};
    ghost use Rattle.spot_terms.specs.StepLists.{IsNextList, IsStepList};
    ghost use Rattle.base_sets.specs.Values.{AreBounds, AreBoxPlaces, AreTicks, IsEgoStart, IsGrid, course_with, rect_of_box, value_of};
    ghost use Rattle.area_run.specs.Greatest.{IsRoomBelow};
    ghost use Rattle.area_run.specs.Passed.{IsRefused};
    ghost use Rattle.area_run.specs.Plans.{IsPlan, course_of, plan_with};
    ghost use Rattle.area_run.specs.Running.{IsOpened, IsVerdict};

    /// A run of so many steps, at most 100, of `k` ticks each, 1 to 1000, over these pieces. It stands at step 0: the set of
    /// the start, or none where the start is removed. All memory for its steps is taken here.
    ///
    /// Places and widths are in µm, speeds in mm/s, the acceleration in m/s²; no start speed is above the greatest speed.
    ///
    /// # Errors
    ///
    /// `AreaTooWide` with the least step that is too wide; only where none is, `TooManyBoxes` with the least step that has
    /// too many row boxes; and where neither is, `Memory`.
    pub fn open(
        alloc: Global,
        o: &'o O,
        s: &EgoStart,
        e: &EgoBounds,
        grid: &Grid,
        k: u32,
        steps: u32,
    ) -> Result<AreaRun<'o, O>, AreaFault>
        requires start { IsEgoStart s.now }
        requires bounds { AreBounds e.now }
        requires grid { IsGrid grid.now }
        requires ticks { AreTicks k }
        requires fits { FitsBound s.now.b e.now.v }
        requires steps { steps ≤ MOST_STEPS }
        requires last { steps ≤ O.last o.now }
        requires far { 35_000_000_000_000 ≤ O.far o.now }
        ensures ok { IfOk result (IsOpened o.now (plan_with s.now e.now grid.now k) steps (O.count o.now) (O.hits o.now)) }
        ensures within { IfOk result (λ _. IsWithinArea (course_with s.now e.now grid.now k) (O.count o.now) (O.range o.now) steps) }
        ensures err { IfErr result (IsRefused (course_with s.now e.now grid.now k) (O.count o.now) (O.range o.now) steps) }
    {
        let plan = Plan {
            s: *s,
            e: *e,
            grid: *grid,
            k,
        };
        match room_within(&plan, o, steps) {
            Ok(rooms) => Ok(AreaRun::with_room(alloc, o, &plan, steps, &rooms)?),
            Err(fault) => Err(fault),
        }
    }

    /// A run at step 0, with this room, which all its steps need.
    fn with_room(
        alloc: Global,
        o: &'o O,
        plan: &Plan,
        steps: u32,
        rooms: &Rooms,
    ) -> Result<AreaRun<'o, O>, AllocError>
        requires plan { IsPlan plan.now }
        requires rooms { IsRoomBelow (course_of plan.now) (O.count o.now) (O.range o.now) (steps + 1) rooms.now }
        requires steps { steps ≤ MOST_STEPS }
        requires last { steps ≤ O.last o.now }
        requires far { 35_000_000_000_000 ≤ O.far o.now }
        ensures { IfOk result (IsOpened o.now plan.now steps (O.count o.now) (O.hits o.now)) }
    {
        let at = StepRuns::open(alloc, o, plan, rooms)?;
        let table = CellTable::open(alloc, rooms.cells)?;
        let planes = Planes::open(alloc, rooms.rows, plan.k)?;
        let children = Children::open(alloc, rooms.rows)?;
        let strip = Strip::open(alloc, rooms.rows)?;
        let sets = first_sets(alloc, o, plan, rooms.boxes)?;
        let next = SetList::open(alloc, rooms.boxes)?;
        Ok(AreaRun {
            steps,
            at,
            table,
            planes,
            children,
            strip,
            sets,
            next,
        })
    }

    /// Goes to the next step: its sets are made from those of the step before, but for what the pieces of the step remove.
    pub fn step(&mut self)
        requires left { self.old.at < self.old.steps }
        ensures pieces { self.new.o ≡ self.old.o }
        ensures plan { self.new.plan ≡ self.old.plan }
        ensures steps { self.new.steps ≡ self.old.steps }
        ensures at { self.new.at ≡ self.old.at + 1 }
        ensures list { IsNextList (course_of self.old.plan) self.new.at self.old.sets (O.count self.old.o self.new.at) (O.hits self.old.o self.new.at) self.new.sets }
    {
        let step = self.at.step + 1;
        self.at.go_to(step);
        let plan = self.at.plan;
        let b = self.at.b;
        self.table.start(&b, &plan.grid, plan.k);
        fill(
            &plan,
            &b,
            self.sets.list(),
            &mut self.table,
            &mut self.children,
            &mut self.strip,
        );
        self.next.clear();
        put_all(&self.at, &self.table, &mut self.planes, &mut self.next);
        std::mem::swap(&mut self.sets, &mut self.next);
    }

    /// The sets of the step, in order, fewer than 2^64. They are the list of the step, and each motion that goes on to it is
    /// held by one of them, or was at a piece by then.
    pub fn sets(&self) -> &[BaseSet]
        ensures sets { map value_of result.now ≡ self.now.sets }
        ensures list { IsStepList (course_of self.now.plan) (O.count self.now.o) (O.hits self.now.o) self.now.at self.now.sets }
        ensures holds { HoldsOrStrikes (course_of self.now.plan) (O.count self.now.o) (O.hits self.now.o) self.now.at self.now.sets }
        ensures few { length result.now < 2 ^ 64 }
    {
        self.sets.list()
    }

    /// The box that each motion of the ego is in at the step. Its places are at most 2.1·10^13 µm in size.
    pub fn outer_box(&self) -> OuterBox
        ensures exact { rect_of_box result ≡ box_at (course_of self.now.plan) self.now.at }
        ensures near { AreBoxPlaces 21_000_000_000_000 result }
    {
        self.at.plan.outer_box(self.at.step)
    }

    /// The step at which the run stands.
    pub fn at(&self) -> u32
        ensures { result ≡ self.now.at }
    {
        self.at.step
    }

    /// How many steps the run may have.
    pub fn steps(&self) -> u32
        ensures { result ≡ self.now.steps }
    {
        self.steps
    }

    /// Whether sets are left.
    pub fn verdict(&self) -> Verdict
        ensures { IsVerdict self.now.at self.now.sets result }
    {
        if self.sets.list().is_empty() {
            Verdict::Empty(self.at.step)
        } else {
            Verdict::Open
        }
    }
}
