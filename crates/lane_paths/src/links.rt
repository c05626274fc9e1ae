//! Which waypoints follow each other, and how links are relaxed: a length goes on from one waypoint to the next where that
//! is less than the one there.

ghost use Rattle.std.specs.Prelude.{◌≡◌, ◌<◌, ◌∷◌, ℕ, [], List, Option, length, true, false, IfOk, OnOk};
ghost use Rattle.std.specs.List.{AllByRecursion};
ghost use Rattle.spot_terms.specs.Cells.{cells};
ghost use Rattle.spot_terms.specs.Hull.{IsHullOf};
ghost use Rattle.spot_terms.specs.Lists.{Lists};
ghost use Rattle.spot_terms.specs.Network.{IsAhead};
ghost use Rattle.spot_terms.specs.Routes.{IsStartCell};
ghost use Rattle.spot_terms.specs.declared.plain.Pt.{Pt as Point};
ghost use Rattle.convex_poly.specs.Polygons.{IsPosition};
ghost use Rattle.lanelets.specs.Beside.{IsBeside};
ghost use Rattle.lane_paths.specs.Closed.{AreAllClosed, AreClosed, IsBlockOf};
ghost use Rattle.lane_paths.specs.Relaxations.{AreSettled, HasPlaces, IsUnderWay, Relaxes, size_of};
ghost use Rattle.lane_paths.specs.Waypoints.{IsWaypoint, LinksFrom, LinksFromStart, LinksBeside, LinksInCells, LinksOf, LinksTo, LinksToEntries, entry_at};

use crate::closed::{
    Closed, GreatestLengths, block_at, first_of, greatest_among, greatest_of_blocks,
};
use crate::shortest_lengths::{ShortestLengths, Waypoint};
use convex_poly::{Poly, hull, segment};
use lanelets::{Cell, Network};
use spot_terms::Pt;
use std::alloc::AllocError;

/// A block of so few cells isn't closed, as to look for its greatest length would take as long as that saves.
const FEW: usize = 16;

/// Goes on from the start, which each of `starts` holds.
pub(crate) fn relax_start(
    search: &mut ShortestLengths,
    closed: &mut Closed,
    net: &Network,
    start: Pt,
    starts: &[u32],
) -> Result<(), AllocError>
    requires places { HasPlaces net.now search.old }
    requires closed { AreAllClosed net.now search.old.lengths closed.old }
    requires starts { AllByRecursion (IsStartCell net.now start) starts.now }
    requires near { (c : ℕ) → IsStartCell net.now start c → IsPosition start }
    ensures places { OnOk result (HasPlaces net.now search.new) }
    ensures closed { OnOk result (AreAllClosed net.now search.new.lengths closed.new) }
    ensures relaxes { OnOk result (Relaxes (LinksFromStart net.now start starts.now) 0 search.old search.new) }
{
    for s in starts {
        let from = Waypoint {
            cell: *s,
            length: 0,
            shape: polygon_at(start),
        };
        relax_waypoint(search, closed, net, &from)?;
    }
    Ok(())
}

/// Goes on from entries until no length becomes less.
pub(crate) fn relax_all(
    search: &mut ShortestLengths,
    closed: &mut Closed,
    net: &Network,
) -> Result<(), AllocError>
    requires places { HasPlaces net.now search.old }
    requires closed { AreAllClosed net.now search.old.lengths closed.old }
    ensures places { OnOk result (HasPlaces net.now search.new) }
    ensures settled { OnOk result ((p : Point) (first : List (Option ℕ)) → IsUnderWay net.now p first search.old → AreSettled net.now p search.old.limit first search.new.lengths) }
{
    while relax_next(search, closed, net)? {}
    Ok(())
}

/// Goes on from one of the frontier entries, unless its length became less since. Whether there was one.
fn relax_next(
    search: &mut ShortestLengths,
    closed: &mut Closed,
    net: &Network,
) -> Result<bool, AllocError>
    requires places { HasPlaces net.now search.old }
    requires closed { AreAllClosed net.now search.old.lengths closed.old }
    ensures places { OnOk result (HasPlaces net.now search.new) }
    ensures closed { OnOk result (AreAllClosed net.now search.new.lengths closed.new) }
    ensures limit { OnOk result (search.new.limit ≡ search.old.limit) }
    ensures less { IfOk result (λ more. more ≡ true → size_of search.new < size_of search.old) }
    ensures none { IfOk result (λ more. more ≡ false → search.new.frontier ≡ []) }
    ensures under_way { OnOk result ((p : Point) (first : List (Option ℕ)) → IsUnderWay net.now p first search.old → IsUnderWay net.now p first search.new) }
{
    let Some((so_far, d)) = search.frontier.pop() else {
        return Ok(false);
    };
    if !search.is_current(so_far, d) {
        return Ok(true);
    }
    relax_entry(search, closed, net, so_far, d)?;
    Ok(true)
}

/// Goes on from the entry of a cell, to which the way is so long.
fn relax_entry(
    search: &mut ShortestLengths,
    closed: &mut Closed,
    net: &Network,
    so_far: u64,
    d: u32,
) -> Result<(), AllocError>
    requires places { HasPlaces net.now search.old }
    requires closed { AreAllClosed net.now search.old.lengths closed.old }
    requires within { d < length (cells net.now) }
    ensures places { OnOk result (HasPlaces net.now search.new) }
    ensures closed { OnOk result (AreAllClosed net.now search.new.lengths closed.new) }
    ensures relaxes { OnOk result ((p : Point) → Relaxes (LinksOf net.now p (entry_at net.now p d)) so_far search.old search.new) }
{
    let from = Waypoint {
        cell: d,
        length: so_far,
        shape: entry_of(net.cell(d)),
    };
    relax_waypoint(search, closed, net, &from)
}

/// Goes on from a waypoint in all cells to which side moves lead from its cell, unless their class is closed to it.
fn relax_waypoint(
    search: &mut ShortestLengths,
    closed: &mut Closed,
    net: &Network,
    from: &Waypoint,
) -> Result<(), AllocError>
    requires places { HasPlaces net.now search.old }
    requires closed { AreAllClosed net.now search.old.lengths closed.old }
    requires waypoint { (p : Point) × (i : ℕ) × IsWaypoint net.now p i from.now.cell from.now }
    requires within { from.now.cell < length (cells net.now) }
    ensures places { OnOk result (HasPlaces net.now search.new) }
    ensures closed { OnOk result (AreAllClosed net.now search.new.lengths closed.new) }
    ensures relaxes { OnOk result ((p : Point) (i : ℕ) → IsWaypoint net.now p i from.now.cell from.now → Relaxes (LinksBeside net.now p i from.now.cell) from.now.length search.old search.new) }
{
    let class = net.beside(from.cell);
    let first = first_of(class);
    if closed.classes.is_closed(first, from.length) {
        return Ok(());
    }
    relax_blocks(search, &mut closed.blocks, net, from, class)?;
    if let Some(most) = greatest_of_blocks(&closed.blocks, class) {
        closed.classes.close(first, most)?;
    }
    Ok(())
}

/// Goes on from a waypoint in all cells of its class, block by block.
fn relax_blocks(
    search: &mut ShortestLengths,
    closed: &mut GreatestLengths,
    net: &Network,
    from: &Waypoint,
    class: &[u32],
) -> Result<(), AllocError>
    requires places { HasPlaces net.now search.old }
    requires closed { AreClosed net.now search.old.lengths closed.old.greatest.items }
    requires waypoint { (p : Point) × (i : ℕ) × IsWaypoint net.now p i from.now.cell from.now }
    requires within { from.now.cell < length (cells net.now) }
    requires class { Lists (λ c. IsBeside net.now (cells net.now) c from.now.cell) class.now }
    ensures places { OnOk result (HasPlaces net.now search.new) }
    ensures closed { OnOk result (AreClosed net.now search.new.lengths closed.new.greatest.items) }
    ensures relaxes { OnOk result ((p : Point) (i : ℕ) → IsWaypoint net.now p i from.now.cell from.now → Relaxes (LinksBeside net.now p i from.now.cell) from.now.length search.old search.new) }
{
    let mut first = 0;
    while first < class.len() {
        let block = block_at(class, first);
        relax_block(search, closed, net, from, block)?;
        first += block.len();
    }
    Ok(())
}

/// Goes on from a waypoint in a block of cells to which side moves lead from its cell, unless the block is closed to it.
fn relax_block(
    search: &mut ShortestLengths,
    closed: &mut GreatestLengths,
    net: &Network,
    from: &Waypoint,
    block: &[u32],
) -> Result<(), AllocError>
    requires places { HasPlaces net.now search.old }
    requires closed { AreClosed net.now search.old.lengths closed.old.greatest.items }
    requires waypoint { (p : Point) × (i : ℕ) × IsWaypoint net.now p i from.now.cell from.now }
    requires within { from.now.cell < length (cells net.now) }
    requires block { IsBlockOf net.now from.now.cell block.now }
    ensures places { OnOk result (HasPlaces net.now search.new) }
    ensures closed { OnOk result (AreClosed net.now search.new.lengths closed.new.greatest.items) }
    ensures relaxes { OnOk result ((p : Point) (i : ℕ) → IsWaypoint net.now p i from.now.cell from.now → Relaxes (LinksInCells net.now p i block.now) from.now.length search.old search.new) }
{
    if closed.is_closed(block[0], from.length) {
        return Ok(());
    }
    relax_cells(search, net, from, block)?;
    if block.len() > FEW {
        if let Some(most) = greatest_among(search, net, block) {
            closed.close(block[0], most)?;
        }
    }
    Ok(())
}

/// Goes on from a waypoint in some cells.
fn relax_cells(
    search: &mut ShortestLengths,
    net: &Network,
    from: &Waypoint,
    some: &[u32],
) -> Result<(), AllocError>
    requires places { HasPlaces net.now search.old }
    requires within { from.now.cell < length (cells net.now) }
    requires beside { AllByRecursion (λ c. IsBeside net.now (cells net.now) c from.now.cell) some.now }
    ensures places { OnOk result (HasPlaces net.now search.new) }
    ensures relaxes { OnOk result ((p : Point) (i : ℕ) → IsWaypoint net.now p i from.now.cell from.now → Relaxes (LinksInCells net.now p i some.now) from.now.length search.old search.new) }
{
    for c in some {
        relax_in_cell(search, net, from, *c)?;
    }
    Ok(())
}

/// Goes on from a waypoint in a cell: to the cell itself, and to the entries that are ahead of it.
fn relax_in_cell(
    search: &mut ShortestLengths,
    net: &Network,
    from: &Waypoint,
    c: u32,
) -> Result<(), AllocError>
    requires places { HasPlaces net.now search.old }
    requires within { c < length (cells net.now) }
    ensures places { OnOk result (HasPlaces net.now search.new) }
    ensures relaxes { OnOk result ((p : Point) (i : ℕ) → IsWaypoint net.now p i c from.now → Relaxes (LinksFrom net.now p i c) from.now.length search.old search.new) }
{
    search.reach_end(from, c, &net.cell(c).poly)?;
    relax_ahead(search, net, from, net.ahead(c))
}

/// Goes on from a waypoint to the entries of some cells.
fn relax_ahead(
    search: &mut ShortestLengths,
    net: &Network,
    from: &Waypoint,
    ahead: &[u32],
) -> Result<(), AllocError>
    requires places { HasPlaces net.now search.old }
    requires within { AllByRecursion (λ d. d < length (cells net.now)) ahead.now }
    ensures places { OnOk result (HasPlaces net.now search.new) }
    ensures relaxes { OnOk result ((p : Point) (i c : ℕ) → IsWaypoint net.now p i c from.now → AllByRecursion (IsAhead net.now (cells net.now) c) ahead.now → Relaxes (LinksToEntries net.now p i c ahead.now) from.now.length search.old search.new) }
{
    for d in ahead {
        relax_to(search, net, from, *d)?;
    }
    Ok(())
}

/// Goes on from a waypoint to the entry of a cell. Its hull is made only where the boxes leave open whether it matters.
fn relax_to(
    search: &mut ShortestLengths,
    net: &Network,
    from: &Waypoint,
    d: u32,
) -> Result<(), AllocError>
    requires places { HasPlaces net.now search.old }
    requires within { d < length (cells net.now) }
    ensures places { OnOk result (HasPlaces net.now search.new) }
    ensures relaxes { OnOk result ((p : Point) (i c : ℕ) → IsWaypoint net.now p i c from.now → IsAhead net.now (cells net.now) c d → Relaxes (LinksTo net.now p i c (entry_at net.now p d)) from.now.length search.old search.new) }
{
    let cell = net.cell(d);
    if search.is_entry_done(from, d, &[cell.entry.0, cell.entry.1]) {
        return Ok(());
    }
    search.reach_entry(from, d, &entry_of(cell))
}

/// The hull of a cell's entry.
fn entry_of(cell: &Cell) -> Poly
    requires left { IsPosition cell.now.entry.0 }
    requires right { IsPosition cell.now.entry.1 }
    ensures { IsHullOf (cell.now.entry.0 ∷ cell.now.entry.1 ∷ []) result }
{
    segment(cell.entry.0, cell.entry.1)
}

/// A point as a polygon.
fn polygon_at(p: Pt) -> Poly
    requires { IsPosition p }
    ensures { IsHullOf (p ∷ []) result }
{
    hull(&[p])
}
