//! Blocks of cells joined by side moves in which ways of some length on better nothing.

ghost use Rattle.std.specs.Prelude.{◌≡◌, ◌+◌, ◌<◌, ◌≤◌, ℕ, [], List, Option, length, take, drop, slice_index_or, IfSome, IsTrue, OnOk};
ghost use Rattle.std.specs.List.{AllByRecursion};
ghost use Rattle.spot_terms.specs.Cells.{Lane, cells};
ghost use Rattle.spot_terms.specs.Lists.{Lists};
ghost use Rattle.lanelets.specs.Beside.{IsBeside};
ghost use Rattle.lane_paths.specs.Closed.{AreClosed, IsAtMost, IsKept};
ghost use Rattle.lane_paths.specs.Edges.{HasAtMost};
ghost use Rattle.lane_paths.specs.Labels.{label_at};
ghost use Rattle.lane_paths.specs.Relaxations.{HasPlaces};

use crate::shortest_lengths::ShortestLengths;
use lanelets::Network;
use std::alloc::{AllocError, Global};

/// The most cells of a block. The cells that side moves join are closed block by block, so that where a waypoint betters few
/// of them, the others aren't looked at.
pub(crate) const BLOCK: usize = 256;

/// For each cell at which some cells begin a length that is no less than any of theirs, where one is known. The list ends
/// behind the last that is known, so that where no class has many cells it takes no memory.
#[derive(Drop)]
pub(crate) struct GreatestLengths {
    pub(crate) greatest: Vec<Option<u64>>,
}

/// What is known of blocks of cells that side moves join, and of all cells of a class.
#[derive(Drop)]
pub(crate) struct Closed {
    pub(crate) blocks: GreatestLengths,
    pub(crate) classes: GreatestLengths,
}

impl Closed {
    /// Nothing is known.
    pub(crate) fn new(alloc: Global) -> Closed
        ensures blocks { result.blocks.greatest.items ≡ [] }
        ensures classes { result.classes.greatest.items ≡ [] }
    {
        Closed {
            blocks: GreatestLengths {
                greatest: Vec::new(alloc),
            },
            classes: GreatestLengths {
                greatest: Vec::new(alloc),
            },
        }
    }
}

impl GreatestLengths {
    /// The length that is known for the cells that begin at a cell.
    fn length_at(&self, first: u32) -> Option<u64>
        ensures { result ≡ label_at self.now.greatest.items first }
    {
        *self.greatest.get(first as usize)?
    }

    /// Whether no length of the cells that begin at a cell is greater than that of a way.
    pub(crate) fn is_closed(&self, first: u32, way: u64) -> bool
        ensures { IsTrue result → HasAtMost self.now.greatest.items first way }
    {
        match self.length_at(first) {
            Some(most) => most <= way,
            None => false,
        }
    }

    /// Keeps a length for the cells that begin at a cell.
    pub(crate) fn close(&mut self, first: u32, most: u64) -> Result<(), AllocError>
        ensures { OnOk result (IsKept self.old.greatest.items first most self.new.greatest.items) }
    {
        while self.greatest.len() <= first as usize {
            self.greatest.push(None)?;
        }
        self.greatest[first as usize] = Some(most);
        Ok(())
    }
}

/// The block of a list of cells that begins at a place: BLOCK cells, or as many as there are.
pub(crate) fn block_at(class: &[u32], first: usize) -> &[u32]
    requires { first < length class.now }
    ensures is { result.now ≡ take BLOCK (drop first class.now) }
    ensures some { 0 < length result.now }
    ensures within { first + length result.now ≤ length class.now }
{
    let rest = &class[first..];
    if rest.len() < BLOCK {
        rest
    } else {
        &rest[..BLOCK]
    }
}

/// The first cell of a list.
pub(crate) fn first_of(class: &[u32]) -> u32
    requires { 0 < length class.now }
    ensures { result ≡ slice_index_or class.now 0 0 }
{
    class[0]
}

// The greater of two lengths.
fn greater(a: u64, b: u64) -> u64
    ensures first { a ≤ result }
    ensures second { b ≤ result }
{
    a.max(b)
}

// The greatest length of the entries of some cells, where all have one.
fn greatest_ahead(search: &ShortestLengths, ahead: &[u32]) -> Option<u64>
    requires many { length search.now.lengths ≡ search.now.count + search.now.count + 1 }
    requires within { AllByRecursion (λ d. d < search.now.count) ahead.now }
    ensures { IfSome result (λ most. AllByRecursion (λ d. HasAtMost search.now.lengths (search.now.count + d) most) ahead.now) }
{
    let mut most = 0;
    for d in ahead {
        let Some(length) = search.length_at(search.count as usize + *d as usize) else {
            return None;
        };
        most = greater(most, length);
    }
    Some(most)
}

// The greatest length of the end of a cell and the entries that are ahead of it, where all have one.
fn greatest_in(search: &ShortestLengths, net: &Network, c: u32) -> Option<u64>
    requires places { HasPlaces net.now search.now }
    requires within { c < length (cells net.now) }
    ensures { IfSome result (λ most. IsAtMost net.now search.now.lengths most c) }
{
    let Some(end) = search.length_at(c as usize) else {
        return None;
    };
    let Some(entries) = greatest_ahead(search, net.ahead(c)) else {
        return None;
    };
    Some(greater(end, entries))
}

/// The greatest length of the ends of some cells and of the entries that are ahead of these, where all have one.
pub(crate) fn greatest_among(search: &ShortestLengths, net: &Network, block: &[u32]) -> Option<u64>
    requires places { HasPlaces net.now search.now }
    requires within { AllByRecursion (λ c. c < length (cells net.now)) block.now }
    ensures { IfSome result (λ most. AllByRecursion (IsAtMost net.now search.now.lengths most) block.now) }
{
    let mut most = 0;
    for c in block {
        let Some(length) = greatest_in(search, net, *c) else {
            return None;
        };
        most = greater(most, length);
    }
    Some(most)
}

/// The greatest of the lengths that are known for the blocks of a class, where each has one.
pub(crate) fn greatest_of_blocks(blocks: &GreatestLengths, class: &[u32]) -> Option<u64>
    ensures { IfSome result (λ most. (lanes : List Lane) (lengths : List (Option ℕ)) (s : ℕ) → AreClosed lanes lengths blocks.now.greatest.items → Lists (λ d. IsBeside lanes (cells lanes) d s) class.now → AllByRecursion (IsAtMost lanes lengths most) class.now) }
{
    let mut most = 0;
    let mut first = 0;
    while first < class.len() {
        let block = block_at(class, first);
        let Some(length) = blocks.length_at(block[0]) else {
            return None;
        };
        most = greater(most, length);
        first += block.len();
    }
    Some(most)
}
