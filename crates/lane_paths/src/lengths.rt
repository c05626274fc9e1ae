//! Lengths by number, with a list of the numbers that have one, so that nothing is done for the others.

ghost use Rattle.std.specs.Prelude.{◌≡◌, ◌<◌, ◌≤◌, ℕ, [], List, Option, length, slice_get, slice_set, take, Some, IfOk, OnOk, IsTrue, IsFalse};
ghost use Rattle.std.specs.List.{AllByRecursion};
ghost use Rattle.std.specs.List.Sorted.{IsNonDecreasingBy};
ghost use Rattle.spot_terms.specs.Lists.{Includes};
ghost use Rattle.lane_paths.specs.Edges.{AreNone};
ghost use Rattle.lane_paths.specs.Reached.{AreListed, AreListedOf, AreNoted, IsAdded, IsTaken, RiseByCell};
ghost use Rattle.lane_paths.specs.declared.lengths.CellLabel.{CellLabel as LabelledCell};

use std::alloc::{AllocError, Global};
use std::marker::Model;

/// A cell that is reached, by its number, and its label in µm.
#[derive(Clone, Copy, Debug, PartialEq, Eq)]
pub struct CellLabel {
    pub cell: u32,
    pub label: u64,
}

/// Which numbers have a length, and which lengths these are.
#[derive(Drop)]
pub(crate) struct Lengths {
    lengths: Vec<Option<u64>>,
    reached: Vec<usize>,
}

impl Model for Lengths {
    ghost Value = { List (Option ℕ) };

    ghost view = { λ l. l.lengths.items };

    ghost invariant = { λ l. AreNoted l.lengths.items l.reached.items };
}

impl Lengths {
    /// No number.
    pub(crate) fn new(alloc: Global) -> Lengths
        ensures { result ≡ [] }
    {
        Lengths {
            lengths: Vec::new(alloc),
            reached: Vec::new(alloc),
        }
    }

    /// The length that a number has.
    pub(crate) fn get(&self, number: usize) -> Option<u64>
        requires { number < length self.now }
        ensures { slice_get self.now number ≡ Some result }
    {
        self.lengths[number]
    }

    /// Gives a number a length.
    pub(crate) fn set(&mut self, number: usize, n: u64) -> Result<(), AllocError>
        requires { number < length self.old }
        ensures { OnOk result (self.new ≡ slice_set self.old number (Some n)) }
    {
        note(&mut self.reached, &self.lengths, number)?;
        self.lengths[number] = Some(n);
        Ok(())
    }

    /// Takes all lengths away. From then on the numbers are those below `many`.
    pub(crate) fn restart(&mut self, many: usize) -> Result<(), AllocError>
        ensures { OnOk result (AreNone many self.new) }
    {
        forget(&mut self.lengths, &self.reached);
        self.reached.clear();
        self.lengths.truncate(many);
        fill(&mut self.lengths, many)
    }

    /// The numbers below `count` that have a length, in order, with their lengths: labels of cells.
    pub(crate) fn labels_below(
        &self,
        alloc: Global,
        count: u32,
    ) -> Result<Vec<CellLabel>, AllocError>
        requires { count ≤ length self.now }
        ensures { IfOk result (λ labels. AreListed (take count self.now) labels.items) }
    {
        let cells = sorted_below(alloc, &self.reached, count)?;
        labels_of(alloc, &self.lengths, &cells)
    }
}

// Adds a number to those that have a length, unless it has one already.
fn note(reached: &mut Vec<usize>, lengths: &[Option<u64>], number: usize) -> Result<(), AllocError>
    requires within { number < length lengths.now }
    requires noted { AreNoted lengths.now reached.old.items }
    ensures kept { (i : ℕ) → Includes reached.old.items i → Includes reached.new.items i }
    ensures here { OnOk result (Includes reached.new.items number) }
{
    if lengths[number].is_none() {
        reached.push(number)?;
    }
    Ok(())
}

// Takes the lengths of the numbers away.
fn forget(lengths: &mut Vec<Option<u64>>, reached: &[usize])
    requires { AreNoted lengths.old.items reached.now }
    ensures { AreNone (length lengths.new.items) lengths.new.items }
{
    for number in reached {
        forget_one(lengths, *number);
    }
}

// Takes the length of a number away, where there is such a number.
fn forget_one(lengths: &mut Vec<Option<u64>>, number: usize)
    ensures { (i m : ℕ) → slice_get lengths.new.items i ≡ Some (Some m) → (i ≡ number → ⊥) × (slice_get lengths.old.items i ≡ Some (Some m)) }
{
    if number < lengths.len() {
        lengths[number] = None;
    }
}

// Adds numbers without a length until there are so many.
fn fill(lengths: &mut Vec<Option<u64>>, many: usize) -> Result<(), AllocError>
    requires few { length lengths.old.items ≤ many }
    requires none { AreNone (length lengths.old.items) lengths.old.items }
    ensures none { AreNone (length lengths.new.items) lengths.new.items }
    ensures many { OnOk result (length lengths.new.items ≡ many) }
{
    let more = many - lengths.len();
    lengths.reserve_exact(more)?;
    for _ in 0..more {
        lengths.push(None)?;
    }
    Ok(())
}

// The numbers that are below `count`, in order; a number that stands twice there does so here.
fn sorted_below(alloc: Global, reached: &[usize], count: u32) -> Result<Vec<u32>, AllocError>
    ensures all { IfOk result (λ cells. (i : ℕ) → Includes reached.now i → i < count → Includes cells.items i) }
    ensures within { IfOk result (λ cells. AllByRecursion (λ c. c < count) cells.items) }
    ensures sorted { IfOk result (λ cells. IsNonDecreasingBy (λ c. c) cells.items) }
{
    let mut cells = numbers_below(alloc, reached, count)?;
    cells.sort_unstable();
    Ok(cells)
}

// The numbers that are below `count`.
fn numbers_below(alloc: Global, reached: &[usize], count: u32) -> Result<Vec<u32>, AllocError>
    ensures all { IfOk result (λ cells. (i : ℕ) → Includes reached.now i → i < count → Includes cells.items i) }
    ensures within { IfOk result (λ cells. AllByRecursion (λ c. c < count) cells.items) }
{
    let mut cells = Vec::new(alloc);
    for number in reached {
        add_below(&mut cells, *number, count)?;
    }
    Ok(cells)
}

// Adds a number that is below `count`.
fn add_below(cells: &mut Vec<u32>, number: usize, count: u32) -> Result<(), AllocError>
    ensures kept { (i : ℕ) → Includes cells.old.items i → Includes cells.new.items i }
    ensures here { OnOk result (number < count → Includes cells.new.items number) }
    ensures within { OnOk result (AllByRecursion (λ c. c < count) cells.old.items → AllByRecursion (λ c. c < count) cells.new.items) }
{
    if number < count as usize {
        cells.push(number as u32)?;
    }
    Ok(())
}

// Those of the cells that have a length, each once, with it.
fn labels_of(
    alloc: Global,
    lengths: &[Option<u64>],
    cells: &[u32],
) -> Result<Vec<CellLabel>, AllocError>
    requires within { AllByRecursion (λ c. c < length lengths.now) cells.now }
    requires sorted { IsNonDecreasingBy (λ c. c) cells.now }
    ensures { IfOk result (λ labels. AreListedOf lengths.now cells.now labels.items) }
{
    let mut labels = Vec::with_capacity(alloc, cells.len())?;
    for c in cells {
        add_label(&mut labels, lengths, *c)?;
    }
    Ok(labels)
}

// Adds a cell that has a length behind the others, unless it is the last.
fn add_label(labels: &mut Vec<CellLabel>, lengths: &[Option<u64>], c: u32) -> Result<(), AllocError>
    requires within { c < length lengths.now }
    requires rises { RiseByCell labels.old.items }
    requires most { (i : ℕ) (x : LabelledCell) → slice_get labels.old.items i ≡ Some x → x.cell ≤ c }
    ensures { OnOk result (IsTaken lengths.now c labels.old.items labels.new.items) }
{
    match lengths[c as usize] {
        Some(label) => add_once(labels, CellLabel { cell: c, label }),
        None => Ok(()),
    }
}

// Adds a cell behind the others, unless it is the last.
fn add_once(labels: &mut Vec<CellLabel>, next: CellLabel) -> Result<(), AllocError>
    requires rises { RiseByCell labels.old.items }
    requires most { (i : ℕ) (x : LabelledCell) → slice_get labels.old.items i ≡ Some x → x.cell ≤ next.cell }
    ensures { OnOk result (IsAdded labels.old.items next labels.new.items) }
{
    if is_behind(labels, next.cell) {
        labels.push(next)?;
    }
    Ok(())
}

// Whether a cell comes behind all others.
fn is_behind(labels: &[CellLabel], c: u32) -> bool
    requires { RiseByCell labels.now }
    ensures yes { IsTrue result → (i : ℕ) (x : LabelledCell) → slice_get labels.now i ≡ Some x → x.cell < c }
    ensures no { IsFalse result → (i : ℕ) × (x : LabelledCell) × (slice_get labels.now i ≡ Some x) × (c ≤ x.cell) }
{
    match labels.last() {
        Some(last) => last.cell < c,
        None => true,
    }
}
