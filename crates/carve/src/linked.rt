//! What pieces take away from the rows of a box.

ghost use Rattle.std.specs.Prelude.{◌≡◌, ◌↔◌, ℕ, ℤ, ◌+◌, ◌<◌, ◌≤◌, ◌++◌, ◌∷◌, ◌≤ℤ◌, ◌+ℤ◌, ◌-ℤ◌, pos, [], List, None, Option, Some, length, slice_get, slice_set, sum_by, vec_capacity};
ghost use Rattle.std.specs.Int.{int_max};
ghost use Rattle.spot_terms.specs.Courses.{slots_met};
ghost use Rattle.spot_terms.specs.Grid.{slot, slot_high, slot_low};
ghost use Rattle.spot_terms.specs.Lists.{numbers_below};
ghost use Rattle.spot_terms.specs.RowBoxes.{slots_shared};
ghost use Rattle.spot_terms.specs.Whole.{Within};
ghost use Rattle.base_sets.specs.Values.{IsBox, IsGrid};
ghost use Rattle.carve.specs.Linked.{AreLinked, AreRowsTaken, AreSome, HasRow, KeepsOthers};
ghost use Rattle.carve.specs.Ranges.{HitsAmong, IsRowNear};
ghost use Rattle.carve.specs.Taking.{AreSpans, IsTaken};
ghost use Rattle.carve.specs.declared.runs.Span.{Span as OneSpan};

use crate::among::{columns_of, run_among};
use crate::boxes::{greater, row_of, rows_shared};
use crate::occupied::Occupied;
use crate::rows::{Runs, find_free, push_span, row_ends};
use crate::runs::Span;
use base_sets::{Grid, OuterBox, slots_met};
use std::alloc::{AllocError, Global};
use std::marker::Model;

/// A span of a row, and the place of the row's next one.
#[derive(Clone, Copy, Debug, PartialEq, Eq)]
pub(crate) struct Link {
    pub(crate) span: Span,
    pub(crate) next: Option<usize>,
}

/// What the pieces of a step take away from the rows of a box in its columns: of each row its spans, each linked to the next.
/// A piece is asked only where it isn't beside the columns, and in the rows that its range of y meets.
#[derive(Drop)]
pub struct RowSpans {
    heads: Vec<Option<usize>>,
    links: Vec<Link>,
    pieces: u32,
    rows: u64,
    room: u64,
}

impl Model for RowSpans {
    ghost use Rattle.std.specs.Prelude.{◌≤◌, vec_capacity};
    ghost use Rattle.carve.specs.Linked.{HaveSpans, Linked};

    ghost Value = { Linked };

    ghost view = { λ r. record { rows = r.rows; room = r.room; pieces = r.pieces; heads = r.heads.items; links = r.links.items } };

    ghost invariant = { λ r. (r.rows ≤ vec_capacity r.heads) × (r.room ≤ vec_capacity r.links) × HaveSpans r.pieces r.heads.items r.links.items };
}

impl RowSpans {
    ghost use Rattle.std.specs.Prelude.{IfOk};
    ghost use Rattle.spot_terms.specs.Grid.{AreFreeRuns, CoverTheRest};
    ghost use Rattle.spot_terms.specs.RowBoxes.{row_boxes_in};
    ghost use Rattle.base_sets.specs.Values.{rect_of_box};
    ghost use Rattle.carve.specs.Linked.{AreSpansOf};

    /// Room for so many rows, and for so many spans of all of them together.
    pub fn open(alloc: Global, rows: u64, room: u64) -> Result<RowSpans, AllocError>
        ensures { IfOk result (λ r. r ≡ record { rows = rows; room = room; pieces = 0; heads = []; links = [] }) }
    {
        Ok(RowSpans {
            heads: Vec::with_capacity(alloc, rows as usize)?,
            links: Vec::with_capacity(alloc, room as usize)?,
            pieces: 0,
            rows,
            room,
        })
    }

    /// Gathers what the pieces of a step take away from the rows of a box in its columns, in place of what is there. There is
    /// room for the rows and for the row boxes of the box.
    pub fn gather<O: Occupied>(&mut self, o: &O, step: u32, b: &OuterBox, grid: &Grid)
        requires step { step ≤ O.last o.now }
        requires reach { IsBox b.now }
        requires grid { IsGrid grid.now }
        requires near { (row : ℤ) → Within (slot grid.now.g b.now.ylo) (slot grid.now.g b.now.yhi) row → IsRowNear (O.far o.now) grid.now.g row }
        requires rows { slots_met grid.now.g b.now.ylo b.now.yhi ≤ self.old.rows }
        requires room { row_boxes_in grid.now.w grid.now.g (rect_of_box b.now) (O.count o.now step) (O.range o.now step) ≤ self.old.room }
        ensures taken { AreRowsTaken (HitsAmong (slot_low grid.now.w (slot grid.now.w b.now.xlo)) (slot_high grid.now.w (slot grid.now.w b.now.xhi)) (O.hits o.now step)) (O.range o.now step) grid.now.g (slot grid.now.g b.now.ylo) self.new.heads self.new.links (O.count o.now step) }
        ensures count { length self.new.heads ≡ slots_met grid.now.g b.now.ylo b.now.yhi }
        ensures pieces { self.new.pieces ≡ O.count o.now step }
        ensures rows { self.new.rows ≡ self.old.rows }
        ensures room { self.new.room ≡ self.old.room }
    {
        self.links.clear();
        clear_heads(&mut self.heads, slots_met(grid.g, b.ylo, b.yhi));
        self.pieces = o.pieces(step);
        let columns = columns_of(b, grid);
        put_pieces(&mut self.heads, &mut self.links, o, step, &columns, b, grid);
    }

    /// Lists the free runs of all columns of the box in the `j`-th row, from left to right, in place of what is there.
    ///
    /// There is room for a run of each column and one more for each piece; the room stays. The runs are at most the columns of
    /// the box and the spans of the row. Each x of the columns lies in a span of the row or in a run.
    pub fn row_runs(&self, j: usize, b: &OuterBox, grid: &Grid, runs: &mut Runs)
        requires row { j < length self.now.heads }
        requires reach { IsBox b.now }
        requires grid { IsGrid grid.now }
        requires room { slots_met grid.now.w b.now.xlo b.now.xhi + self.now.pieces ≤ runs.old.room }
        ensures exact { (all : List OneSpan) → AreSpansOf self.now.heads self.now.links j all → AreFreeRuns (IsTaken all) grid.now.w (slot grid.now.w b.now.xlo) (slot grid.now.w b.now.xhi) runs.new.runs }
        ensures covers { (all : List OneSpan) → AreSpansOf self.now.heads self.now.links j all → CoverTheRest (IsTaken all) grid.now.w (slot grid.now.w b.now.xlo) (slot grid.now.w b.now.xhi) runs.new.runs }
        ensures few { (all : List OneSpan) → AreSpansOf self.now.heads self.now.links j all → length runs.new.runs ≤ slots_met grid.now.w b.now.xlo b.now.xhi + length all }
        ensures room { runs.new.room ≡ runs.old.room }
    {
        list_spans(&self.links, self.heads[j], &mut runs.spans);
        find_free(&mut runs.free, &runs.spans, b, grid);
    }
}

// So many rows that have no span.
fn clear_heads(heads: &mut Vec<Option<usize>>, rows: u64)
    requires { rows ≤ vec_capacity heads.old }
    ensures count { length heads.new.items ≡ rows }
    ensures none { (j : ℕ) → j < rows → slice_get heads.new.items j ≡ Some None }
    ensures capacity { vec_capacity heads.old ≤ vec_capacity heads.new }
{
    heads.clear();
    for _ in 0..rows {
        if heads.push(None).is_err() {
            unreachable!();
        }
    }
}

// Links what the pieces of the step take away from the rows of the box in its columns. The rows have no span yet. A piece
// beside the columns isn't asked.
fn put_pieces<O: Occupied>(
    heads: &mut [Option<usize>],
    links: &mut Vec<Link>,
    o: &O,
    step: u32,
    columns: &Span,
    b: &OuterBox,
    grid: &Grid,
)
    requires step { step ≤ O.last o.now }
    requires reach { IsBox b.now }
    requires grid { IsGrid grid.now }
    requires near { (row : ℤ) → Within (slot grid.now.g b.now.ylo) (slot grid.now.g b.now.yhi) row → IsRowNear (O.far o.now) grid.now.g row }
    requires count { length heads.old ≡ slots_met grid.now.g b.now.ylo b.now.yhi }
    requires none { (j : ℕ) → j < length heads.old → slice_get heads.old j ≡ Some None }
    requires empty { links.old.items ≡ [] }
    requires room { sum_by (λ p. slots_shared grid.now.g (O.range o.now step p) (b.now.ylo, b.now.yhi)) (numbers_below (O.count o.now step)) ≤ vec_capacity links.old }
    ensures taken { AreRowsTaken (HitsAmong columns.now.first columns.now.last (O.hits o.now step)) (O.range o.now step) grid.now.g (slot grid.now.g b.now.ylo) heads.new links.new.items (O.count o.now step) }
    ensures count { length heads.new ≡ length heads.old }
    ensures capacity { vec_capacity links.old ≤ vec_capacity links.new }
{
    let count = o.pieces(step);
    let mut piece = o.next(step, 0, columns.first, columns.last);
    while piece < count {
        if let Some((low, high)) = o.span(step, piece) {
            put_piece(heads, links, o, step, piece, columns, low, high, b, grid);
        }
        piece = o.next(step, piece + 1, columns.first, columns.last);
    }
}

// Links what the piece, whose y go from `low` to `high`, takes away from the rows of the box in its columns.
fn put_piece<O: Occupied>(
    heads: &mut [Option<usize>],
    links: &mut Vec<Link>,
    o: &O,
    step: u32,
    piece: u32,
    columns: &Span,
    low: i64,
    high: i64,
    b: &OuterBox,
    grid: &Grid,
)
    requires step { step ≤ O.last o.now }
    requires piece { piece < O.count o.now step }
    requires range { (low, high) ≡ O.range o.now step piece }
    requires order { low ≤ℤ high }
    requires reach { IsBox b.now }
    requires grid { IsGrid grid.now }
    requires near { (row : ℤ) → Within (slot grid.now.g b.now.ylo) (slot grid.now.g b.now.yhi) row → IsRowNear (O.far o.now) grid.now.g row }
    requires count { length heads.old ≡ slots_met grid.now.g b.now.ylo b.now.yhi }
    requires taken { AreRowsTaken (HitsAmong columns.now.first columns.now.last (O.hits o.now step)) (O.range o.now step) grid.now.g (slot grid.now.g b.now.ylo) heads.old links.old.items piece }
    requires room { length links.old.items + slots_shared grid.now.g (low, high) (b.now.ylo, b.now.yhi) ≤ vec_capacity links.old }
    ensures taken { AreRowsTaken (HitsAmong columns.now.first columns.now.last (O.hits o.now step)) (O.range o.now step) grid.now.g (slot grid.now.g b.now.ylo) heads.new links.new.items (piece + 1) }
    ensures count { length heads.new ≡ length heads.old }
    ensures few { length links.new.items ≤ length links.old.items + slots_shared grid.now.g (low, high) (b.now.ylo, b.now.yhi) }
    ensures capacity { vec_capacity links.old ≤ vec_capacity links.new }
{
    let first = row_of(grid.g, b.ylo);
    let before = rows_before(low, b, grid.g);
    for j in before..before + rows_shared(low, high, b, grid.g) {
        let row = first + j as i64;
        put_row(
            heads,
            links,
            o,
            step,
            piece,
            columns,
            (low, high),
            row,
            grid.g,
            j as usize,
        );
    }
}

// How many rows of the box come before that of a y, or are further than the box has rows.
fn rows_before(low: i64, b: &OuterBox, g: i64) -> u64
    requires reach { IsBox b.now }
    requires height { Within (pos 100_000) (pos 100_000_000) g }
    ensures value { slot g b.now.ylo +ℤ pos result ≡ int_max (slot g low) (slot g b.now.ylo) }
    ensures few { result ≤ 1_000_000_000_000_000 }
{
    let first = row_of(g, b.ylo);
    (greater(row_of(g, low), first) - first) as u64
}

// Links what the piece, whose range is known, takes away from a row in the columns. The row is the `j`-th.
fn put_row<O: Occupied>(
    heads: &mut [Option<usize>],
    links: &mut Vec<Link>,
    o: &O,
    step: u32,
    piece: u32,
    columns: &Span,
    range: (i64, i64),
    row: i64,
    g: i64,
    j: usize,
)
    requires step { step ≤ O.last o.now }
    requires piece { piece < O.count o.now step }
    requires range { range ≡ O.range o.now step piece }
    requires height { Within (pos 100_000) (pos 100_000_000) g }
    requires near { IsRowNear (O.far o.now) g row }
    requires row { j < length heads.old }
    requires has { HasRow (HitsAmong columns.now.first columns.now.last (O.hits o.now step)) (O.range o.now step) g heads.old links.old.items piece j row }
    requires room { length links.old.items < vec_capacity links.old }
    ensures has { HasRow (HitsAmong columns.now.first columns.now.last (O.hits o.now step)) (O.range o.now step) g heads.new links.new.items (piece + 1) j row }
    ensures others { KeepsOthers j heads.old links.old.items heads.new links.new.items }
    ensures count { length heads.new ≡ length heads.old }
    ensures few { length links.new.items ≤ length links.old.items + 1 }
    ensures capacity { vec_capacity links.old ≤ vec_capacity links.new }
{
    let (low, high) = row_ends(row, g);
    if let Some((first, last)) = run_among(o, step, piece, columns, range, low, high) {
        link_span(heads, links, j, Span { first, last });
    }
}

// Links a span to a row, in front of its other ones.
fn link_span(heads: &mut [Option<usize>], links: &mut Vec<Link>, j: usize, span: Span)
    requires row { j < length heads.old }
    requires room { length links.old.items < vec_capacity links.old }
    ensures heads { heads.new ≡ slice_set heads.old j (Some (length links.old.items)) }
    ensures links { (next : Option ℕ) → slice_get heads.old j ≡ Some next → links.new.items ≡ links.old.items ++ record { span = span; next = next } ∷ [] }
    ensures capacity { vec_capacity links.old ≤ vec_capacity links.new }
{
    let next = heads[j];
    heads[j] = Some(links.len());
    if links.push(Link { span, next }).is_err() {
        unreachable!();
    }
}

// Lists the spans that are linked from a place on, in order of their first places.
fn list_spans(links: &[Link], from: Option<usize>, spans: &mut Vec<Span>)
    requires linked { (all : List OneSpan) × AreLinked links.now from all × AreSome all × (length all ≤ vec_capacity spans.old) }
    ensures spans { AreSpans spans.new.items }
    ensures same { (all : List OneSpan) → AreLinked links.now from all → (x : ℤ) → IsTaken all x ↔ IsTaken spans.new.items x }
    ensures count { (all : List OneSpan) → AreLinked links.now from all → length spans.new.items ≡ length all }
    ensures capacity { vec_capacity spans.old ≤ vec_capacity spans.new }
{
    spans.clear();
    let mut at = from;
    while let Some(i) = at {
        let link = links[i];
        push_span(spans, link.span);
        at = link.next;
    }
    spans.sort_unstable();
}
