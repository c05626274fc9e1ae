//! The free runs of a row.
ghost use Rattle.std.specs.Prelude.{◌≡◌, ◌⊎◌, ◌↔◌, ℕ, ℤ, ◌+◌, ◌-◌, ◌<◌, ◌≤◌, ◌≤ℤ◌, ◌<ℤ◌, ◌+ℤ◌, ◌-ℤ◌, ◌*ℤ◌, pos, neg_ℤ, [], ◌∷◌, ◌++◌, length, List, vec_capacity, vec_len, slice_index_or};
ghost use Rattle.std.specs.List.{AllByRecursion};
ghost use Rattle.spot_terms.specs.Whole.{SizeAtMost, Within};
ghost use Rattle.spot_terms.specs.Grid.{slot_low, slot_high, AreFreeRuns, CoverTheRest};
ghost use Rattle.carve.specs.Taking.{AreSpans, IsTaken, IsBorder, IsEndOfRun, IsPast};

/// Neighbouring whole x, from the first to the last.
#[derive(Clone, Copy, Debug, PartialEq, Eq, PartialOrd, Ord)]
pub(crate) struct Span {
    pub first: i64,
    pub last: i64,
}

/// The first border of a column past `at`.
fn border_after(at: i64, w: i64) -> i64
    requires at { SizeAtMost 50_000_000_000_000 at }
    requires wide { Within (pos 100_000) (pos 100_000_000) w }
    ensures { IsBorder w at result }
{
    (at.div_euclid(w) + 1) * w
}

/// The border before a column.
fn border_before(col: i64, w: i64) -> i64
    requires near { SizeAtMost 50_000_000_000_000 (slot_low w col) }
    ensures { result ≡ slot_low w col }
{
    col * w
}

/// Where the run that begins at `at` ends: before the border of its column or before the next span.
fn end_of_run(spans: &[Span], i: usize, at: i64, end: i64, w: i64) -> i64
    requires at { SizeAtMost 50_000_000_000_000 at }
    requires wide { Within (pos 100_000) (pos 100_000_000) w }
    ensures { IsEndOfRun spans.now i w at end result }
{
    let border = border_after(at, w).min(end);
    if i < spans.len() {
        spans[i].first.min(border)
    } else {
        border
    }
}

/// The place past a span, at most `end`, and at least `at`.
fn past(at: i64, last: i64, end: i64) -> i64
    requires end { SizeAtMost 50_000_000_000_000 end }
    requires at { at <ℤ end }
    ensures { IsPast at last end result }
{
    at.max(last.min(end - 1) + 1)
}

/// Lists the runs of the columns from `first` to `last` that the spans leave free, in order.
pub(crate) fn put_free(free: &mut Vec<(i64, i64)>, spans: &[Span], first: i64, last: i64, w: i64)
    requires spans { AreSpans spans.now }
    requires wide { Within (pos 100_000) (pos 100_000_000) w }
    requires first_near { SizeAtMost 50_000_000_000_000 (slot_low w first) }
    requires end_near { SizeAtMost 50_000_000_000_000 (slot_low w (last +ℤ pos 1)) }
    requires last { SizeAtMost 50_000_000_000_000 last }
    requires ordered { first ≤ℤ last }
    requires empty { free.old.items ≡ [] }
    requires room { (columns : ℕ) → pos columns ≡ last -ℤ first +ℤ pos 1 → columns + length spans.now ≤ vec_capacity free.old }
    ensures runs { AreFreeRuns (IsTaken spans.now) w first last free.new.items }
    ensures covers { CoverTheRest (IsTaken spans.now) w first last free.new.items }
    ensures few { (columns : ℕ) → pos columns ≡ last -ℤ first +ℤ pos 1 → length free.new.items ≤ columns + length spans.now }
    ensures capacity { vec_capacity free.old ≤ vec_capacity free.new }
{
    let end = border_before(last + 1, w);
    let mut at = border_before(first, w);
    let mut i = 0;
    while at < end {
        if i < spans.len() && spans[i].first <= at {
            at = past(at, spans[i].last, end);
            i += 1;
        } else {
            let next = end_of_run(spans, i, at, end, w);
            push_run(free, at, next);
            at = next;
        }
    }
}

/// Adds the run from `from` to before `to`, for which there is room.
fn push_run(free: &mut Vec<(i64, i64)>, from: i64, to: i64)
    requires to { SizeAtMost 50_000_000_000_000 to }
    requires room { length free.old.items < vec_capacity free.old }
    ensures items { free.new.items ≡ free.old.items ++ (from, to -ℤ pos 1) ∷ [] }
    ensures capacity { vec_capacity free.old ≤ vec_capacity free.new }
{
    if free.push((from, to - 1)).is_err() {
        unreachable!();
    }
}
