//! The first failing check of a tree.

ghost use Rattle.std.specs.Prelude.{◌≡◌, ◌<◌, map, length, IfOk, IsTrue, None};
ghost use Rattle.std.specs.List.{All};
ghost use Rattle.scenario.specs.Known.{IsKnown};
ghost use Rattle.spot_claims.specs.Paths.{at_path};
ghost use Rattle.scenario.specs.Table.{path_of};
ghost use Rattle.scenario.specs.Has.{AllBounds, AllRecorded};
ghost use Rattle.scenario.specs.Fault.{Least, least_of, comes_before, ChecksFail, ElementsFail, WaysFail, StartsFail, NoPointFails, NoneRecordedFails};
ghost use Rattle.spot_claims.specs.Profile.{Fails};

use crate::checks::fails;
use crate::known::{Known, know};
use crate::numbers::read_number;
use crate::table::{Check, Line, Path, lines};
use crate::walk::walk;
use spot_terms::Code;
use spot_tree::Tree;
use std::alloc::{AllocError, Global};

/// A failing check: the place of its element, its number in the line from 0, and its code.
#[derive(Clone, Copy, Debug, PartialEq, Eq)]
pub(crate) struct Fault {
    pub(crate) place: u32,
    pub(crate) number: usize,
    pub(crate) code: Code,
}

impl Fault {
    // Whether this fault comes before another.
    fn precedes(&self, other: &Fault) -> bool
        ensures { result ≡ comes_before self.now other.now }
    {
        self.place < other.place || self.place == other.place && self.number < other.number
    }
}

// The first of two faults, where there are any.
fn first_of(a: Option<Fault>, b: Option<Fault>) -> Option<Fault>
    ensures { result ≡ least_of a b }
{
    match (a, b) {
        (Some(a), Some(b)) => Some(if b.precedes(&a) { b } else { a }),
        (Some(a), None) => Some(a),
        (None, b) => b,
    }
}

// Whether these are the checks of a number, and the element, which is below `len`, is a good one: then none fails.
fn is_good_number(tree: &Tree, e: u32, checks: &[Check]) -> bool
    requires { e < length tree.now }
    ensures { IsTrue result → Least (ChecksFail tree.now checks.now e) None }
{
    match checks {
        [Check::BadNumber, second] => match second {
            Check::OutOfRange(number) => read_number(tree.text(e), number).is_some(),
            _ => false,
        },
        _ => false,
    }
}

// The first of these checks that fails at an element, which is below `len`.
fn fault_at(tree: &Tree, known: &Known, e: u32, checks: &[Check]) -> Option<Fault>
    requires inside { e < length tree.now }
    requires known { IsKnown tree.now known.now }
    ensures { Least (ChecksFail tree.now checks.now e) result }
{
    if is_good_number(tree, e, checks) {
        return None;
    }
    for (number, check) in checks.iter().enumerate() {
        if fails(tree, known, e, check) {
            return Some(Fault {
                place: e,
                number,
                code: check.code(),
            });
        }
    }
    None
}

// The first fault at these elements, which are below `len`.
fn fault_among(tree: &Tree, known: &Known, elements: &[u32], checks: &[Check]) -> Option<Fault>
    requires inside { All (λ e. e < length tree.now) elements.now }
    requires known { IsKnown tree.now known.now }
    ensures { Least (ElementsFail tree.now checks.now elements.now) result }
{
    let mut first = None;
    for e in elements {
        first = first_of(first, fault_at(tree, known, *e, checks));
    }
    first
}

// The first fault at the elements that these ways lead to from others, which are below `len`.
fn fault_along(
    alloc: Global,
    tree: &Tree,
    known: &Known,
    elements: &[u32],
    line: &Line,
) -> Result<Option<Fault>, AllocError>
    requires inside { All (λ e. e < length tree.now) elements.now }
    requires known { IsKnown tree.now known.now }
    ensures { IfOk result (λ first. Least (WaysFail tree.now line.now.checks.now elements.now line.now.ways.now) first) }
{
    let mut first = None;
    for way in line.ways {
        let found = walk(alloc, tree, way, elements)?;
        first = first_of(first, fault_among(tree, known, &found, line.checks));
    }
    Ok(first)
}

// The first fault of a line behind a start of it. Where nothing is missing of recorded states, they needn't be looked at: the
// path to them alone has three steps.
fn fault_from(
    alloc: Global,
    tree: &Tree,
    known: &Known,
    line: &Line,
    start: Path,
    has_states: bool,
) -> Result<Option<Fault>, AllocError>
    requires known { IsKnown tree.now known.now }
    requires states { IsTrue has_states → length start.now ≡ 3 → Least (WaysFail tree.now line.now.checks.now (at_path tree.now (path_of start)) line.now.ways.now) None }
    ensures { IfOk result (λ first. Least (WaysFail tree.now line.now.checks.now (at_path tree.now (path_of start.entry)) line.now.ways.now) first) }
{
    if has_states && start.len() == 3 {
        return Ok(None);
    }
    prove!(0 < tree.len());
    let found = walk(alloc, tree, start, &[0])?;
    fault_along(alloc, tree, known, &found, line)
}

// The first fault of a line, where recorded states needn't be looked at if nothing is missing of them, nor points of lanelets
// if nothing is missing of those: their lines alone have one start and several ways.
fn fault_of(
    alloc: Global,
    tree: &Tree,
    known: &Known,
    line: &Line,
    has_points: bool,
    has_states: bool,
) -> Result<Option<Fault>, AllocError>
    requires known { IsKnown tree.now known.now }
    requires points { IsTrue has_points → NoPointFails tree.now line.now }
    requires states { IsTrue has_states → NoneRecordedFails tree.now line.now }
    ensures { IfOk result (λ first. Least (StartsFail tree.now line.now) first) }
{
    if has_points && line.starts.len() == 1 && 1 < line.ways.len() {
        return Ok(None);
    }
    let mut first = None;
    for start in line.starts {
        let fault = fault_from(alloc, tree, known, line, start, has_states)?;
        first = first_of(first, fault);
    }
    Ok(first)
}

/// The first failing check of a tree, where one fails. Points of lanelets and recorded states needn't be looked at if nothing is
/// missing of them.
pub(crate) fn first_fault(
    alloc: Global,
    tree: &Tree,
    has_points: bool,
    has_states: bool,
) -> Result<Option<Fault>, AllocError>
    requires points { IsTrue has_points → AllBounds tree.now }
    requires states { IsTrue has_states → AllRecorded tree.now }
    ensures { IfOk result (λ first. Least (Fails tree.now) first) }
{
    let known = know(alloc, tree)?;
    let mut first = None;
    for line in lines() {
        let fault = fault_of(alloc, tree, &known, line, has_points, has_states)?;
        first = first_of(first, fault);
    }
    Ok(first)
}
