//! The checks of one element.

ghost use Rattle.std.specs.Prelude.{◌≡◌, ◌<◌, ◌≤◌, ◌+◌, ◌↔◌, ◌==◌, ◌||◌, ◌&&◌, map, not, length, nat_lt, option_map, unwrap_or, IsTrue, codes};
ghost use Rattle.spot_claims.specs.Tree.{all_named, is_called, attribute_at, text_at};
ghost use Rattle.spot_claims.specs.Profile.{point_count, lacks_one as one_lacks, lacks_all as all_lack, lacks as child_lacks, step_size_text as the_step_size_text, FailsAt, wrong_version, no_step_size};
ghost use Rattle.scenario.specs.Table.{check_of, text_of};
ghost use Rattle.scenario.specs.Known.{IsKnown};

use crate::known::{Known, id_at, is_excess, is_second};
use crate::numbers::{is_bad_number, is_outside, is_too_large, is_uneven};
use crate::table::Check;
use spot_tree::Tree;

// How many children of a name an element has, which is below `len`.
fn count_named(tree: &Tree, e: u32, name: &str) -> usize
    requires { e < length tree.now }
    ensures { result ≡ length (all_named tree.now name.now e) }
{
    let mut count = 0;
    for c in tree.children(e) {
        if tree.name(*c) == name {
            count += 1;
        }
    }
    count
}

// How many points the first bound of a name has.
fn count_points(tree: &Tree, e: u32, bound: &str) -> usize
    requires { e < length tree.now }
    ensures { result ≡ point_count tree.now bound.now e }
{
    match tree.child(e, bound) {
        Some(b) => count_named(tree, b, "point"),
        None => 0,
    }
}

// Whether the bounds of a lanelet have different numbers of points, or fewer than two.
fn has_uneven_bounds(tree: &Tree, e: u32) -> bool
    requires { e < length tree.now }
    ensures { result ≡ (not (point_count tree.now (codes "leftBound") e == point_count tree.now (codes "rightBound") e) || nat_lt (point_count tree.now (codes "leftBound") e) 2) }
{
    let left = count_points(tree, e, "leftBound");
    let right = count_points(tree, e, "rightBound");
    left != right || left < 2
}

// Whether an element has no child of a name.
fn lacks(tree: &Tree, e: u32, name: &str) -> bool
    requires { e < length tree.now }
    ensures { result ≡ child_lacks tree.now e name.now }
{
    tree.child(e, name).is_none()
}

// Whether one of these children isn't there.
fn lacks_one(tree: &Tree, e: u32, names: &[&str]) -> bool
    requires { e < length tree.now }
    ensures { result ≡ one_lacks tree.now e (map text_of names.now) }
{
    for name in names {
        if lacks(tree, e, name) {
            return true;
        }
    }
    false
}

// Whether none of these children is there.
fn lacks_all(tree: &Tree, e: u32, names: &[&str]) -> bool
    requires { e < length tree.now }
    ensures { result ≡ all_lack tree.now e (map text_of names.now) }
{
    for name in names {
        if !lacks(tree, e, name) {
            return false;
        }
    }
    true
}

// Whether the version of an element isn't the one that is read.
fn has_wrong_version(tree: &Tree, e: u32) -> bool
    requires { e < length tree.now }
    ensures { IsTrue result ↔ FailsAt tree.now e wrong_version }
{
    tree.attr(e, "commonRoadVersion") != Some("2020a")
}

/// The text of the step size, or none.
pub(crate) fn step_size_text(tree: &Tree) -> &str
    ensures { result.now ≡ the_step_size_text tree.now }
{
    prove!(0 < tree.len());
    match tree.attr(0, "timeStepSize") {
        Some(text) => text,
        None => "",
    }
}

// Whether there is no step size.
fn has_no_step_size(tree: &Tree) -> bool
    ensures { IsTrue result ↔ FailsAt tree.now 0 no_step_size }
{
    prove!(0 < tree.len());
    tree.attr(0, "timeStepSize").is_none()
}

/// Whether a check fails at an element, which is below `len`.
pub(crate) fn fails(tree: &Tree, known: &Known, e: u32, check: &Check) -> bool
    requires inside { e < length tree.now }
    requires known { IsKnown tree.now known.now }
    ensures { IsTrue result ↔ FailsAt tree.now e (check_of check.now) }
{
    match check {
        Check::WrongRoot => tree.name(e) != "commonRoad",
        Check::WrongVersion => has_wrong_version(tree, e),
        Check::NoStepSize => has_no_step_size(tree),
        Check::BadStepSize => is_bad_number(step_size_text(tree)),
        Check::LargeStepSize => is_too_large(step_size_text(tree)),
        Check::UnevenStepSize => is_uneven(step_size_text(tree)),
        Check::BadId => id_at(tree, e).is_none(),
        Check::DuplicateId(group) => is_second(known, tree, *group, e),
        Check::TooMany => is_excess(known, e),
        Check::BoundCount => has_uneven_bounds(tree, e),
        Check::LacksAChild(names) => lacks_one(tree, e, names),
        Check::LacksEachChild(_, names) => lacks_all(tree, e, names),
        Check::BadNumber => is_bad_number(tree.text(e)),
        Check::OutOfRange(number) => is_outside(tree.text(e), number),
    }
}
