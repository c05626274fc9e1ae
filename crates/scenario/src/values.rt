//! The numbers and points of an accepted tree.

ghost use Rattle.std.specs.Prelude.{◌≡◌, ◌<◌, ◌≤◌, length, pos, codes};
ghost use Rattle.spot_terms.specs.Whole.{Within, SizeAtMost};
ghost use Rattle.spot_claims.specs.Profile.{angle, speed, step_number};
ghost use Rattle.spot_claims.specs.Radii.{Holds, HoldsPt};
ghost use Rattle.spot_claims.specs.Scenario.{HoldsExact, HoldsPosition};
ghost use Rattle.scenario.specs.Table.{number_of};
ghost use Rattle.scenario.specs.Found.{FindsNumber, FindsPoint, FindsExact, FindsPosition, FindsTime};
ghost use Rattle.scenario.specs.Has.{HasNumber, HasPoint, HasExact, HasPosition};

use crate::numbers::read_number;
use crate::table::{ANGLE_RANGE, COORDINATE_RANGE, Number, SPEED_RANGE, TIME_RANGE};
use spot_terms::{MOST_ANGLE, MOST_COORDINATE, MOST_SPEED, MOST_TIME, Pt};
use spot_tree::Tree;

// The number in the first child of a name, exactly where there is one in its range.
fn find_number(tree: &Tree, e: u32, name: &str, number: &Number) -> Option<i64>
    requires { e < length tree.now }
    ensures { FindsNumber tree.now e name.now (number_of number.now) result }
{
    let child = tree.child(e, name)?;
    read_number(tree.text(child), number)
}

/// The point in the children `x` and `y`, exactly where both are there and in their range.
pub(crate) fn find_point(tree: &Tree, e: u32, number: &Number) -> Option<Pt>
    requires inside { e < length tree.now }
    requires micro { (number_of number.now).places ≡ 6 }
    ensures { FindsPoint tree.now e (number_of number.now) result }
{
    Some(Pt {
        x: find_number(tree, e, "x", number)?,
        y: find_number(tree, e, "y", number)?,
    })
}

/// The number in the first child of a name.
pub(crate) fn number_at(tree: &Tree, e: u32, name: &str, number: &Number) -> i64
    requires inside { e < length tree.now }
    requires has { HasNumber tree.now e name.now (number_of number.now) }
    ensures holds { Holds tree.now e name.now (number_of number.now).places result }
    ensures within { Within number.now.least number.now.most result }
{
    match find_number(tree, e, name, number) {
        Some(value) => value,
        None => unreachable!(),
    }
}

/// The point in the children `x` and `y`.
pub(crate) fn point_at(tree: &Tree, e: u32, number: &Number) -> Pt
    requires inside { e < length tree.now }
    requires micro { (number_of number.now).places ≡ 6 }
    requires has { HasPoint tree.now e (number_of number.now) }
    ensures holds { HoldsPt tree.now e result }
    ensures x_within { Within number.now.least number.now.most result.x }
    ensures y_within { Within number.now.least number.now.most result.y }
{
    match find_point(tree, e, number) {
        Some(point) => point,
        None => unreachable!(),
    }
}

// The number in `exact` in the first child of a name, exactly where there is one in its range.
fn find_exact(tree: &Tree, e: u32, name: &str, number: &Number) -> Option<i64>
    requires { e < length tree.now }
    ensures { FindsExact tree.now e name.now (number_of number.now) result }
{
    let child = tree.child(e, name)?;
    find_number(tree, child, "exact", number)
}

/// The point of the position of a state, exactly where there is one.
pub(crate) fn find_position(tree: &Tree, e: u32) -> Option<Pt>
    requires { e < length tree.now }
    ensures { FindsPosition tree.now e result }
{
    let position = tree.child(e, "position")?;
    let point = tree.child(position, "point")?;
    find_point(tree, point, &COORDINATE_RANGE)
}

/// The time of a state, in steps, exactly where there is one.
pub(crate) fn find_time(tree: &Tree, e: u32) -> Option<u32>
    requires { e < length tree.now }
    ensures { FindsTime tree.now e result }
{
    let time = find_exact(tree, e, "time", &TIME_RANGE)?;
    Some(time as u32)
}

// The number in `exact` in the first child of a name.
fn exact_at(tree: &Tree, e: u32, name: &str, number: &Number) -> i64
    requires inside { e < length tree.now }
    requires has { HasExact tree.now e name.now (number_of number.now) }
    ensures holds { HoldsExact tree.now e name.now (number_of number.now).places result }
    ensures within { Within number.now.least number.now.most result }
{
    match find_exact(tree, e, name, number) {
        Some(value) => value,
        None => unreachable!(),
    }
}

/// The point of the position of a state.
pub(crate) fn position_at(tree: &Tree, e: u32) -> Pt
    requires inside { e < length tree.now }
    requires has { HasPosition tree.now e }
    ensures holds { HoldsPosition tree.now e result.x result.y }
    ensures x_within { SizeAtMost MOST_COORDINATE result.x }
    ensures y_within { SizeAtMost MOST_COORDINATE result.y }
{
    match find_position(tree, e) {
        Some(point) => point,
        None => unreachable!(),
    }
}

/// The time of a state, in steps.
pub(crate) fn time_at(tree: &Tree, e: u32) -> u32
    requires inside { e < length tree.now }
    requires has { HasExact tree.now e (codes "time") step_number }
    ensures holds { HoldsExact tree.now e (codes "time") 0 (pos result) }
    ensures within { result ≤ MOST_TIME }
{
    match find_time(tree, e) {
        Some(time) => time,
        None => unreachable!(),
    }
}

/// The speed of a state, in millimetres a second.
pub(crate) fn speed_at(tree: &Tree, e: u32) -> i64
    requires inside { e < length tree.now }
    requires has { HasExact tree.now e (codes "velocity") speed }
    ensures holds { HoldsExact tree.now e (codes "velocity") 3 result }
    ensures within { SizeAtMost MOST_SPEED result }
{
    exact_at(tree, e, "velocity", &SPEED_RANGE)
}

/// The angle of a state, in millionths of a radian.
pub(crate) fn angle_at(tree: &Tree, e: u32) -> i64
    requires inside { e < length tree.now }
    requires has { HasExact tree.now e (codes "orientation") angle }
    ensures holds { HoldsExact tree.now e (codes "orientation") 6 result }
    ensures within { SizeAtMost MOST_ANGLE result }
{
    exact_at(tree, e, "orientation", &ANGLE_RANGE)
}
