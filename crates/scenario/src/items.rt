//! The obstacles and the problems of an accepted tree.

ghost use Rattle.std.specs.Prelude.{◌≡◌, ◌<◌, ℕ, length, map, IfOk};
ghost use Rattle.std.specs.List.{All, AllByRecursion};
ghost use Rattle.spot_terms.specs.Lists.{Includes, Pairwise};
ghost use Rattle.spot_terms.specs.Types.{type_named, types};
ghost use Rattle.scenario.specs.Kinds.{view_of, key_of};
ghost use Rattle.spot_terms.specs.Ranges.{IsMoverInRange, IsFixedInRange, IsProblemInRange};
ghost use Rattle.spot_claims.specs.Scenario.{IsMover, IsFixed, IsProblem, type_text};
ghost use Rattle.scenario.specs.Found.{IsTrack};
ghost use Rattle.scenario.specs.Has.{HasFixed, HasMover, HasProblem};

use crate::known::id_at;
use crate::shapes::shape_at;
use crate::values::{angle_at, position_at, speed_at, time_at};
use spot_terms::{Fixed, Kind, Mover, Problem, StateList};
use spot_tree::Tree;
use std::alloc::{AllocError, Global};

// A type with its name.
#[derive(Clone, Copy, Debug, PartialEq, Eq)]
struct NamedKind {
    name: &'static str,
    kind: Kind,
}

const KINDS: [NamedKind; 9] = [
    NamedKind {
        name: "car",
        kind: Kind::Car,
    },
    NamedKind {
        name: "taxi",
        kind: Kind::Taxi,
    },
    NamedKind {
        name: "truck",
        kind: Kind::Truck,
    },
    NamedKind {
        name: "bus",
        kind: Kind::Bus,
    },
    NamedKind {
        name: "priorityVehicle",
        kind: Kind::Priority,
    },
    NamedKind {
        name: "motorcycle",
        kind: Kind::Motorcycle,
    },
    NamedKind {
        name: "bicycle",
        kind: Kind::Bicycle,
    },
    NamedKind {
        name: "pedestrian",
        kind: Kind::Pedestrian,
    },
    NamedKind {
        name: "train",
        kind: Kind::Train,
    },
];

// The problem of an element.
fn problem_at(tree: &Tree, e: u32) -> Problem
    requires inside { e < length tree.now }
    requires has { HasProblem tree.now e }
    ensures is { IsProblem tree.now e result }
    ensures within { IsProblemInRange result }
{
    let Some(id) = id_at(tree, e) else {
        unreachable!()
    };
    let Some(start) = tree.child(e, "initialState") else {
        unreachable!()
    };
    let position = position_at(tree, start);
    Problem {
        id,
        place: e,
        time: time_at(tree, start),
        x: position.x,
        y: position.y,
        speed: speed_at(tree, start),
        angle: angle_at(tree, start),
    }
}

/// The problems of these elements.
pub(crate) fn problems_of(
    alloc: Global,
    tree: &Tree,
    elements: &[u32],
) -> Result<Vec<Problem>, AllocError>
    requires inside { All (λ e. e < length tree.now) elements.now }
    requires has { (e : ℕ) → Includes elements.now e → HasProblem tree.now e }
    ensures are { IfOk result (λ problems. Pairwise (IsProblem tree.now) elements.now problems.items) }
    ensures within { IfOk result (λ problems. AllByRecursion IsProblemInRange problems.items) }
{
    let mut problems = Vec::new(alloc);
    for e in elements {
        problems.push(problem_at(tree, *e))?;
    }
    Ok(problems)
}

// The static obstacle of an element.
fn fixed_at(alloc: Global, tree: &Tree, e: u32) -> Result<Fixed, AllocError>
    requires inside { e < length tree.now }
    requires has { HasFixed tree.now e }
    ensures is { IfOk result (λ fixed. IsFixed tree.now e fixed) }
    ensures within { IfOk result (λ fixed. IsFixedInRange fixed) }
{
    let Some(id) = id_at(tree, e) else {
        unreachable!()
    };
    let Some(shape) = tree.child(e, "shape") else {
        unreachable!()
    };
    let Some(start) = tree.child(e, "initialState") else {
        unreachable!()
    };
    let radii = shape_at(alloc, tree, shape)?;
    let position = position_at(tree, start);
    Ok(Fixed {
        id,
        place: e,
        enclosing: radii.enclosing,
        inscribed: radii.inscribed,
        x: position.x,
        y: position.y,
    })
}

/// The static obstacles of these elements.
pub(crate) fn fixed_of(
    alloc: Global,
    tree: &Tree,
    elements: &[u32],
) -> Result<Vec<Fixed>, AllocError>
    requires inside { All (λ e. e < length tree.now) elements.now }
    requires has { (e : ℕ) → Includes elements.now e → HasFixed tree.now e }
    ensures are { IfOk result (λ fixed. Pairwise (IsFixed tree.now) elements.now fixed.items) }
    ensures within { IfOk result (λ fixed. AllByRecursion IsFixedInRange fixed.items) }
{
    let mut fixed = Vec::new(alloc);
    for e in elements {
        fixed.push(fixed_at(alloc, tree, *e)?)?;
    }
    Ok(fixed)
}

// The types that have names of their own.
fn kinds() -> &'static [NamedKind]
    ensures { map view_of result.now ≡ map key_of types }
{
    &KINDS
}

// The type of an obstacle that a text names.
fn kind_of(text: &str) -> Kind
    ensures { result ≡ (type_named text.now).kind }
{
    for named in kinds() {
        if named.name == text {
            return named.kind;
        }
    }
    Kind::Unknown
}

// The type of an obstacle.
fn kind_at(tree: &Tree, e: u32) -> Kind
    requires { e < length tree.now }
    ensures { result ≡ (type_named (type_text tree.now e)).kind }
{
    match tree.child(e, "type") {
        Some(named) => kind_of(tree.text(named)),
        None => kind_of(""),
    }
}

// The dynamic obstacle of an element, with what is recorded of it.
fn mover_at(alloc: Global, tree: &Tree, e: u32, recorded: StateList) -> Result<Mover, AllocError>
    requires inside { e < length tree.now }
    requires has { HasMover tree.now e }
    requires track { IsTrack tree.now e recorded }
    ensures is { IfOk result (λ mover. IsMover tree.now e mover) }
    ensures within { IfOk result (λ mover. IsMoverInRange mover) }
{
    let Some(id) = id_at(tree, e) else {
        unreachable!()
    };
    let Some(shape) = tree.child(e, "shape") else {
        unreachable!()
    };
    let Some(start) = tree.child(e, "initialState") else {
        unreachable!()
    };
    let radii = shape_at(alloc, tree, shape)?;
    let position = position_at(tree, start);
    Ok(Mover {
        id,
        place: e,
        kind: kind_at(tree, e),
        enclosing: radii.enclosing,
        inscribed: radii.inscribed,
        time: time_at(tree, start),
        x: position.x,
        y: position.y,
        speed: speed_at(tree, start),
        angle: angle_at(tree, start),
        recorded,
    })
}

/// The dynamic obstacles of these elements, with what is recorded of each.
pub(crate) fn movers_of(
    alloc: Global,
    tree: &Tree,
    elements: &[u32],
    tracks: Vec<StateList>,
) -> Result<Vec<Mover>, AllocError>
    requires inside { All (λ e. e < length tree.now) elements.now }
    requires has { (e : ℕ) → Includes elements.now e → HasMover tree.now e }
    requires tracks { Pairwise (IsTrack tree.now) elements.now tracks.items }
    ensures are { IfOk result (λ movers. Pairwise (IsMover tree.now) elements.now movers.items) }
    ensures within { IfOk result (λ movers. AllByRecursion IsMoverInRange movers.items) }
{
    let mut movers = Vec::new(alloc);
    let mut tracks = tracks.into_iter();
    for e in elements {
        let Some(recorded) = tracks.next() else {
            unreachable!()
        };
        movers.push(mover_at(alloc, tree, *e, recorded)?)?;
    }
    Ok(movers)
}
