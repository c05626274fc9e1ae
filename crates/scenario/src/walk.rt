//! From elements along paths to others.

ghost use Rattle.std.specs.Prelude.{◌≡◌, ◌<◌, ◌++◌, map, length, IfOk, OnOk};
ghost use Rattle.std.specs.List.{All};
ghost use Rattle.spot_claims.specs.Tree.{all_named};
ghost use Rattle.spot_claims.specs.Paths.{take_step as step_taken, walk as walked, each_child as each_step, first_child as first_step};
ghost use Rattle.spot_claims.specs.Profile.{at_paths};
ghost use Rattle.scenario.specs.Table.{step_of, path_of};

use crate::table::{Path, Step};
use spot_tree::Tree;
use std::alloc::{AllocError, Global};

// Adds the children of a name of an element, which is below `len`, in document order.
fn add_named(tree: &Tree, name: &str, e: u32, found: &mut Vec<u32>) -> Result<(), AllocError>
    requires inside { e < length tree.now }
    requires within { All (λ e. e < length tree.now) found.old.items }
    ensures found { OnOk result (found.new.items ≡ found.old.items ++ all_named tree.now name.now e) }
    ensures within { All (λ e. e < length tree.now) found.new.items }
{
    for c in tree.children(e) {
        if tree.name(*c) == name {
            found.push(*c)?;
        }
    }
    Ok(())
}

/// The children of a name of each of these elements, which are below `len`.
#[tactic(auto, using(crate::proofs::Paths::flat_map_more))]
pub(crate) fn each_child(
    alloc: Global,
    tree: &Tree,
    name: &str,
    elements: &[u32],
) -> Result<Vec<u32>, AllocError>
    requires { All (λ e. e < length tree.now) elements.now }
    ensures found { IfOk result (λ found. found.items ≡ step_taken tree.now (each_step name.now) elements.now) }
    ensures within { IfOk result (λ found. All (λ e. e < length tree.now) found.items) }
{
    let mut found = Vec::new(alloc);
    for e in elements {
        add_named(tree, name, *e, &mut found)?;
    }
    Ok(found)
}

// The first child of a name of each of these elements, which are below `len`.
fn first_child(
    alloc: Global,
    tree: &Tree,
    name: &str,
    elements: &[u32],
) -> Result<Vec<u32>, AllocError>
    requires { All (λ e. e < length tree.now) elements.now }
    ensures found { IfOk result (λ found. found.items ≡ step_taken tree.now (first_step name.now) elements.now) }
    ensures within { IfOk result (λ found. All (λ e. e < length tree.now) found.items) }
{
    let mut found = Vec::new(alloc);
    for e in elements {
        if let Some(c) = tree.child(*e, name) {
            found.push(c)?;
        }
    }
    Ok(found)
}

// The elements that a step leads to from these, which are below `len`. They are below `len` too.
fn take_step(
    alloc: Global,
    tree: &Tree,
    step: &Step,
    elements: &[u32],
) -> Result<Vec<u32>, AllocError>
    requires { All (λ e. e < length tree.now) elements.now }
    ensures found { IfOk result (λ found. found.items ≡ step_taken tree.now (step_of step.now) elements.now) }
    ensures within { IfOk result (λ found. All (λ e. e < length tree.now) found.items) }
{
    match step {
        Step::Each(name) => each_child(alloc, tree, name, elements),
        Step::First(name) => first_child(alloc, tree, name, elements),
    }
}

/// The elements that a path leads to from these, which are below `len`. They are below `len` too.
pub(crate) fn walk(
    alloc: Global,
    tree: &Tree,
    path: &[Step],
    start: &[u32],
) -> Result<Vec<u32>, AllocError>
    requires { All (λ e. e < length tree.now) start.now }
    ensures found { IfOk result (λ found. found.items ≡ walked tree.now (map step_of path.now) start.now) }
    ensures within { IfOk result (λ found. All (λ e. e < length tree.now) found.items) }
{
    let mut elements = Vec::from_slice(alloc, start)?;
    for step in path {
        elements = take_step(alloc, tree, step, &elements)?;
    }
    Ok(elements)
}

/// The elements that paths from the root lead to, those of one path after another. They are below `len`.
pub(crate) fn walk_all(alloc: Global, tree: &Tree, paths: &[Path]) -> Result<Vec<u32>, AllocError>
    ensures found { IfOk result (λ found. found.items ≡ at_paths tree.now (map path_of paths.now)) }
    ensures within { IfOk result (λ found. All (λ e. e < length tree.now) found.items) }
{
    prove!(0 < tree.len());
    let mut found = Vec::new(alloc);
    for path in paths {
        let more = walk(alloc, tree, path, &[0])?;
        found.extend_from_slice(&more)?;
    }
    Ok(found)
}
