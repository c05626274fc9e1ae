//! What the checks of one element need to know of others: who has an id first, and who stands before.

ghost use Rattle.std.specs.Prelude.{◌≡◌, ◌<◌, ◌++◌, ◌==◌, ℕ, List, Option, Some, None, length, nat_lt, IfOk, IsTrue, ◌↔◌, count_by};
ghost use Rattle.std.specs.List.{All};
ghost use Rattle.std.specs.BTreeMap.{get};
ghost use Rattle.std.specs.List.Sorted.{IsNonDecreasingBy};
ghost use Rattle.std.specs.Ordering.{nat_cmp};
ghost use Rattle.spot_claims.specs.Paths.{id_at as the_id_at};
ghost use Rattle.spot_claims.specs.Profile.{at_paths, is_second as stands_second, obstacles};
ghost use Rattle.scenario.specs.Table.{group_paths};
ghost use Rattle.scenario.specs.Known.{HasFirsts, IsKnown, least_of_places, first_in};

use crate::numbers::read_id;
use crate::table::Group;
use crate::walk::walk_all;
use spot_terms::MOST_OBSTACLES;
use spot_tree::Tree;
use std::alloc::{AllocError, Global};
use std::collections::BTreeMap;

/// Of each group the first place of each id, and the places of the obstacles in order.
#[derive(Drop)]
pub(crate) struct Known {
    pub(crate) lanelets: BTreeMap<u32, u32>,
    pub(crate) obstacles: BTreeMap<u32, u32>,
    pub(crate) problems: BTreeMap<u32, u32>,
    pub(crate) places: Vec<u32>,
}

/// The id of an element, which is below `len`.
pub(crate) fn id_at(tree: &Tree, e: u32) -> Option<u32>
    requires { e < length tree.now }
    ensures { result ≡ the_id_at tree.now e }
{
    read_id(tree.attr(e, "id")?)
}

// The least of a place and one that may be known.
fn least_place(known: Option<u32>, e: u32) -> u32
    ensures { result ≡ least_of_places known e }
{
    match known {
        Some(first) if first < e => first,
        _ => e,
    }
}

// The first place of each id among these elements, which are below `len`.
fn first_places(
    alloc: Global,
    tree: &Tree,
    elements: &[u32],
) -> Result<BTreeMap<u32, u32>, AllocError>
    requires { All (λ e. e < length tree.now) elements.now }
    ensures { IfOk result (λ firsts. HasFirsts tree.now elements.now (get nat_cmp firsts)) }
{
    let mut firsts = BTreeMap::new(alloc);
    for e in elements {
        if let Some(id) = id_at(tree, *e) {
            let first = least_place(firsts.get(&id).copied(), *e);
            firsts.insert(id, first)?;
        }
    }
    Ok(firsts)
}

// The elements of a group, static obstacles before dynamic ones.
fn elements_of(alloc: Global, tree: &Tree, group: Group) -> Result<Vec<u32>, AllocError>
    ensures found { IfOk result (λ found. found.items ≡ at_paths tree.now (group_paths group)) }
    ensures within { IfOk result (λ found. All (λ e. e < length tree.now) found.items) }
{
    walk_all(alloc, tree, group.paths())
}

// The first place of each id of a group.
fn firsts_of(alloc: Global, tree: &Tree, group: Group) -> Result<BTreeMap<u32, u32>, AllocError>
    ensures { IfOk result (λ firsts. HasFirsts tree.now (at_paths tree.now (group_paths group)) (get nat_cmp firsts)) }
{
    let elements = elements_of(alloc, tree, group)?;
    first_places(alloc, tree, &elements)
}

// The places of the obstacles, in order.
fn sorted_places(alloc: Global, tree: &Tree) -> Result<Vec<u32>, AllocError>
    ensures same { IfOk result (λ places. (e : ℕ) → count_by (λ d. nat_lt d e) places.items ≡ count_by (λ d. nat_lt d e) (at_paths tree.now obstacles)) }
    ensures sorted { IfOk result (λ places. IsNonDecreasingBy (λ x. x) places.items) }
{
    let mut places = elements_of(alloc, tree, Group::Obstacles)?;
    places.sort()?;
    Ok(places)
}

/// What the checks need to know of a tree.
pub(crate) fn know(alloc: Global, tree: &Tree) -> Result<Known, AllocError>
    ensures { IfOk result (λ known. IsKnown tree.now known) }
{
    Ok(Known {
        lanelets: firsts_of(alloc, tree, Group::Lanelets)?,
        obstacles: firsts_of(alloc, tree, Group::Obstacles)?,
        problems: firsts_of(alloc, tree, Group::Problems)?,
        places: sorted_places(alloc, tree)?,
    })
}

// The first place of an id in a group.
fn first_of(known: &Known, group: Group, id: u32) -> Option<u32>
    ensures { result ≡ first_in group known.now id }
{
    let firsts = match group {
        Group::Lanelets => &known.lanelets,
        Group::Obstacles => &known.obstacles,
        Group::Problems => &known.problems,
    };
    firsts.get(&id).copied()
}

/// Whether an element of the group that stands before this one, which is below `len`, has its id.
pub(crate) fn is_second(known: &Known, tree: &Tree, group: Group, e: u32) -> bool
    requires inside { e < length tree.now }
    requires known { IsKnown tree.now known.now }
    ensures { result ≡ stands_second tree.now (at_paths tree.now (group_paths group)) e }
{
    let Some(id) = id_at(tree, e) else {
        return false;
    };
    match first_of(known, group, id) {
        Some(first) => first < e,
        None => false,
    }
}

// How many of these places, which are in order, stand before an element.
fn count_before(places: &[u32], e: u32) -> usize
    requires { IsNonDecreasingBy (λ x. x) places.now }
    ensures { result ≡ count_by (λ d. nat_lt d e) places.now }
{
    places.partition_point(|place| *place < e)
}

/// Whether as many obstacles as there may be stand before an element.
pub(crate) fn is_excess(known: &Known, e: u32) -> bool
    requires { IsNonDecreasingBy (λ x. x) known.now.places.items }
    ensures { IsTrue result ↔ (count_by (λ d. nat_lt d e) known.now.places.items ≡ MOST_OBSTACLES) }
{
    count_before(&known.places, e) == MOST_OBSTACLES
}
