//! The scenario of a tree, or its refusal.

ghost use Rattle.std.specs.Prelude.{◌≡◌, ◌+◌, ◌*◌, ◌≤◌, length, pos, OnOk, IfOk, IfErr, IsTrue};
ghost use Rattle.std.specs.List.{AllByRecursion};
ghost use Rattle.spot_terms.specs.Decimal.{Reads};
ghost use Rattle.spot_terms.specs.Lists.{Pairwise};
ghost use Rattle.spot_terms.specs.Ranges.{IsMoverInRange, IsFixedInRange, IsProblemInRange};
ghost use Rattle.spot_terms.specs.Ids.{HaveUniqueIds};
ghost use Rattle.spot_claims.specs.Paths.{at_path, statics, dynamics, problems as problem_path};
ghost use Rattle.spot_claims.specs.Scenario.{IsScenario, IsMover, IsFixed, IsProblem};
ghost use Rattle.spot_claims.specs.Profile.{IsAccepted, step_size_text};
ghost use Rattle.scenario.specs.Answers.{IsWhy};
ghost use Rattle.scenario.specs.Found.{AreWholeLanes, AreWholeTracks};
ghost use Rattle.scenario.specs.Has.{AllBounds, AllRecorded};

use crate::checks::step_size_text as text_of_step;
use crate::fault::first_fault;
use crate::items::{fixed_of, movers_of, problems_of};
use crate::lanes::lanes_of;
use crate::numbers::step_in;
use crate::recorded::tracks_of;
use crate::table::{DYNAMICS, PROBLEMS, STATICS};
use crate::walk::walk;
use indexmap::IndexMap;
use spot_terms::{Code, FixedList, MOST_TICKS, Movers, Problems, RawLane, Scenario, StateList};
use spot_tree::Tree;
use std::alloc::{AllocError, Global};
use thiserror::Error;

/// Why a tree has no scenario.
#[derive(Clone, Copy, Debug, PartialEq, Eq, Error)]
pub enum ReadFault {
    /// A check fails: its code, and the number of the element at which it does.
    #[error("refused: {0:?} at {1}")]
    Refused(Code, u32),
    /// There was no memory.
    #[error("out of memory")]
    Memory,
}

impl From<AllocError> for ReadFault {
    ghost use Rattle.scenario.specs.declared.read.ReadFault.TheVariants.{Memory};

    ghost from_gives = { λ _ fault. fault ≡ Memory };

    fn from(_error: AllocError) -> ReadFault {
        ReadFault::Memory
    }
}

// Whether no check of the profile fails. Otherwise the refusal is the failing check at the least place, and at one place
// the first of the element's line.
fn accept(alloc: Global, tree: &Tree, has_points: bool, has_states: bool) -> Result<(), ReadFault>
    requires points { IsTrue has_points → AllBounds tree.now }
    requires states { IsTrue has_states → AllRecorded tree.now }
    ensures ok { OnOk result (IsAccepted tree.now) }
    ensures err { IfErr result (λ fault. IsWhy tree.now fault) }
{
    match first_fault(alloc, tree, has_points, has_states)? {
        None => Ok(()),
        Some(fault) => Err(ReadFault::Refused(fault.code, fault.place)),
    }
}

// The ticks of a step.
fn step_of(tree: &Tree) -> u32
    requires { IsAccepted tree.now }
    ensures reads { Reads 6 (step_size_text tree.now) (pos (1000 * result)) }
    ensures low { 1 ≤ result }
    ensures high { result ≤ MOST_TICKS }
{
    match step_in(text_of_step(tree)) {
        Some(ticks) => ticks,
        None => unreachable!(),
    }
}

// The dynamic obstacles, with what is recorded of them.
fn movers_in(alloc: Global, tree: &Tree, tracks: Vec<StateList>) -> Result<Movers, AllocError>
    requires accepted { IsAccepted tree.now }
    requires tracks { AreWholeTracks tree.now tracks.items }
    ensures are { IfOk result (λ movers. Pairwise (IsMover tree.now) (at_path tree.now dynamics) movers) }
    ensures within { IfOk result (λ movers. AllByRecursion IsMoverInRange movers) }
{
    prove!(0 < tree.len());
    let elements = walk(alloc, tree, DYNAMICS, &[0])?;
    Ok(Movers::from_vec(movers_of(alloc, tree, &elements, tracks)?))
}

// The static obstacles.
fn fixed_in(alloc: Global, tree: &Tree) -> Result<FixedList, AllocError>
    requires { IsAccepted tree.now }
    ensures are { IfOk result (λ fixed. Pairwise (IsFixed tree.now) (at_path tree.now statics) fixed) }
    ensures within { IfOk result (λ fixed. AllByRecursion IsFixedInRange fixed) }
{
    prove!(0 < tree.len());
    let elements = walk(alloc, tree, STATICS, &[0])?;
    Ok(FixedList::from_vec(fixed_of(alloc, tree, &elements)?))
}

// The planning problems.
fn problems_in(alloc: Global, tree: &Tree) -> Result<Problems, AllocError>
    requires { IsAccepted tree.now }
    ensures are { IfOk result (λ problems. Pairwise (IsProblem tree.now) (at_path tree.now problem_path) problems) }
    ensures within { IfOk result (λ problems. AllByRecursion IsProblemInRange problems) }
{
    prove!(0 < tree.len());
    let elements = walk(alloc, tree, PROBLEMS, &[0])?;
    Ok(Problems::from_vec(problems_of(alloc, tree, &elements)?))
}

// The scenario of an accepted tree with these lanelets and recorded states.
fn values_of(
    alloc: Global,
    tree: &Tree,
    lanelets: IndexMap<u32, RawLane>,
    tracks: Vec<StateList>,
) -> Result<Scenario, AllocError>
    requires accepted { IsAccepted tree.now }
    requires lanelets { AreWholeLanes tree.now lanelets.entries }
    requires tracks { AreWholeTracks tree.now tracks.items }
    ensures is { IfOk result (λ s. IsScenario tree.now s) }
    ensures ids { IfOk result (λ s. HaveUniqueIds s) }
{
    prove!(0 < tree.len());
    Ok(Scenario {
        step: step_of(tree),
        lanelets,
        movers: movers_in(alloc, tree, tracks)?,
        fixed: fixed_in(alloc, tree)?,
        problems: problems_in(alloc, tree)?,
    })
}

/// The scenario of a tree, where no check of the profile fails. Otherwise the refusal is the failing check at the least
/// place, and at one place the first of the element's line.
///
/// No two lanelets have the same id, no two obstacles of either kind, and no two problems. References are kept as they stand,
/// but for those that are no ids.
pub fn read_scenario(alloc: Global, tree: &Tree) -> Result<Scenario, ReadFault>
    ensures ok { IfOk result (λ s. IsScenario tree.now s) }
    ensures ids { IfOk result (λ s. HaveUniqueIds s) }
    ensures err { IfErr result (λ fault. IsWhy tree.now fault) }
{
    let lanelets = lanes_of(alloc, tree)?;
    let tracks = tracks_of(alloc, tree)?;
    accept(alloc, tree, lanelets.is_some(), tracks.is_some())?;
    match (lanelets, tracks) {
        (Some(lanelets), Some(tracks)) => Ok(values_of(alloc, tree, lanelets, tracks)?),
        _ => unreachable!(),
    }
}
