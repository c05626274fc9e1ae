//! The scenario of an element tree.
#![tactic(auto)]

ghost use Rattle.spot_claims.specs.Profile.{TreeHasOneRefusal};
ghost use Rattle.spot_claims.specs.Scenario.{TreeHasOneScenario};

mod checks;
mod fault;
mod items;
mod known;
mod lanes;
mod numbers;
mod read;
mod recorded;
mod shapes;
mod table;
mod values;
mod walk;

pub use read::{ReadFault, read_scenario};
pub use spot_terms::{
    Code, Fixed, FixedList, IdList, Kind, Mover, Movers, Problem, Problems, PtList, RawLane,
    Scenario, StateList,
};

/// A tree that bytes say has one refusal at most: one place, and one code there.
pub fn a_tree_has_one_refusal()
    ensures { TreeHasOneRefusal }
{}

/// A tree has one scenario at most.
pub fn a_tree_has_one_scenario()
    ensures { TreeHasOneScenario }
{}

#[cfg(test)]
mod tests;
