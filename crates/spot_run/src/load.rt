//! From a source to a scenario.

ghost use Rattle.std.specs.Prelude.{◌≡◌, ℕ, ◌≤◌, List, Some, IfOk, IfErr, IsErrOf};
ghost use Rattle.spot_terms.specs.Causes.{Rose};
ghost use Rattle.spot_terms.specs.Ids.{HaveUniqueIds};
ghost use Rattle.spot_claims.specs.Scenario.{IsScenario, IsScenarioOf};
ghost use Rattle.spot_run.specs.Loads.{Loads, IsLoadFault, HasNone};

use scenario::{ReadFault, read_scenario};
use spot_io::{ReadEnd, Source, read_all};
use spot_terms::{Code, MOST_BYTES, Scenario, Status, Which};
use spot_tree::{Tree, TreeFault, read_tree};
use std::alloc::Global;

// The scenario of a tree, or the status that says why there is none.
pub(crate) fn scenario_of(alloc: Global, tree: &Tree) -> Result<Scenario, Status>
    ensures scenario { IfOk result (λ s. IsScenario tree.now s) }
    ensures ids { IfOk result (λ s. HaveUniqueIds s) }
    ensures none { IfErr result (λ status. HasNone tree.now status) }
{
    match read_scenario(alloc, tree) {
        Ok(scenario) => Ok(scenario),
        Err(ReadFault::Refused(code, place)) => Err(Status::Refused(code, place)),
        Err(ReadFault::Memory) => Err(Status::Memory),
    }
}

/// Reads a source to its end, and gives the scenario in its bytes, or the status that says why there is none.
pub fn load<S: Source>(alloc: Global, source: &mut S) -> Result<Scenario, Status>
    ensures told { (bytes : List ℕ) → S.left source.old ≡ Some bytes → Loads bytes (S.left source.new) result }
    ensures scenario { IfOk result (λ s. (bytes : List ℕ) × IsScenarioOf bytes s) }
    ensures ids { IfOk result (λ s. HaveUniqueIds s) }
    ensures answers { IfErr result (λ status. IsLoadFault status) }
    ensures later { S.faults source.old ≤ S.faults source.new }
    ensures fault { IsErrOf result Status.ReadFault → Rose (S.faults source.old) (S.faults source.new) }
{
    let bytes = match read_all(alloc, source) {
        Ok(bytes) => bytes,
        Err(ReadEnd::Fault) => return Err(Status::ReadFault),
        Err(ReadEnd::TooLong) => return Err(Status::Limit(
            Which::TooLong,
            0,
            MOST_BYTES as u64 + 1,
        )),
        Err(ReadEnd::Memory) => return Err(Status::Memory),
    };
    let tree = match read_tree(alloc, &bytes) {
        Ok(tree) => tree,
        Err(TreeFault::NotJson) => return Err(Status::Refused(Code::NotJson, 0)),
        Err(TreeFault::NotTree(place)) => return Err(Status::Refused(Code::NotTree, place)),
        Err(TreeFault::Memory) => return Err(Status::Memory),
    };
    scenario_of(alloc, &tree)
}
