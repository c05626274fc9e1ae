//! The traffic of a scenario: its network, and the prediction of its participants.

ghost use Rattle.std.specs.Prelude.{◌≡◌, ℕ, ◌≤◌, IfOk, IfErr};
ghost use Rattle.spot_terms.specs.Limits.{HasNetwork};
ghost use Rattle.spot_run.specs.Writes.{IsPastLimit, IsPredicted};

use lanelets::{NetFault, Network, build};
use participants::{PredictFault, Prediction, predict};
use spot_terms::{MOST_STEPS, Scenario, Status, Which};
use std::alloc::Global;

// The network of a scenario, or the status that says why there is none.
pub(crate) fn network_of(alloc: Global, scenario: &Scenario) -> Result<Network, Status>
    ensures ok { IfOk result (λ net. (net ≡ scenario.now.lanelets.entries) × HasNetwork scenario.now.lanelets.entries) }
    ensures err { IfErr result (λ status. (steps : ℕ) → IsPastLimit scenario.now steps status) }
{
    match build(alloc, &scenario.lanelets) {
        Ok(net) => Ok(net),
        Err(NetFault::TooManyCells(count)) => Err(Status::Limit(Which::TooManyCells, 0, count)),
        Err(NetFault::LaneTooWide(id)) => Err(Status::Limit(Which::LaneTooWide, 0, u64::from(id))),
        Err(NetFault::Memory) => Err(Status::Memory),
    }
}

// The prediction of a scenario over its network, or the status that says why there is none.
pub(crate) fn predict_over(
    alloc: Global,
    scenario: &Scenario,
    net: &Network,
    steps: u32,
) -> Result<Prediction, Status>
    requires network { net.now ≡ scenario.now.lanelets.entries }
    requires built { HasNetwork scenario.now.lanelets.entries }
    requires steps { (1 ≤ steps) × (steps ≤ MOST_STEPS) }
    ensures ok { IfOk result (λ p. IsPredicted scenario.now steps p) }
    ensures err { IfErr result (λ status. IsPastLimit scenario.now steps status) }
{
    match predict(alloc, scenario, net, steps) {
        Ok(prediction) => Ok(prediction),
        Err(PredictFault::TooManyLanePolygons(count)) => {
            Err(Status::Limit(Which::TooManyLanePolygons, 0, count))
        }
        Err(PredictFault::Memory) => Err(Status::Memory),
    }
}

// The prediction of a scenario, or the status that says why there is none.
pub(crate) fn prediction_of(
    alloc: Global,
    scenario: &Scenario,
    steps: u32,
) -> Result<Prediction, Status>
    requires steps { (1 ≤ steps) × (steps ≤ MOST_STEPS) }
    ensures ok { IfOk result (λ p. IsPredicted scenario.now steps p) }
    ensures err { IfErr result (λ status. IsPastLimit scenario.now steps status) }
{
    let net = network_of(alloc, scenario)?;
    predict_over(alloc, scenario, &net, steps)
}
