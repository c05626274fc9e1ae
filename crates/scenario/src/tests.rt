mod refusals;

use super::*;
use spot_tree::read_tree;
use std::process::Abort;
use std::test::Fail;

// A scenario with a lanelet, an obstacle of each kind, and a problem.
const ACCEPTED: &str = r#"["commonRoad",{"commonRoadVersion":"2020a","timeStepSize":"0.1"},
["lanelet",{"id":"1"},
["leftBound",["point",["x","0"],["y","3.5"]],["point",["x","10"],["y","3.5"]]],
["rightBound",["point",["x","0"],["y","0"]],["point",["x","10"],["y","0"]]],
["successor",{"ref":"2"}],["predecessor",{"ref":"x"}],
["adjacentLeft",{"ref":"3","drivingDir":"same"}],["adjacentRight",{"ref":"2","drivingDir":"opposite"}]],
["dynamicObstacle",{"id":"7"},["type","bicycle"],
["shape",["rectangle",["length","4.5"],["width","1.8"],["center",["x","3"],["y","4"]]],["circle",["radius","0.5"]]],
["initialState",["position",["point",["x","1.5"],["y","-2"]]],
["orientation",["exact","0.25"]],["velocity",["exact","13.9"]],["time",["exact","0"]]],
["trajectory",["state",["position",["point",["x","3"],["y","-2"]]],["time",["exact","1"]]]]],
["staticObstacle",{"id":"8"},
["shape",["polygon",["point",["x","1"],["y","2"]],["point",["x","-3"],["y","1"]]]],
["initialState",["position",["point",["x","50"],["y","0"]]]]],
["planningProblem",{"id":"9"},
["initialState",["position",["point",["x","0"],["y","1.75"]]],
["orientation",["exact","-1"]],["velocity",["exact","30"]],["time",["exact","2"]]]]]"#;

// What is read of it: the recorded states, the static obstacle, the problem, and the bounds of the lanelet.
const RECORDED: &[(u32, i64, i64)] = &[(0, 1_500_000, -2_000_000), (1, 3_000_000, -2_000_000)];

const FIXED: &[Fixed] = &[Fixed {
    id: 8,
    place: 50,
    enclosing: 3_162_278,
    inscribed: 0,
    x: 50_000_000,
    y: 0,
}];

const PROBLEMS: &[Problem] = &[Problem {
    id: 9,
    place: 64,
    time: 2,
    x: 0,
    y: 1_750_000,
    speed: 30_000,
    angle: -1_000_000,
}];

const LEFT: &[(i64, i64)] = &[(0, 3_500_000), (10_000_000, 3_500_000)];

const RIGHT: &[(i64, i64)] = &[(0, 0), (10_000_000, 0)];

// Asks that a lanelet is that of the scenario.
fn is_lanelet(rt: &impl Abort, lane: &RawLane) {
    assert_eq!(rt; lane.left.list(), LEFT);
    assert_eq!(rt; lane.right.list(), RIGHT);
    assert_eq!(rt; lane.successors.list(), [2].as_slice());
    assert!(rt; lane.predecessors.list().is_empty());
    assert_eq!(rt; lane.sides.list(), [3].as_slice());
}

// Asks that a dynamic obstacle is that of the scenario.
fn is_bicycle(rt: &impl Abort, mover: &Mover) {
    assert_eq!(rt; (mover.id, mover.place, mover.time), (7, 20, 0));
    assert_eq!(rt; mover.kind, Kind::Bicycle);
    assert_eq!(rt; (mover.enclosing, mover.inscribed), (7_423_325, 500_000));
    assert_eq!(rt; (mover.x, mover.y), (1_500_000, -2_000_000));
    assert_eq!(rt; (mover.speed, mover.angle), (13_900, 250_000));
    assert_eq!(rt; mover.recorded.list(), RECORDED);
}

// Asks that a scenario is the one of the text.
fn is_accepted(rt: &impl Abort, scenario: &Scenario) {
    assert_eq!(rt; scenario.step, 100);
    assert_eq!(rt; scenario.movers.list().len(), 1);
    for mover in scenario.movers.list() {
        is_bicycle(rt, mover);
    }
    assert_eq!(rt; scenario.fixed.list(), FIXED);
    assert_eq!(rt; scenario.problems.list(), PROBLEMS);
}

#[test]
fn an_accepted_tree_is_read(rt: HostRuntime) -> Result<(), Fail> {
    assert!(rt; ACCEPTED.len() <= 10_000);
    let tree = read_tree(rt.alloc(), ACCEPTED.as_bytes())?;
    let scenario = read_scenario(rt.alloc(), &tree)?;
    is_accepted(&rt, &scenario);
    is_lanelet(&rt, scenario.lanelets.get(&1).ok_or("no lanelet")?);
    Ok(())
}

// Static obstacles that are rectangles: with an odd lesser side, and with centres near to and past half of it.
const RECTANGLES: &str = r#"["commonRoad",{"commonRoadVersion":"2020a","timeStepSize":"0.1"},
["staticObstacle",{"id":"1"},["shape",["rectangle",["length","4.500001"],["width","1.800001"]]],
["initialState",["position",["point",["x","0"],["y","0"]]]]],
["staticObstacle",{"id":"2"},
["shape",["rectangle",["length","1.800003"],["width","4.5"],["center",["x","0.3"],["y","-0.4"]]]],
["initialState",["position",["point",["x","0"],["y","0"]]]]],
["staticObstacle",{"id":"3"},
["shape",["rectangle",["length","4.5"],["width","1.8"],["center",["x","0.900001"],["y","0"]]]],
["initialState",["position",["point",["x","0"],["y","0"]]]]],
["staticObstacle",{"id":"4"},
["shape",["rectangle",["length","4.5"],["width","1.8"],["center",["x","0"],["y","0.899999"]]]],
["initialState",["position",["point",["x","0"],["y","0"]]]]],
["staticObstacle",{"id":"5"},["shape",["rectangle",["length","0.000001"],["width","0.000001"]]],
["initialState",["position",["point",["x","0"],["y","0"]]]]]]"#;

#[test]
fn the_radii_of_rectangles(rt: HostRuntime) -> Result<(), Fail> {
    assert!(rt; RECTANGLES.len() <= 10_000);
    let tree = read_tree(rt.alloc(), RECTANGLES.as_bytes())?;
    let scenario = read_scenario(rt.alloc(), &tree)?;
    let expected = [
        (1, 2_423_325, 900_000),
        (2, 2_923_325, 400_001),
        (3, 3_323_326, 0),
        (4, 3_323_324, 1),
        (5, 1, 0),
    ];
    assert_eq!(rt; scenario.fixed.list().len(), expected.len());
    for (fixed, wanted) in scenario.fixed.list().iter().zip(expected) {
        assert_eq!(rt; (fixed.id, fixed.enclosing, fixed.inscribed), wanted);
    }
    Ok(())
}
