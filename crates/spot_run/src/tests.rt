mod faults;

use super::*;
use spot_io::{MemSink, mem_sink, mem_source};
use std::alloc::Global;
use std::test::Fail;

const CIRCLE: &[u8] =
    br#"["commonRoad",{"commonRoadVersion":"2020a","timeStepSize":"0.1"},["dynamicObstacle",{"id":"1"},["type","car"],["shape",["circle",["radius","1"]]],["initialState",["position",["point",["x","0"],["y","0"]]],["orientation",["exact","0"]],["velocity",["exact","10"]],["time",["exact","0"]]]]]"#;

const TWO_STEPS: &[u8] = b"spot 1 predict
time 100 2
mover 1 free 8 70000 10002 1000000 0 0 9999 10001 -1 1
occ 1 0 2040100 2469463 1040100 1414213 1000000 1414213 1040100 2469463
occ 1 1 3160200 3634713 1160200 469463 40100 469463 1160200 3634713
done
";

const EMPTY_ROAD: &[u8] =
    br#"["commonRoad",{"commonRoadVersion":"2020a","timeStepSize":"0.1"},["lanelet",{"id":"1"},["leftBound",["point",["x","0"],["y","4"]],["point",["x","2"],["y","4"]]],["rightBound",["point",["x","0"],["y","0"]],["point",["x","2"],["y","0"]]]]]"#;

const FOLLOWER: &[u8] =
    br#"["commonRoad",{"commonRoadVersion":"2020a","timeStepSize":"0.1"},["lanelet",{"id":"1"},["leftBound",["point",["x","0"],["y","4"]],["point",["x","2"],["y","4"]]],["rightBound",["point",["x","0"],["y","0"]],["point",["x","2"],["y","0"]]]],["dynamicObstacle",{"id":"1"},["type","car"],["shape",["circle",["radius","1"]]],["initialState",["position",["point",["x","1"],["y","2"]]],["orientation",["exact","0"]],["velocity",["exact","10"]],["time",["exact","0"]]]]]"#;

const ON_LANE: &[u8] = b"spot 1 predict
time 100 1
mover 1 lane 8 70000 10002 1000000 1000000 2000000 9999 10001 -1 1
lane 1 0 0 8 -1000000 -414213 -414213 -1000000 2414213 -1000000 3000000 -414213 3000000 4414213 2414213 5000000 -414213 5000000 -1000000 4414213
occ 1 0 3040100 5469463 3040100 2414213 0 -1585787 -959900 1469463
done
";

const LONG: &[u8] =
    br#"["commonRoad",{"commonRoadVersion":"2020a","timeStepSize":"0.1"},["lanelet",{"id":"1"},["leftBound",["point",["x","0"],["y","4"]],["point",["x","300000"],["y","4"]]],["rightBound",["point",["x","0"],["y","0"]],["point",["x","300000"],["y","0"]]]]]"#;

const WIDE: &[u8] =
    br#"["commonRoad",{"commonRoadVersion":"2020a","timeStepSize":"0.1"},["lanelet",{"id":"5"},["leftBound",["point",["x","0"],["y","100.000001"]],["point",["x","2"],["y","100.000001"]]],["rightBound",["point",["x","0"],["y","0"]],["point",["x","2"],["y","0"]]]]]"#;

const AT_REST: &[u8] =
    br#"["commonRoad",{"commonRoadVersion":"2020a","timeStepSize":"0.1"},["planningProblem",{"id":"1"},["initialState",["position",["point",["x","0"],["y","0"]]],["orientation",["exact","0"]],["velocity",["exact","0"]],["time",["exact","0"]]]]]"#;

const FROM_REST: &[u8] = b"spot 1 area
time 100 1
ego 1 8 50000 2000000 1000000 0 0 -1 1 -1 1
set 0 0 0 x 2 0 -1 0 1 y 2 0 -1 0 1
count 0 1
set 1 -1 -1 x 6 -40100 -801 -40001 -801 -1 -401 -1 401 -99 401 -40100 -400 y 6 -40100 -801 -40001 -801 -1 -401 -1 401 -99 401 -40100 -400
set 1 -1 0 x 6 -40100 -801 -40001 -801 -1 -401 -1 401 -99 401 -40100 -400 y 6 0 -401 100 -400 40100 400 40100 801 40000 801 0 401
set 1 0 -1 x 6 0 -401 100 -400 40100 400 40100 801 40000 801 0 401 y 6 -40100 -801 -40001 -801 -1 -401 -1 401 -99 401 -40100 -400
set 1 0 0 x 6 0 -401 100 -400 40100 400 40100 801 40000 801 0 401 y 6 0 -401 100 -400 40100 400 40100 801 40000 801 0 401
count 1 4
open
";

const INSIDE: &[u8] =
    br#"["commonRoad",{"commonRoadVersion":"2020a","timeStepSize":"0.1"},["staticObstacle",{"id":"2"},["type","unknown"],["shape",["circle",["radius","50"]]],["initialState",["position",["point",["x","0"],["y","0"]]],["orientation",["exact","0"]],["velocity",["exact","0"]],["time",["exact","0"]]]],["planningProblem",{"id":"1"},["initialState",["position",["point",["x","0"],["y","0"]]],["orientation",["exact","0"]],["velocity",["exact","0"]],["time",["exact","0"]]]]]"#;

const NO_WAY_OUT: &[u8] = b"spot 1 area
time 100 1
fixed 2 50000000 70710678 50000000 70710678 50000000 70710678 50000000 70710678
ego 1 8 50000 2000000 1000000 0 0 -1 1 -1 1
count 0 0
empty 0
";

const LATE: &[u8] =
    br#"["commonRoad",{"commonRoadVersion":"2020a","timeStepSize":"0.1"},["planningProblem",{"id":"1"},["initialState",["position",["point",["x","0"],["y","0"]]],["orientation",["exact","0"]],["velocity",["exact","0"]],["time",["exact","3"]]]]]"#;

const FAST: &[u8] =
    br#"["commonRoad",{"commonRoadVersion":"2020a","timeStepSize":"0.1"},["planningProblem",{"id":"1"},["initialState",["position",["point",["x","0"],["y","0"]]],["orientation",["exact","0"]],["velocity",["exact","10"]],["time",["exact","0"]]]]]"#;

const LONG_STEPS: &[u8] =
    br#"["commonRoad",{"commonRoadVersion":"2020a","timeStepSize":"1"},["planningProblem",{"id":"1"},["initialState",["position",["point",["x","0"],["y","0"]]],["orientation",["exact","0"]],["velocity",["exact","0"]],["time",["exact","0"]]]]]"#;

const STRUCK_AT_ONCE: &[u8] = b"spot 1 replay
time 100 5
ego 1 8 50000 2000000 1000000 0 0 -1 1 -1 1
disc 0 2 0 0 50900000
count 0 0
empty 0
";

const ROW_END_ON_CIRCLE: &[u8] =
    br#"["commonRoad",{"commonRoadVersion":"2020a","timeStepSize":"0.1"},["staticObstacle",{"id":"2"},["type","unknown"],["shape",["circle",["radius","0.766665"]]],["initialState",["position",["point",["x","1.333332"],["y","0"]]],["orientation",["exact","0"]],["velocity",["exact","0"]],["time",["exact","0"]]]],["planningProblem",{"id":"1"},["initialState",["position",["point",["x","0"],["y","0"]]],["orientation",["exact","0"]],["velocity",["exact","0"]],["time",["exact","0"]]]]]"#;

const STRUCK_ON_CIRCLE: &[u8] = b"spot 1 replay
time 100 1
ego 1 8 50000 2000000 1000000 0 0 -1 1 -1 1
disc 0 2 1333332 0 1666665
count 0 0
empty 0
";

const ROW_END_OUTSIDE: &[u8] =
    br#"["commonRoad",{"commonRoadVersion":"2020a","timeStepSize":"0.1"},["staticObstacle",{"id":"2"},["type","unknown"],["shape",["circle",["radius","0.766664"]]],["initialState",["position",["point",["x","1.333332"],["y","0"]]],["orientation",["exact","0"]],["velocity",["exact","0"]],["time",["exact","0"]]]],["planningProblem",{"id":"1"},["initialState",["position",["point",["x","0"],["y","0"]]],["orientation",["exact","0"]],["velocity",["exact","0"]],["time",["exact","0"]]]]]"#;

const BESIDE_A_DISC: &[u8] = b"spot 1 replay
time 100 1
ego 1 8 50000 2000000 1000000 0 0 -1 1 -1 1
disc 0 2 1333332 0 1666664
set 0 0 0 x 2 0 -1 0 1 y 2 0 -1 0 1
count 0 1
disc 1 2 1333332 0 1666664
set 1 -1 -1 x 6 -40100 -801 -40001 -801 -1 -401 -1 401 -99 401 -40100 -400 y 6 -40100 -801 -40001 -801 -1 -401 -1 401 -99 401 -40100 -400
set 1 -1 0 x 6 -40100 -801 -40001 -801 -1 -401 -1 401 -99 401 -40100 -400 y 6 0 -401 100 -400 40100 400 40100 801 40000 801 0 401
set 1 0 -1 x 4 0 -401 2 -401 2 402 0 401 y 6 -40100 -801 -40001 -801 -1 -401 -1 401 -99 401 -40100 -400
set 1 0 0 x 4 0 -401 1 -401 1 402 0 401 y 6 0 -401 100 -400 40100 400 40100 801 40000 801 0 401
count 1 4
open
";

const LEAST_SAMPLE: &[u8] = b"sample 1 1 0 3060
cells 200 lanes 0
sets 2
open
";

const DRAWN_FROM_REST: &[u8] =
    b"<svg xmlns=\"http://www.w3.org/2000/svg\" viewBox=\"-40100 -40100 80201 80201\">
<rect class=\"free\" x=\"-40100\" y=\"1\" width=\"40100\" height=\"40100\"/>
<rect class=\"free\" x=\"-40100\" y=\"-40100\" width=\"40100\" height=\"40101\"/>
<rect class=\"free\" x=\"0\" y=\"1\" width=\"40101\" height=\"40100\"/>
<rect class=\"free\" x=\"0\" y=\"-40100\" width=\"40101\" height=\"40101\"/>
</svg>
";

const DRAWN_INSIDE: &[u8] = b"<svg xmlns=\"http://www.w3.org/2000/svg\" viewBox=\"0 0 1 1\">
<rect class=\"occ\" x=\"-50000000\" y=\"-50000000\" width=\"100000001\" height=\"100000001\"/>
</svg>
";

const BEHIND_FOLLOWER: &[u8] =
    br#"["commonRoad",{"commonRoadVersion":"2020a","timeStepSize":"0.1"},["lanelet",{"id":"1"},["leftBound",["point",["x","0"],["y","4"]],["point",["x","2"],["y","4"]]],["rightBound",["point",["x","0"],["y","0"]],["point",["x","2"],["y","0"]]]],["dynamicObstacle",{"id":"1"},["type","car"],["shape",["circle",["radius","1"]]],["initialState",["position",["point",["x","1"],["y","2"]]],["orientation",["exact","0"]],["velocity",["exact","10"]],["time",["exact","0"]]]],["planningProblem",{"id":"1"},["initialState",["position",["point",["x","9"],["y","2"]]],["orientation",["exact","0"]],["velocity",["exact","0"]],["time",["exact","0"]]]]]"#;

const DRAWN_BEHIND_FOLLOWER: &[u8] =
    b"<svg xmlns=\"http://www.w3.org/2000/svg\" viewBox=\"8959900 -2040100 80201 80201\">
<polygon class=\"occ\" points=\"-1000000,414213 -414213,1000000 2414213,1000000 3000000,414213 3000000,-4414213 2414213,-5000000 -414213,-5000000 -1000000,-4414213\"/>
<rect class=\"free\" x=\"8959900\" y=\"-1999999\" width=\"80201\" height=\"40100\"/>
<rect class=\"free\" x=\"8959900\" y=\"-2040100\" width=\"80201\" height=\"40101\"/>
</svg>
";

fn words(alloc: Global, line: &[&str]) -> Result<Vec<String>, Fail> {
    let mut words = Vec::new(alloc);
    for word in line {
        words.push(String::from_str(alloc, word)?)?;
    }
    Ok(words)
}

// Runs a command line on bytes, through sources and sinks that move 16 bytes a call and fail at these calls.
fn run(
    alloc: Global,
    line: &[&str],
    bytes: &[u8],
    read_fails: &[u64],
    write_fails: &[u64],
) -> Result<(Status, MemSink), Fail> {
    let words = words(alloc, line)?;
    let mut source = mem_source(alloc, bytes, 16, read_fails)?;
    let mut sink = mem_sink(alloc, 2000, 16, write_fails)?;
    let status = run_spot(alloc, &words, &mut source, &mut sink);
    Ok((status, sink))
}

// Runs a command line on bytes that come one a call, and writes one a call.
fn run_by_bytes(alloc: Global, line: &[&str], bytes: &[u8]) -> Result<(Status, MemSink), Fail> {
    let words = words(alloc, line)?;
    let mut source = mem_source(alloc, bytes, 1, &[])?;
    let mut sink = mem_sink(alloc, 2000, 1, &[])?;
    let status = run_spot(alloc, &words, &mut source, &mut sink);
    Ok((status, sink))
}

#[test]
fn one_circle_is_predicted(rt: HostRuntime) -> Result<(), Fail> {
    let line = ["spot", "predict", "--steps", "2"];
    let (status, sink) = run(rt.alloc(), &line, CIRCLE, &[], &[])?;
    assert_eq!(rt; status, Status::Open);
    assert_eq!(rt; sink.bytes.as_slice(), TWO_STEPS);
    Ok(())
}

#[test]
fn a_road_without_traffic(rt: HostRuntime) -> Result<(), Fail> {
    let line = ["spot", "predict", "--steps", "1"];
    let (status, sink) = run(rt.alloc(), &line, EMPTY_ROAD, &[], &[])?;
    assert_eq!(rt; status, Status::Open);
    assert_eq!(rt;
        sink.bytes.as_slice(),
        b"spot 1 predict\ntime 100 1\ndone\n".as_slice()
    );
    Ok(())
}

#[test]
fn a_car_follows_its_lane(rt: HostRuntime) -> Result<(), Fail> {
    let line = ["spot", "predict", "--steps", "1"];
    let (status, sink) = run(rt.alloc(), &line, FOLLOWER, &[], &[])?;
    assert_eq!(rt; status, Status::Open);
    assert_eq!(rt; sink.bytes.as_slice(), ON_LANE);
    Ok(())
}

#[test]
fn a_limit_writes_nothing(rt: HostRuntime) -> Result<(), Fail> {
    let line = ["spot", "predict"];
    let (status, sink) = run(rt.alloc(), &line, LONG, &[], &[])?;
    assert_eq!(rt; status, Status::Limit(Which::TooManyCells, 0, 150_000));
    assert!(rt; sink.bytes.is_empty());
    let (status, sink) = run(rt.alloc(), &line, WIDE, &[], &[])?;
    assert_eq!(rt; status, Status::Limit(Which::LaneTooWide, 0, 5));
    assert!(rt; sink.bytes.is_empty());
    Ok(())
}

#[test]
fn what_is_no_report_says_why(rt: HostRuntime) -> Result<(), Fail> {
    let predict = ["spot", "predict"];
    let (status, sink) = run(rt.alloc(), &predict, b"", &[], &[])?;
    assert_eq!(rt; status, Status::Refused(Code::NotJson, 0));
    assert!(rt; sink.bytes.is_empty());
    let (status, _) = run(rt.alloc(), &predict, br#"["commonRoad",7]"#, &[], &[])?;
    assert_eq!(rt; status, Status::Refused(Code::NotTree, 1));
    let (status, _) = run(rt.alloc(), &predict, br#"["commonRoad"]"#, &[], &[])?;
    assert_eq!(rt; status, Status::Refused(Code::Version, 0));
    let (status, _) = run(rt.alloc(), &["spot", "fly"], CIRCLE, &[], &[])?;
    assert_eq!(rt; status, Status::BadWords);
    Ok(())
}

#[test]
fn the_area_of_an_ego_at_rest(rt: HostRuntime) -> Result<(), Fail> {
    let line = ["spot", "area", "--steps", "1"];
    let (status, sink) = run(rt.alloc(), &line, AT_REST, &[], &[])?;
    assert_eq!(rt; status, Status::Open);
    assert_eq!(rt; sink.bytes.as_slice(), FROM_REST);
    let (status, sink) = run_by_bytes(rt.alloc(), &line, AT_REST)?;
    assert_eq!(rt; status, Status::Open);
    assert_eq!(rt; sink.bytes.as_slice(), FROM_REST);
    Ok(())
}

#[test]
fn an_ego_inside_an_obstacle_has_no_area(rt: HostRuntime) -> Result<(), Fail> {
    let line = ["spot", "area", "--steps", "1"];
    let (status, sink) = run(rt.alloc(), &line, INSIDE, &[], &[])?;
    assert_eq!(rt; status, Status::Empty(0));
    assert_eq!(rt; sink.bytes.as_slice(), NO_WAY_OUT);
    Ok(())
}

#[test]
fn a_problem_that_is_refused_writes_nothing(rt: HostRuntime) -> Result<(), Fail> {
    let (status, sink) = run(rt.alloc(), &["spot", "area"], CIRCLE, &[], &[])?;
    assert_eq!(rt; status, Status::Refused(Code::NoProblem, 0));
    assert!(rt; sink.bytes.is_empty());
    let (status, sink) = run(rt.alloc(), &["spot", "area"], LATE, &[], &[])?;
    assert_eq!(rt; status, Status::Refused(Code::LateProblem, 1));
    assert!(rt; sink.bytes.is_empty());
    let slow = ["spot", "area", "--ego-speed", "1"];
    let (status, sink) = run(rt.alloc(), &slow, FAST, &[], &[])?;
    assert_eq!(rt; status, Status::Refused(Code::EgoTooFast, 1));
    assert!(rt; sink.bytes.is_empty());
    Ok(())
}

#[test]
fn an_area_that_is_too_wide_writes_nothing(rt: HostRuntime) -> Result<(), Fail> {
    let line = ["spot", "area", "--steps", "10", "--ego-speed", "100"];
    let (status, sink) = run(rt.alloc(), &line, LONG_STEPS, &[], &[])?;
    assert_eq!(rt; status, Status::Limit(Which::AreaTooWide, 7, 78_012));
    assert!(rt; sink.bytes.is_empty());
    Ok(())
}

#[test]
fn who_stands_in_a_recorded_disc_has_no_area(rt: HostRuntime) -> Result<(), Fail> {
    let line = ["spot", "replay", "--steps", "5"];
    let (status, sink) = run(rt.alloc(), &line, INSIDE, &[], &[])?;
    assert_eq!(rt; status, Status::Empty(0));
    assert_eq!(rt; sink.bytes.as_slice(), STRUCK_AT_ONCE);
    let line = ["spot", "replay", "--steps", "1"];
    let (status, sink) = run(rt.alloc(), &line, ROW_END_ON_CIRCLE, &[], &[])?;
    assert_eq!(rt; status, Status::Empty(0));
    assert_eq!(rt; sink.bytes.as_slice(), STRUCK_ON_CIRCLE);
    Ok(())
}

#[test]
fn the_area_beside_a_recorded_disc(rt: HostRuntime) -> Result<(), Fail> {
    let line = ["spot", "replay", "--steps", "1"];
    let (status, sink) = run(rt.alloc(), &line, ROW_END_OUTSIDE, &[], &[])?;
    assert_eq!(rt; status, Status::Open);
    assert_eq!(rt; sink.bytes.as_slice(), BESIDE_A_DISC);
    Ok(())
}

#[test]
fn a_replay_that_is_refused_writes_nothing(rt: HostRuntime) -> Result<(), Fail> {
    let (status, sink) = run(rt.alloc(), &["spot", "replay"], CIRCLE, &[], &[])?;
    assert_eq!(rt; status, Status::Refused(Code::NoProblem, 0));
    assert!(rt; sink.bytes.is_empty());
    let line = ["spot", "replay", "--steps", "10", "--ego-speed", "100"];
    let (status, sink) = run(rt.alloc(), &line, LONG_STEPS, &[], &[])?;
    assert_eq!(rt; status, Status::Limit(Which::AreaTooWide, 7, 78_012));
    assert!(rt; sink.bytes.is_empty());
    Ok(())
}

#[test]
fn a_sample_reads_nothing(rt: HostRuntime) -> Result<(), Fail> {
    let line = [
        "spot", "sample", "--seed", "1", "--lanes", "1", "--movers", "0", "--steps", "1",
    ];
    let words = words(rt.alloc(), &line)?;
    let mut source = mem_source(rt.alloc(), CIRCLE, 16, &[1])?;
    let mut sink = mem_sink(rt.alloc(), 1000, 16, &[])?;
    let status = run_spot(rt.alloc(), &words, &mut source, &mut sink);
    assert_eq!(rt; status, Status::Open);
    assert_eq!(rt; sink.bytes.as_slice(), LEAST_SAMPLE);
    assert_eq!(rt; source.at, 0);
    assert_eq!(rt; source.calls, 0);
    Ok(())
}

#[test]
fn the_last_step_is_drawn(rt: HostRuntime) -> Result<(), Fail> {
    let line = ["spot", "draw", "--steps", "1"];
    let (status, sink) = run(rt.alloc(), &line, AT_REST, &[], &[])?;
    assert_eq!(rt; status, Status::Open);
    assert_eq!(rt; sink.bytes.as_slice(), DRAWN_FROM_REST);
    let (status, sink) = run_by_bytes(rt.alloc(), &line, BEHIND_FOLLOWER)?;
    assert_eq!(rt; status, Status::Open);
    assert_eq!(rt; sink.bytes.as_slice(), DRAWN_BEHIND_FOLLOWER);
    let (status, sink) = run(rt.alloc(), &["spot", "draw"], INSIDE, &[], &[])?;
    assert_eq!(rt; status, Status::Empty(0));
    assert_eq!(rt; sink.bytes.as_slice(), DRAWN_INSIDE);
    Ok(())
}

#[test]
fn a_drawing_that_is_refused_writes_nothing(rt: HostRuntime) -> Result<(), Fail> {
    let (status, sink) = run(rt.alloc(), &["spot", "draw"], CIRCLE, &[], &[])?;
    assert_eq!(rt; status, Status::Refused(Code::NoProblem, 0));
    assert!(rt; sink.bytes.is_empty());
    let line = ["spot", "draw", "--steps", "10", "--ego-speed", "100"];
    let (status, sink) = run(rt.alloc(), &line, LONG_STEPS, &[], &[])?;
    assert_eq!(rt; status, Status::Limit(Which::AreaTooWide, 7, 78_012));
    assert!(rt; sink.bytes.is_empty());
    Ok(())
}

#[test]
fn a_sample_that_is_refused_writes_nothing(rt: HostRuntime) -> Result<(), Fail> {
    let fast = ["spot", "sample", "--ego-speed", "29"];
    let (status, sink) = run(rt.alloc(), &fast, b"", &[], &[])?;
    assert_eq!(rt; status, Status::Refused(Code::EgoTooFast, 1_092));
    assert!(rt; sink.bytes.is_empty());
    let other = ["spot", "sample", "--problem", "2"];
    let (status, sink) = run(rt.alloc(), &other, b"", &[], &[])?;
    assert_eq!(rt; status, Status::Refused(Code::NoProblem, 0));
    assert!(rt; sink.bytes.is_empty());
    Ok(())
}
