//! One case for each check of each line of the profile, with the code and the place that are to be answered.

use crate::*;
use spot_tree::read_tree;
use std::alloc::{AllocError, Global};
use std::process::Abort;
use std::test::Fail;

// A piece of a text, what stands for it, and the refusal: its code, and the number of the element.
type Refusal = (&'static str, &'static str, Code, u32);

// A piece of a text, and what stands for it, so that the text is accepted as before.
type Acceptance = (&'static str, &'static str);

// Zeros, as many as the bytes of the longest number.
const ZEROS: &str = "0000000000000000000000000000000000000000000000000000000000000000";

// The answer to a text that has `'` for `"` and `~` for the zeros.
fn fault_of(rt: &impl Abort, alloc: Global, text: &str) -> Result<Option<ReadFault>, Fail> {
    let quoted = text.replace(alloc, "'", "\"")?;
    let full = quoted.replace(alloc, "~", ZEROS)?;
    assert!(rt; full.len() <= 10_000_000);
    let tree = read_tree(alloc, full.as_bytes())?;
    Ok(read_scenario(alloc, &tree).err())
}

// Asks that a text is accepted, and refused with each of these changes.
fn are_refused(
    rt: &impl Abort,
    alloc: Global,
    text: &str,
    refusals: &[Refusal],
) -> Result<(), Fail> {
    assert_eq!(rt; fault_of(rt, alloc, text)?, None, "at {text}");
    for (piece, other, code, place) in refusals {
        assert!(rt; text.contains(*piece), "no {piece}");
        let changed = text.replacen(alloc, *piece, *other, 1)?;
        let wanted = Some(ReadFault::Refused(*code, *place));
        assert_eq!(rt;
            fault_of(rt, alloc, &changed)?,
            wanted,
            "{other} for {piece}"
        );
    }
    Ok(())
}

// Asks that a text is accepted with each of these changes.
fn are_accepted(
    rt: &impl Abort,
    alloc: Global,
    text: &str,
    acceptances: &[Acceptance],
) -> Result<(), Fail> {
    for (piece, other) in acceptances {
        assert!(rt; text.contains(*piece), "no {piece}");
        let changed = text.replacen(alloc, *piece, *other, 1)?;
        assert_eq!(rt; fault_of(rt, alloc, &changed)?, None, "{other} for {piece}");
    }
    Ok(())
}

// The root is element 0.
const ROOT: &str = "['commonRoad',{'commonRoadVersion':'2020a','timeStepSize':'0.1'}]";

const ROOT_REFUSALS: &[Refusal] = &[
    ("'commonRoad'", "'road'", Code::Root, 0),
    ("'commonRoad'", "'CommonRoad'", Code::Root, 0),
    ("'2020a'", "'2018b'", Code::Version, 0),
    ("'2020a'", "' 2020a'", Code::Version, 0),
    ("'commonRoadVersion':'2020a',", "", Code::Version, 0),
    (",'timeStepSize':'0.1'", "", Code::Missing, 0),
    ("0.1", "x", Code::BadNumber, 0),
    ("0.1", " 0.1", Code::BadNumber, 0),
    ("0.1", "0.1~", Code::BadNumber, 0),
    ("0.1", "1e13", Code::OutOfRange, 0),
    ("0.1", "-1e13", Code::OutOfRange, 0),
    ("0.1", "0", Code::StepSize, 0),
    ("0.1", "-0.1", Code::StepSize, 0),
    ("0.1", "0.0333", Code::StepSize, 0),
    ("0.1", "1.001", Code::StepSize, 0),
    ("0.1", "1e12", Code::StepSize, 0),
    // Two checks of the line fail.
    (
        "commonRoad',{'commonRoadVersion':'2020a'",
        "road',{'v':''",
        Code::Root,
        0,
    ),
    ("2020a','timeStepSize':'0.1'", "2018b'", Code::Version, 0),
    (
        "2020a','timeStepSize':'0.1'",
        "2018b','timeStepSize':'x'",
        Code::Version,
        0,
    ),
];

const ROOT_ACCEPTANCES: &[Acceptance] = &[
    ("0.1", "0.001"),
    ("0.1", "1"),
    ("0.1", "1.0000004"),
    ("0.1", "+10e-2"),
    ("'2020a'", "'2020a','author':''"),
    ("}]", "},['location',['x','?']],['point']]"),
];

#[test]
fn checks_of_the_root(rt: HostRuntime) -> Result<(), Fail> {
    are_refused(&rt, rt.alloc(), ROOT, ROOT_REFUSALS)?;
    are_accepted(&rt, rt.alloc(), ROOT, ROOT_ACCEPTANCES)
}

// The first lanelet is element 1, its left bound 2 with the points 3 and 6, its right bound 9 with the points 10 and
// 13. Behind each point are its x and its y. The second lanelet is 16, its bounds 17 and 24 with the points 18, 21, 25
// and 28.
const LANELETS: &str = "['commonRoad',{'commonRoadVersion':'2020a','timeStepSize':'0.1'},
['lanelet',{'id':'1'},
['leftBound',['point',['x','11'],['y','12']],['point',['x','13'],['y','14']]],
['rightBound',['point',['x','15'],['y','16']],['point',['x','17'],['y','18']]]],
['lanelet',{'id':'2'},
['leftBound',['point',['x','21'],['y','22']],['point',['x','23'],['y','24']]],
['rightBound',['point',['x','25'],['y','26']],['point',['x','27'],['y','28']]]]]";

const LANELET_REFUSALS: &[Refusal] = &[
    (",{'id':'1'}", "", Code::BadId, 1),
    ("'1'}", "''}", Code::BadId, 1),
    ("'1'}", "'x'}", Code::BadId, 1),
    ("'1'}", "' 1'}", Code::BadId, 1),
    ("'1'}", "'12345678901'}", Code::BadId, 1),
    ("'1'}", "'4294967296'}", Code::BadId, 1),
    ("'2'}", "'1'}", Code::DuplicateId, 16),
    ("'2'}", "'01'}", Code::DuplicateId, 16),
    ("'leftBound'", "'left'", Code::Missing, 1),
    ("'rightBound'", "'right'", Code::Missing, 1),
    ("['point',['x','11'],['y','12']],", "", Code::BoundCount, 1),
    (",['point',['x','17'],['y','18']]", "", Code::BoundCount, 1),
    (
        "['x','11'],['y','12']",
        "['x','11'],['y','12']],['point'",
        Code::BoundCount,
        1,
    ),
    (
        "'rightBound',['point',['x','25']",
        "'right',['point',['x','25']",
        Code::Missing,
        16,
    ),
    // One point in each bound, and none.
    (
        ",['point',['x','13'],['y','14']]],\n['rightBound',['point',['x','15'],['y','16']],",
        "],['rightBound',",
        Code::BoundCount,
        1,
    ),
    (
        "'leftBound',['point',['x','21'],['y','22']],['point',['x','23'],['y','24']]],\n['rightBound',",
        "'leftBound'],['rightBound'],['bound',",
        Code::BoundCount,
        16,
    ),
    ("['x','11']", "['z','11']", Code::Missing, 3),
    ("['y','12']", "['z','12']", Code::Missing, 3),
    ("['x','13'],['y','14']", "'x'", Code::Missing, 6),
    ("['x','15'],", "", Code::Missing, 10),
    (",['y','18']", "", Code::Missing, 13),
    ("['x','25'],", "", Code::Missing, 25),
    ("'11'", "'?'", Code::BadNumber, 4),
    ("'12'", "''", Code::BadNumber, 5),
    ("'13'", "'0~'", Code::BadNumber, 7),
    ("'14'", "'.'", Code::BadNumber, 8),
    ("'15'", "'1e'", Code::BadNumber, 11),
    ("'16'", "'0x1'", Code::BadNumber, 12),
    ("'17'", "'1,5'", Code::BadNumber, 14),
    ("'18'", "'1 5'", Code::BadNumber, 15),
    ("'11'", "'10000000.000001'", Code::OutOfRange, 4),
    ("'12'", "'10000000.000001'", Code::OutOfRange, 5),
    ("'15'", "'-10000000.000001'", Code::OutOfRange, 11),
    ("'16'", "'-10000000.000001'", Code::OutOfRange, 12),
    ("'17'", "'1e99999999999999999999'", Code::OutOfRange, 14),
    // Two checks fail: of one line, of an element and one inside it, of one element and a later one.
    (
        "{'id':'1'},\n['leftBound'",
        "{'id':'x'},\n['left'",
        Code::BadId,
        1,
    ),
    (
        "{'id':'2'},\n['leftBound'",
        "{'id':'1'},\n['left'",
        Code::DuplicateId,
        16,
    ),
    (
        "['leftBound',['point',['x','11'],['y','12']],",
        "['left',",
        Code::Missing,
        1,
    ),
    (
        "['point',['x','11'],['y','12']],",
        "['point'],['point'],",
        Code::BoundCount,
        1,
    ),
    ("['x','11'],['y','12']", "['x','?']", Code::Missing, 3),
    ("'11'],['y','12'", "'1e9'],['y','?'", Code::OutOfRange, 4),
    (
        "'12']],['point',['x','13'],['y','14']",
        "'?']],['point'",
        Code::BadNumber,
        5,
    ),
    (
        "'18']]]],\n['lanelet',{'id':'2'}",
        "'?']]]],\n['lanelet'",
        Code::BadNumber,
        15,
    ),
];

const LANELET_ACCEPTANCES: &[Acceptance] = &[
    ("'1'}", "'4294967295'}"),
    ("'1'}", "'0000000001'}"),
    ("'11'", "'10000000'"),
    ("'11'", "'-10000000'"),
    ("'11'", "'~'"),
    ("'11'", "' 1\\n'"),
    ("['x','11']", "['x','11'],['x','?'],['z','?']"),
    (
        "['lanelet',{'id':'2'}",
        "['leftBound',['point']],['lane',{'id':'2'}",
    ),
    (
        "]],\n['lanelet',{'id':'2'}",
        "],['leftBound',['point']],['successor']],\n['lanelet',{'id':'2'}",
    ),
];

#[test]
fn checks_of_lanelets(rt: HostRuntime) -> Result<(), Fail> {
    are_refused(&rt, rt.alloc(), LANELETS, LANELET_REFUSALS)?;
    are_accepted(&rt, rt.alloc(), LANELETS, LANELET_ACCEPTANCES)
}

// The obstacle is element 1 and its type 2. Its shape is 3, with the rectangle 4 and its centre 7, the circle 10 and
// its centre 12, and the polygon 15 with the points 16 and 19. Its initial state is 22.
const STATIC: &str = "['commonRoad',{'commonRoadVersion':'2020a','timeStepSize':'0.1'},
['staticObstacle',{'id':'1'},['type','unknown'],
['shape',['rectangle',['length','11'],['width','12'],['center',['x','13'],['y','14']]],
['circle',['radius','15'],['center',['x','16'],['y','17']]],
['polygon',['point',['x','18'],['y','19']],['point',['x','20'],['y','21']]]],
['initialState',['position',['point',['x','31'],['y','32']]]]]]";

const STATIC_REFUSALS: &[Refusal] = &[
    (",{'id':'1'}", "", Code::BadId, 1),
    ("'1'}", "'1.0'}", Code::BadId, 1),
    ("'1'}", "'12345678901'}", Code::BadId, 1),
    ("'1'}", "'4294967296'}", Code::BadId, 1),
    ("'shape'", "'form'", Code::Missing, 1),
    ("'initialState'", "'state'", Code::Missing, 1),
    ("'position'", "'place'", Code::Missing, 22),
    (
        "['point',['x','31'],['y','32']]",
        "['circle',['radius','1']]",
        Code::UncertainPosition,
        23,
    ),
    ("['x','31'],", "", Code::Missing, 24),
    (",['y','32']", "", Code::Missing, 24),
    ("'31'", "'here'", Code::BadNumber, 25),
    ("'31'", "'31.~'", Code::BadNumber, 25),
    ("'31'", "'10000000.000001'", Code::OutOfRange, 25),
    ("'31'", "'-10000000.000001'", Code::OutOfRange, 25),
    ("'32'", "'?'", Code::BadNumber, 26),
    ("'32'", "'10000000.000001'", Code::OutOfRange, 26),
    ("'32'", "'-10000000.000001'", Code::OutOfRange, 26),
    (
        "{'id':'1'},['type','unknown'],\n['shape'",
        "['form'",
        Code::BadId,
        1,
    ),
];

const STATIC_ACCEPTANCES: &[Acceptance] = &[
    ("['type','unknown'],", ""),
    ("['type','unknown']", "['trajectory',['state']]"),
    (
        "['y','32']]]",
        "['y','32']]],['velocity'],['time',['exact','x']]",
    ),
    ("'31'", "'-10000000'"),
];

// The shape of the obstacle, as it is read in obstacles of both kinds.
const SHAPE_REFUSALS: &[Refusal] = &[
    ("['length','11'],", "", Code::Missing, 4),
    ("['width','12'],", "", Code::Missing, 4),
    ("'11'", "'long'", Code::BadNumber, 5),
    ("'11'", "'0~'", Code::BadNumber, 5),
    ("'11'", "'-0.000001'", Code::OutOfRange, 5),
    ("'11'", "'100.000001'", Code::OutOfRange, 5),
    ("'12'", "'wide'", Code::BadNumber, 6),
    ("'12'", "'0~'", Code::BadNumber, 6),
    ("'12'", "'-0.000001'", Code::OutOfRange, 6),
    ("'12'", "'100.000001'", Code::OutOfRange, 6),
    ("['x','13'],", "", Code::Missing, 7),
    (",['y','14']", "", Code::Missing, 7),
    ("'13'", "'?'", Code::BadNumber, 8),
    ("'13'", "'13.~'", Code::BadNumber, 8),
    ("'13'", "'-100.000001'", Code::OutOfRange, 8),
    ("'13'", "'100.000001'", Code::OutOfRange, 8),
    ("'14'", "'?'", Code::BadNumber, 9),
    ("'14'", "'100.000001'", Code::OutOfRange, 9),
    ("['radius','15'],", "", Code::Missing, 10),
    ("'15'", "'one'", Code::BadNumber, 11),
    ("'15'", "'0~'", Code::BadNumber, 11),
    ("'15'", "'-0.000001'", Code::OutOfRange, 11),
    ("'15'", "'100.000001'", Code::OutOfRange, 11),
    ("['x','16'],", "", Code::Missing, 12),
    (",['y','17']", "", Code::Missing, 12),
    ("'16'", "'?'", Code::BadNumber, 13),
    ("'16'", "'-100.000001'", Code::OutOfRange, 13),
    ("'17'", "'0~'", Code::BadNumber, 14),
    ("'17'", "'100.000001'", Code::OutOfRange, 14),
    (
        "['point',['x','18'],['y','19']],['point',['x','20'],['y','21']]",
        "''",
        Code::Missing,
        15,
    ),
    ("['x','18'],", "", Code::Missing, 16),
    (",['y','19']", "", Code::Missing, 16),
    ("'18'", "'0~'", Code::BadNumber, 17),
    ("'18'", "'-100.000001'", Code::OutOfRange, 17),
    ("'19'", "'?'", Code::BadNumber, 18),
    ("'19'", "'100.000001'", Code::OutOfRange, 18),
    (",['y','21']", "", Code::Missing, 19),
    ("'20'", "'?'", Code::BadNumber, 20),
    ("'21'", "'1e20'", Code::OutOfRange, 21),
    // A shape of which nothing is read, and two checks that fail, of a part and of what is in it or behind it.
    (
        "'shape',['rectangle'",
        "'shape'],['form',['rectangle'",
        Code::Missing,
        3,
    ),
    (
        "'shape',['rectangle'",
        "'shape',['ellipse']],['shape',['rectangle'",
        Code::Missing,
        3,
    ),
    ("'11'],['width','12']", "'?']", Code::Missing, 4),
    (
        "'12'],['center',['x','13'],",
        "'?'],['center',",
        Code::BadNumber,
        6,
    ),
    (
        "'13'],['y','14']]],\n['circle',['radius','15'],",
        "'?'],['y','14']]],['circle',",
        Code::BadNumber,
        8,
    ),
    (
        "'15'],['center',['x','16']",
        "'101'],['center'",
        Code::OutOfRange,
        11,
    ),
];

const SHAPE_ACCEPTANCES: &[Acceptance] = &[
    ("'11'", "'0'"),
    ("'11'", "'100'"),
    ("'15'", "'-0.0000004'"),
    ("'13'", "'-100'"),
    ("'13'", "'100'"),
    (",['center',['x','13'],['y','14']]", ""),
    ("['y','14']]", "['y','14']],['center'],['length','?']"),
    ("['initialState'", "['shape'],['initialState'"),
    ("['polygon'", "['ellipse'],['polygon'"),
];

#[test]
fn checks_of_static_obstacles(rt: HostRuntime) -> Result<(), Fail> {
    are_refused(&rt, rt.alloc(), STATIC, STATIC_REFUSALS)?;
    are_refused(&rt, rt.alloc(), STATIC, SHAPE_REFUSALS)?;
    are_accepted(&rt, rt.alloc(), STATIC, STATIC_ACCEPTANCES)?;
    are_accepted(&rt, rt.alloc(), STATIC, SHAPE_ACCEPTANCES)
}

// Up to the shape as the static obstacle. The initial state is element 22, its position 23 with the point 24, its
// orientation 27, its velocity 29 and its time 31. The trajectory is 33 and its state 34, with the position 35, the
// point 36 and the time 39.
const DYNAMIC: &str = "['commonRoad',{'commonRoadVersion':'2020a','timeStepSize':'0.1'},
['dynamicObstacle',{'id':'1'},['type','car'],
['shape',['rectangle',['length','11'],['width','12'],['center',['x','13'],['y','14']]],
['circle',['radius','15'],['center',['x','16'],['y','17']]],
['polygon',['point',['x','18'],['y','19']],['point',['x','20'],['y','21']]]],
['initialState',['position',['point',['x','31'],['y','32']]],
['orientation',['exact','5']],['velocity',['exact','33']],['time',['exact','34']]],
['trajectory',['state',['position',['point',['x','41'],['y','42']]],['time',['exact','43']]]]]]";

const DYNAMIC_REFUSALS: &[Refusal] = &[
    (",{'id':'1'}", "", Code::BadId, 1),
    ("'1'}", "'-1'}", Code::BadId, 1),
    ("'1'}", "'12345678901'}", Code::BadId, 1),
    ("'1'}", "'4294967296'}", Code::BadId, 1),
    ("'shape'", "'form'", Code::Missing, 1),
    ("'initialState'", "'goalState'", Code::Missing, 1),
    ("'position'", "'place'", Code::Missing, 22),
    ("'orientation'", "'yawRate'", Code::Missing, 22),
    ("'velocity'", "'speed'", Code::Missing, 22),
    (",['time',['exact','34']]", "", Code::Missing, 22),
    (
        "['point',['x','31'],['y','32']]",
        "['rectangle']",
        Code::UncertainPosition,
        23,
    ),
    ("['x','31']", "['z','31']", Code::Missing, 24),
    ("['y','32']", "['z','32']", Code::Missing, 24),
    ("'31'", "'east'", Code::BadNumber, 25),
    ("'31'", "'0~'", Code::BadNumber, 25),
    ("'31'", "'-10000000.000001'", Code::OutOfRange, 25),
    ("'31'", "'10000000.000001'", Code::OutOfRange, 25),
    ("'32'", "'1e'", Code::BadNumber, 26),
    ("'32'", "'10000000.000001'", Code::OutOfRange, 26),
    (
        "['exact','5']",
        "['intervalStart','0']",
        Code::UncertainValue,
        27,
    ),
    ("'5'", "'pi'", Code::BadNumber, 28),
    ("'5'", "'5.~'", Code::BadNumber, 28),
    ("'5'", "'-7.000001'", Code::OutOfRange, 28),
    ("'5'", "'7.000001'", Code::OutOfRange, 28),
    (
        "['exact','33']",
        "['intervalEnd','9']",
        Code::UncertainValue,
        29,
    ),
    ("'33'", "'fast'", Code::BadNumber, 30),
    ("'33'", "'33.~'", Code::BadNumber, 30),
    ("'33'", "'-200.001'", Code::OutOfRange, 30),
    ("'33'", "'200.001'", Code::OutOfRange, 30),
    ("['exact','34']", "'34'", Code::UncertainValue, 31),
    ("'34'", "'late'", Code::BadNumber, 32),
    ("'34'", "'~0'", Code::BadNumber, 32),
    ("'34'", "'-1'", Code::OutOfRange, 32),
    ("'34'", "'1000001'", Code::OutOfRange, 32),
    (
        "['state',['position'",
        "['state',['place'",
        Code::Missing,
        34,
    ),
    (",['time',['exact','43']]", "", Code::Missing, 34),
    (
        "['point',['x','41'],['y','42']]",
        "['polygon']",
        Code::UncertainPosition,
        35,
    ),
    ("['x','41'],", "", Code::Missing, 36),
    (",['y','42']", "", Code::Missing, 36),
    ("'41'", "'0~'", Code::BadNumber, 37),
    ("'41'", "'-10000000.000001'", Code::OutOfRange, 37),
    ("'42'", "'?'", Code::BadNumber, 38),
    ("'42'", "'10000000.000001'", Code::OutOfRange, 38),
    (
        "['exact','43']",
        "['intervalStart','43']",
        Code::UncertainValue,
        39,
    ),
    ("'43'", "'?'", Code::BadNumber, 40),
    ("'43'", "'0~'", Code::BadNumber, 40),
    ("'43'", "'-1'", Code::OutOfRange, 40),
    ("'43'", "'1000001'", Code::OutOfRange, 40),
    ("]]]]]]", "]]],['state']]]]", Code::Missing, 41),
    // Two checks fail.
    (
        "{'id':'1'},['type','car'],\n['shape'",
        "['form'",
        Code::BadId,
        1,
    ),
    (
        "['orientation',['exact','5']],['velocity',['exact','33']]",
        "['velocity']",
        Code::Missing,
        22,
    ),
    (
        "['y','32']]],\n['orientation',['exact'",
        "['z']]],['orientation',['angle'",
        Code::Missing,
        24,
    ),
    (
        "['exact','5']],['velocity',['exact','33']]",
        "['exact','8']],['velocity']",
        Code::OutOfRange,
        28,
    ),
    (
        "['exact','5']],['velocity',['exact','33']]",
        "'5'],['velocity',['exact','?']]",
        Code::UncertainValue,
        27,
    ),
    (
        "['exact','34']]],\n['trajectory',['state'",
        "['exact','?']]],['trajectory',['state'],['s'",
        Code::BadNumber,
        32,
    ),
    (
        "['x','41'],['y','42']]],['time',['exact','43']]",
        "['y','?']]],['time']",
        Code::Missing,
        36,
    ),
];

const DYNAMIC_ACCEPTANCES: &[Acceptance] = &[
    ("['type','car'],", "['type',' car ',['x','?']],"),
    ("'5'", "'-7'"),
    ("'5'", "'7'"),
    ("'33'", "'-200'"),
    ("'33'", "'200'"),
    ("'34'", "'-0.4'"),
    ("'34'", "'1000000'"),
    ("'43'", "'1000000'"),
    (
        "['exact','5']",
        "['exact','5'],['exact','?'],['intervalStart','?']",
    ),
    (
        "['initialState'",
        "['initialState',['state'],['acceleration',['exact','?']]",
    ),
    (
        "['trajectory'",
        "['trajectory',['x']],['trajectory',['state']],['state'",
    ),
    (
        "['x','31'],['y','32']]",
        "['x','31'],['y','32']],['point'],['circle']",
    ),
];

#[test]
fn checks_of_dynamic_obstacles(rt: HostRuntime) -> Result<(), Fail> {
    are_refused(&rt, rt.alloc(), DYNAMIC, DYNAMIC_REFUSALS)?;
    are_refused(&rt, rt.alloc(), DYNAMIC, SHAPE_REFUSALS)?;
    are_accepted(&rt, rt.alloc(), DYNAMIC, DYNAMIC_ACCEPTANCES)?;
    are_accepted(&rt, rt.alloc(), DYNAMIC, SHAPE_ACCEPTANCES)
}

// The first problem is element 1 and its initial state 2, with the position 3, the point 4, the orientation 7, the
// velocity 9 and the time 11. The second problem is 13 and its initial state 14.
const PROBLEMS: &str = "['commonRoad',{'commonRoadVersion':'2020a','timeStepSize':'0.1'},
['planningProblem',{'id':'1'},['initialState',['position',['point',['x','11'],['y','12']]],
['orientation',['exact','5']],['velocity',['exact','13']],['time',['exact','14']]]],
['planningProblem',{'id':'2'},['initialState',['position',['point',['x','21'],['y','22']]],
['orientation',['exact','6']],['velocity',['exact','23']],['time',['exact','24']]],['goalState']]]";

const PROBLEM_REFUSALS: &[Refusal] = &[
    (",{'id':'1'}", "", Code::BadId, 1),
    ("'1'}", "'x'}", Code::BadId, 1),
    ("'1'}", "'12345678901'}", Code::BadId, 1),
    ("'1'}", "'4294967296'}", Code::BadId, 1),
    ("'2'}", "'1'}", Code::DuplicateId, 13),
    ("'2'}", "'0000000001'}", Code::DuplicateId, 13),
    ("'initialState'", "'state'", Code::Missing, 1),
    (
        "{'id':'2'},['initialState'",
        "{'id':'2'},['state'",
        Code::Missing,
        13,
    ),
    ("'position'", "'place'", Code::Missing, 2),
    ("'orientation'", "'yawRate'", Code::Missing, 2),
    ("'velocity'", "'speed'", Code::Missing, 2),
    (",['time',['exact','14']]", "", Code::Missing, 2),
    (
        "['point',['x','11'],['y','12']]",
        "['circle']",
        Code::UncertainPosition,
        3,
    ),
    ("['x','11'],", "", Code::Missing, 4),
    (",['y','12']", "", Code::Missing, 4),
    ("'11'", "'?'", Code::BadNumber, 5),
    ("'11'", "'0~'", Code::BadNumber, 5),
    ("'11'", "'-10000000.000001'", Code::OutOfRange, 5),
    ("'11'", "'10000000.000001'", Code::OutOfRange, 5),
    ("'12'", "'?'", Code::BadNumber, 6),
    ("'12'", "'-10000000.000001'", Code::OutOfRange, 6),
    (
        "['exact','5']",
        "['intervalStart','0']",
        Code::UncertainValue,
        7,
    ),
    ("'5'", "'?'", Code::BadNumber, 8),
    ("'5'", "'0~'", Code::BadNumber, 8),
    ("'5'", "'-7.000001'", Code::OutOfRange, 8),
    ("'5'", "'7.000001'", Code::OutOfRange, 8),
    (
        "['exact','13']",
        "['intervalEnd','9']",
        Code::UncertainValue,
        9,
    ),
    ("'13'", "'?'", Code::BadNumber, 10),
    ("'13'", "'0~'", Code::BadNumber, 10),
    ("'13'", "'-200.001'", Code::OutOfRange, 10),
    ("'13'", "'200.001'", Code::OutOfRange, 10),
    ("['exact','14']", "''", Code::UncertainValue, 11),
    ("'14'", "'?'", Code::BadNumber, 12),
    ("'14'", "'0~'", Code::BadNumber, 12),
    ("'14'", "'-1'", Code::OutOfRange, 12),
    ("'14'", "'1000001'", Code::OutOfRange, 12),
    ("'23'", "'?'", Code::BadNumber, 22),
    // Two checks fail.
    ("{'id':'1'},['initialState'", "['state'", Code::BadId, 1),
    (
        "{'id':'2'},['initialState'",
        "{'id':'1'},['state'",
        Code::DuplicateId,
        13,
    ),
    (
        "'14']]]],\n['planningProblem',{'id':'2'}",
        "'-1']]]],['planningProblem'",
        Code::OutOfRange,
        12,
    ),
];

const PROBLEM_ACCEPTANCES: &[Acceptance] = &[
    (
        "['goalState']",
        "['goalState',['time',['exact','?']]],['initialState']",
    ),
    ("['time',['exact','14']]", "['time',['exact','0']],['time']"),
];

#[test]
fn checks_of_problems(rt: HostRuntime) -> Result<(), Fail> {
    are_refused(&rt, rt.alloc(), PROBLEMS, PROBLEM_REFUSALS)?;
    are_accepted(&rt, rt.alloc(), PROBLEMS, PROBLEM_ACCEPTANCES)
}

// Static obstacles, elements 1 and 27, each before a dynamic one, 12 and 36, and then a problem, 51, and a lanelet,
// 65.
const MIXED: &str = "['commonRoad',{'commonRoadVersion':'2020a','timeStepSize':'0.1'},
['staticObstacle',{'id':'1'},['shape',['polygon',['point',['x','0'],['y','0']]]],
['initialState',['position',['point',['x','11'],['y','0']]]]],
['dynamicObstacle',{'id':'2'},['shape',['circle',['radius','1']]],
['initialState',['position',['point',['x','12'],['y','0']]],
['orientation',['exact','0']],['velocity',['exact','0']],['time',['exact','0']]]],
['staticObstacle',{'id':'3'},['shape',['circle',['radius','1']]],
['initialState',['position',['point',['x','13'],['y','0']]]]],
['dynamicObstacle',{'id':'4'},['shape',['circle',['radius','1']]],
['initialState',['position',['point',['x','14'],['y','0']]],
['orientation',['exact','0']],['velocity',['exact','0']],['time',['exact','0']]]],
['planningProblem',{'id':'5'},['initialState',['position',['point',['x','15'],['y','0']]],
['orientation',['exact','0']],['velocity',['exact','0']],['time',['exact','0']]]],
['lanelet',{'id':'6'},
['leftBound',['point',['x','0'],['y','4']],['point',['x','9'],['y','4']]],
['rightBound',['point',['x','0'],['y','0']],['point',['x','9'],['y','0']]]]]";

const MIXED_REFUSALS: &[Refusal] = &[
    // An obstacle of either kind has the id of an earlier one.
    ("'2'}", "'1'}", Code::DuplicateId, 12),
    ("'3'}", "'1'}", Code::DuplicateId, 27),
    ("'3'}", "'2'}", Code::DuplicateId, 27),
    ("'4'}", "'2'}", Code::DuplicateId, 36),
    ("'4'}", "'3'}", Code::DuplicateId, 36),
    ("'1'}", "'4'}", Code::DuplicateId, 36),
    // Two elements fail: the first in the document counts, wherever its line stands in the table.
    ("'15'],['y','0']]],", "'?']]],", Code::Missing, 54),
    (
        "'13'],['y','0']]]]],\n['dynamicObstacle',{'id':'4'}",
        "'?'],['y','0']]]]],['dynamicObstacle'",
        Code::BadNumber,
        34,
    ),
    (
        "'14'],['y','0']]],\n['orientation'",
        "'14'],['z','0']]],['yawRate'",
        Code::Missing,
        40,
    ),
];

const MIXED_ACCEPTANCES: &[Acceptance] = &[("'5'}", "'1'}"), ("'5'}", "'6'}"), ("'6'}", "'2'}")];

#[test]
fn ids_are_unique_in_each_group(rt: HostRuntime) -> Result<(), Fail> {
    are_refused(&rt, rt.alloc(), MIXED, MIXED_REFUSALS)?;
    are_accepted(&rt, rt.alloc(), MIXED, MIXED_ACCEPTANCES)
}

// An obstacle with an id in place of the sign `#`.
const OBSTACLES: [&str; 2] = [
    ",['staticObstacle',{'id':'#'},['shape',['circle',['radius','1']]],
['initialState',['position',['point',['x','0'],['y','0']]]]]",
    ",['dynamicObstacle',{'id':'#'},['shape',['circle',['radius','1']]],
['initialState',['position',['point',['x','0'],['y','0']]],
['orientation',['exact','0']],['velocity',['exact','0']],['time',['exact','0']]]]",
];

// A scenario with so many obstacles, by turns static and dynamic.
fn crowd(alloc: Global, count: usize) -> Result<String, AllocError> {
    let mut text = String::from_str(
        alloc,
        "['commonRoad',{'commonRoadVersion':'2020a','timeStepSize':'0.1'}",
    )?;
    for number in 0..count {
        let id = format!(in alloc; "{number}")?;
        let obstacle = OBSTACLES[number % 2].replace(alloc, "#", &id)?;
        text.push_str(&obstacle)?;
    }
    text.push_str("]")?;
    Ok(text)
}

#[test]
fn the_last_of_4097_obstacles_is_refused(rt: HostRuntime) -> Result<(), Fail> {
    let most = crowd(rt.alloc(), 4096)?;
    assert_eq!(rt; fault_of(&rt, rt.alloc(), &most)?, None);
    let more = crowd(rt.alloc(), 4097)?;
    let wanted = Some(ReadFault::Refused(Code::TooManyParticipants, 49_153));
    assert_eq!(rt; fault_of(&rt, rt.alloc(), &more)?, wanted);
    Ok(())
}
