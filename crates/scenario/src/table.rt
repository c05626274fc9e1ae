//! The profile: what is read of a tree, and the checks of each element that is read.

ghost use Rattle.std.specs.Prelude.{◌≡◌, ◌≤◌, map};
ghost use Rattle.spot_claims.specs.Profile.{profile, code_of};
ghost use Rattle.scenario.specs.Table.{line_of, check_of, places_of, path_of, group_paths};

use spot_terms::{Code, MOST_ANGLE, MOST_COORDINATE, MOST_SHAPE, MOST_SPEED, MOST_TIME};

/// A step of a path: to each child of a name, or to the first.
#[derive(Clone, Copy, Debug, PartialEq, Eq)]
pub(crate) enum Step {
    Each(&'static str),
    First(&'static str),
}

pub(crate) type Path = &'static [Step];

/// The elements that have ids of their own, and none of them twice.
#[derive(Clone, Copy, Debug, PartialEq, Eq)]
pub(crate) enum Group {
    Lanelets,
    Obstacles,
    Problems,
}

impl Group {
    /// The paths to the elements of the group.
    pub(crate) fn paths(self) -> &'static [Path]
        ensures { map path_of result.now ≡ group_paths self }
    {
        match self {
            Group::Lanelets => &[LANELETS],
            Group::Obstacles => OBSTACLES,
            Group::Problems => &[PROBLEMS],
        }
    }
}

/// What a number counts: wholes, thousandths or millionths.
#[derive(Clone, Copy, Debug, PartialEq, Eq)]
pub(crate) enum Unit {
    Whole,
    Milli,
    Micro,
}

impl Unit {
    /// The decimal places of a number that counts so.
    pub(crate) fn places(self) -> u32
        ensures same { result ≡ places_of self }
        ensures few { result ≤ 6 }
    {
        match self {
            Unit::Whole => 0,
            Unit::Milli => 3,
            Unit::Micro => 6,
        }
    }
}

/// What a number is read as: what it counts, and its range.
#[derive(Clone, Copy, Debug, PartialEq, Eq)]
pub(crate) struct Number {
    pub(crate) unit: Unit,
    pub(crate) least: i64,
    pub(crate) most: i64,
}

/// A check of an element.
#[derive(Clone, Copy, Debug, PartialEq, Eq)]
pub(crate) enum Check {
    /// The name isn't `commonRoad`.
    WrongRoot,
    /// The version isn't `2020a`.
    WrongVersion,
    /// There is no step size.
    NoStepSize,
    /// The step size is no number.
    BadStepSize,
    /// The step size is too large for a number.
    LargeStepSize,
    /// The step size is no whole number of ticks from 1 to 1,000.
    UnevenStepSize,
    /// The attribute `id` is not there, or is no id.
    BadId,
    /// An element of the group that stands before has the same id.
    DuplicateId(Group),
    /// As many obstacles as there may be stand before.
    TooMany,
    /// The bounds have different numbers of points, or fewer than two.
    BoundCount,
    /// One of these children isn't there.
    LacksAChild(&'static [&'static str]),
    /// None of these children is there.
    LacksEachChild(Code, &'static [&'static str]),
    /// The text is no number.
    BadNumber,
    /// The number is too large, or outside its range.
    OutOfRange(Number),
}

/// The elements that are read so, each by a path to where it begins and a way on from there, and their checks in order.
#[derive(Clone, Copy, Debug, PartialEq, Eq)]
pub(crate) struct Line {
    pub(crate) starts: &'static [Path],
    pub(crate) ways: &'static [Path],
    pub(crate) checks: &'static [Check],
}

/// A coordinate of a bound or a position, in micrometres.
pub(crate) const COORDINATE_RANGE: Number = Number {
    unit: Unit::Micro,
    least: -(MOST_COORDINATE as i64),
    most: MOST_COORDINATE as i64,
};

/// A coordinate of a corner or a centre of a shape, in micrometres.
pub(crate) const SHAPE_COORDINATE_RANGE: Number = Number {
    unit: Unit::Micro,
    least: -(MOST_SHAPE as i64),
    most: MOST_SHAPE as i64,
};

/// A length, a width or a radius, in micrometres.
pub(crate) const SIZE_RANGE: Number = Number {
    unit: Unit::Micro,
    least: 0,
    most: MOST_SHAPE as i64,
};

/// An angle, in millionths of a radian.
pub(crate) const ANGLE_RANGE: Number = Number {
    unit: Unit::Micro,
    least: -(MOST_ANGLE as i64),
    most: MOST_ANGLE as i64,
};

/// A speed, in millimetres a second.
pub(crate) const SPEED_RANGE: Number = Number {
    unit: Unit::Milli,
    least: -(MOST_SPEED as i64),
    most: MOST_SPEED as i64,
};

/// A time, in steps.
pub(crate) const TIME_RANGE: Number = Number {
    unit: Unit::Whole,
    least: 0,
    most: MOST_TIME as i64,
};

const ROOT: Path = &[];

const LANELETS: Path = &[Step::Each("lanelet")];

pub(crate) const STATICS: Path = &[Step::Each("staticObstacle")];

pub(crate) const DYNAMICS: Path = &[Step::Each("dynamicObstacle")];

pub(crate) const PROBLEMS: Path = &[Step::Each("planningProblem")];

const FIXED_START: Path = &[Step::Each("staticObstacle"), Step::First("initialState")];

const MOVING_START: Path = &[Step::Each("dynamicObstacle"), Step::First("initialState")];

const PROBLEM_START: Path = &[Step::Each("planningProblem"), Step::First("initialState")];

const RECORDED: Path = &[
    Step::Each("dynamicObstacle"),
    Step::First("trajectory"),
    Step::Each("state"),
];

/// The states of the first trajectory of a dynamic obstacle.
pub(crate) const LATER_STATES: Path = &[Step::First("trajectory"), Step::Each("state")];

const OBSTACLES: &[Path] = &[STATICS, DYNAMICS];

const MOVING_STARTS: &[Path] = &[MOVING_START, PROBLEM_START];

const STATES: &[Path] = &[FIXED_START, MOVING_START, PROBLEM_START, RECORDED];

const TIMED: &[Path] = &[MOVING_START, PROBLEM_START, RECORDED];

const HERE: &[Path] = &[&[]];

pub(crate) const LEFT_POINT: Path = &[Step::First("leftBound"), Step::Each("point")];

pub(crate) const RIGHT_POINT: Path = &[Step::First("rightBound"), Step::Each("point")];

const BOUND_NUMBERS: &[Path] = &[
    &[
        Step::First("leftBound"),
        Step::Each("point"),
        Step::First("x"),
    ],
    &[
        Step::First("leftBound"),
        Step::Each("point"),
        Step::First("y"),
    ],
    &[
        Step::First("rightBound"),
        Step::Each("point"),
        Step::First("x"),
    ],
    &[
        Step::First("rightBound"),
        Step::Each("point"),
        Step::First("y"),
    ],
];

const SHAPE: Path = &[Step::First("shape")];

const RECTANGLE: Path = &[Step::First("shape"), Step::Each("rectangle")];

const CIRCLE: Path = &[Step::First("shape"), Step::Each("circle")];

const POLYGON: Path = &[Step::First("shape"), Step::Each("polygon")];

const SHAPE_POINTS: &[Path] = &[
    &[
        Step::First("shape"),
        Step::Each("polygon"),
        Step::Each("point"),
    ],
    &[
        Step::First("shape"),
        Step::Each("rectangle"),
        Step::First("center"),
    ],
    &[
        Step::First("shape"),
        Step::Each("circle"),
        Step::First("center"),
    ],
];

const SHAPE_NUMBERS: &[Path] = &[
    &[
        Step::First("shape"),
        Step::Each("polygon"),
        Step::Each("point"),
        Step::First("x"),
    ],
    &[
        Step::First("shape"),
        Step::Each("polygon"),
        Step::Each("point"),
        Step::First("y"),
    ],
    &[
        Step::First("shape"),
        Step::Each("rectangle"),
        Step::First("center"),
        Step::First("x"),
    ],
    &[
        Step::First("shape"),
        Step::Each("rectangle"),
        Step::First("center"),
        Step::First("y"),
    ],
    &[
        Step::First("shape"),
        Step::Each("circle"),
        Step::First("center"),
        Step::First("x"),
    ],
    &[
        Step::First("shape"),
        Step::Each("circle"),
        Step::First("center"),
        Step::First("y"),
    ],
];

const SIZES: &[Path] = &[
    &[
        Step::First("shape"),
        Step::Each("rectangle"),
        Step::First("length"),
    ],
    &[
        Step::First("shape"),
        Step::Each("rectangle"),
        Step::First("width"),
    ],
    &[
        Step::First("shape"),
        Step::Each("circle"),
        Step::First("radius"),
    ],
];

const POSITION: Path = &[Step::First("position")];

const POSITION_POINT: Path = &[Step::First("position"), Step::First("point")];

const POSITION_NUMBERS: &[Path] = &[
    &[
        Step::First("position"),
        Step::First("point"),
        Step::First("x"),
    ],
    &[
        Step::First("position"),
        Step::First("point"),
        Step::First("y"),
    ],
];

const VALUES: &[Path] = &[
    &[Step::First("orientation")],
    &[Step::First("velocity")],
    &[Step::First("time")],
];

const X_AND_Y: &[Check] = &[Check::LacksAChild(&["x", "y"])];

const IS_EXACT: &[Check] = &[Check::LacksEachChild(Code::UncertainValue, &["exact"])];

const COORDINATE: &[Check] = &[Check::BadNumber, Check::OutOfRange(COORDINATE_RANGE)];

const SHAPE_COORDINATE: &[Check] = &[Check::BadNumber, Check::OutOfRange(SHAPE_COORDINATE_RANGE)];

const SIZE: &[Check] = &[Check::BadNumber, Check::OutOfRange(SIZE_RANGE)];

const ANGLE: &[Check] = &[Check::BadNumber, Check::OutOfRange(ANGLE_RANGE)];

const SPEED: &[Check] = &[Check::BadNumber, Check::OutOfRange(SPEED_RANGE)];

const TIME: &[Check] = &[Check::BadNumber, Check::OutOfRange(TIME_RANGE)];

// All lines.
const PROFILE: [Line; 24] = [
    Line {
        starts: &[ROOT],
        ways: HERE,
        checks: &[
            Check::WrongRoot,
            Check::WrongVersion,
            Check::NoStepSize,
            Check::BadStepSize,
            Check::LargeStepSize,
            Check::UnevenStepSize,
        ],
    },
    Line {
        starts: &[LANELETS],
        ways: HERE,
        checks: &[
            Check::BadId,
            Check::DuplicateId(Group::Lanelets),
            Check::LacksAChild(&["leftBound", "rightBound"]),
            Check::BoundCount,
        ],
    },
    Line {
        starts: &[LANELETS],
        ways: &[LEFT_POINT, RIGHT_POINT],
        checks: X_AND_Y,
    },
    Line {
        starts: OBSTACLES,
        ways: HERE,
        checks: &[
            Check::BadId,
            Check::DuplicateId(Group::Obstacles),
            Check::TooMany,
            Check::LacksAChild(&["shape", "initialState"]),
        ],
    },
    Line {
        starts: OBSTACLES,
        ways: &[SHAPE],
        checks: &[Check::LacksEachChild(Code::Missing, &["rectangle", "circle", "polygon"])],
    },
    Line {
        starts: OBSTACLES,
        ways: &[RECTANGLE],
        checks: &[Check::LacksAChild(&["length", "width"])],
    },
    Line {
        starts: OBSTACLES,
        ways: &[CIRCLE],
        checks: &[Check::LacksAChild(&["radius"])],
    },
    Line {
        starts: OBSTACLES,
        ways: &[POLYGON],
        checks: &[Check::LacksAChild(&["point"])],
    },
    Line {
        starts: OBSTACLES,
        ways: SHAPE_POINTS,
        checks: X_AND_Y,
    },
    Line {
        starts: &[STATICS],
        ways: &[&[Step::First("initialState")]],
        checks: &[Check::LacksAChild(&["position"])],
    },
    Line {
        starts: MOVING_STARTS,
        ways: HERE,
        checks: &[Check::LacksAChild(&["position", "orientation", "velocity", "time"])],
    },
    Line {
        starts: &[RECORDED],
        ways: HERE,
        checks: &[Check::LacksAChild(&["position", "time"])],
    },
    Line {
        starts: STATES,
        ways: &[POSITION],
        checks: &[Check::LacksEachChild(Code::UncertainPosition, &["point"])],
    },
    Line {
        starts: STATES,
        ways: &[POSITION_POINT],
        checks: X_AND_Y,
    },
    Line {
        starts: MOVING_STARTS,
        ways: VALUES,
        checks: IS_EXACT,
    },
    Line {
        starts: &[RECORDED],
        ways: &[&[Step::First("time")]],
        checks: IS_EXACT,
    },
    Line {
        starts: &[PROBLEMS],
        ways: HERE,
        checks: &[
            Check::BadId,
            Check::DuplicateId(Group::Problems),
            Check::LacksAChild(&["initialState"]),
        ],
    },
    Line {
        starts: &[LANELETS],
        ways: BOUND_NUMBERS,
        checks: COORDINATE,
    },
    Line {
        starts: STATES,
        ways: POSITION_NUMBERS,
        checks: COORDINATE,
    },
    Line {
        starts: OBSTACLES,
        ways: SHAPE_NUMBERS,
        checks: SHAPE_COORDINATE,
    },
    Line {
        starts: OBSTACLES,
        ways: SIZES,
        checks: SIZE,
    },
    Line {
        starts: MOVING_STARTS,
        ways: &[&[Step::First("orientation"), Step::First("exact")]],
        checks: ANGLE,
    },
    Line {
        starts: MOVING_STARTS,
        ways: &[&[Step::First("velocity"), Step::First("exact")]],
        checks: SPEED,
    },
    Line {
        starts: TIMED,
        ways: &[&[Step::First("time"), Step::First("exact")]],
        checks: TIME,
    },
];

/// The lines of the profile.
pub(crate) fn lines() -> &'static [Line]
    ensures { map line_of result.now ≡ profile }
{
    &PROFILE
}

impl Check {
    /// The code of a refusal by this check.
    pub(crate) fn code(&self) -> Code
        ensures { result ≡ code_of (check_of self.now) }
    {
        match self {
            Check::WrongRoot => Code::Root,
            Check::WrongVersion => Code::Version,
            Check::NoStepSize | Check::LacksAChild(_) => Code::Missing,
            Check::BadStepSize | Check::BadNumber => Code::BadNumber,
            Check::LargeStepSize | Check::OutOfRange(_) => Code::OutOfRange,
            Check::UnevenStepSize => Code::StepSize,
            Check::BadId => Code::BadId,
            Check::DuplicateId(_) => Code::DuplicateId,
            Check::TooMany => Code::TooManyParticipants,
            Check::BoundCount => Code::BoundCount,
            Check::LacksEachChild(code, _) => *code,
        }
    }
}
