//! What a scenario holds.

ghost use Rattle.std.proofs.Props.{props};
ghost use Rattle.spot_terms.specs.Ranges.{IsInRange};

use crate::lists::{IdList, Items, PtList, StateList};
use indexmap::IndexMap;

/// The type of a dynamic obstacle; `Unknown` stands for every word that names none of the others.
#[derive(Clone, Copy, Debug, PartialEq, Eq)]
pub enum Kind {
    Car,
    Taxi,
    Truck,
    Bus,
    Priority,
    Motorcycle,
    Bicycle,
    Pedestrian,
    Train,
    Unknown,
}

/// A lanelet as it is read: its bounds, and the ids that it refers to.
#[derive(Drop)]
pub struct RawLane {
    /// The points of the left bound in driving direction, in µm.
    pub left: PtList,
    /// The points of the right bound, likewise.
    pub right: PtList,
    /// The ids of the lanelets that follow.
    pub successors: IdList,
    /// The ids of the lanelets before.
    pub predecessors: IdList,
    /// The ids of the neighbours that are driven in the same direction, first left, then right.
    pub sides: IdList,
}

/// A dynamic obstacle as it is read.
#[derive(Drop)]
pub struct Mover {
    /// Its id.
    pub id: u32,
    /// The number of its element in the tree.
    pub place: u32,
    /// Its type.
    pub kind: Kind,
    /// The radius of a disc about its position that holds its shape, in µm.
    pub enclosing: u64,
    /// The radius of a disc about its position that its shape holds, in µm.
    pub inscribed: u64,
    /// Its initial time, in steps.
    pub time: u32,
    /// Its position, in µm.
    pub x: i64,
    /// Its position, in µm.
    pub y: i64,
    /// Its velocity along its orientation, in mm/s.
    pub speed: i64,
    /// Its orientation from the x axis, in µrad.
    pub angle: i64,
    /// Its recorded states: the initial one, then those of its trajectory.
    pub recorded: StateList,
}

/// A static obstacle as it is read.
#[derive(Clone, Copy, Debug, PartialEq, Eq)]
pub struct Fixed {
    /// Its id.
    pub id: u32,
    /// The number of its element in the tree.
    pub place: u32,
    /// The radius of a disc about its position that holds its shape, in µm.
    pub enclosing: u64,
    /// The radius of a disc about its position that its shape holds, in µm.
    pub inscribed: u64,
    /// Its position, in µm.
    pub x: i64,
    /// Its position, in µm.
    pub y: i64,
}

/// A planning problem as it is read.
#[derive(Clone, Copy, Debug, PartialEq, Eq)]
pub struct Problem {
    /// Its id.
    pub id: u32,
    /// The number of its element in the tree.
    pub place: u32,
    /// Its initial time, in steps.
    pub time: u32,
    /// The position at which it begins, in µm.
    pub x: i64,
    /// The position at which it begins, in µm.
    pub y: i64,
    /// The velocity at which it begins, in mm/s.
    pub speed: i64,
    /// The orientation at which it begins, in µrad.
    pub angle: i64,
}

/// The dynamic obstacles, in document order.
pub type Movers = Items<Mover>;

/// The static obstacles, in document order.
pub type FixedList = Items<Fixed>;

/// The planning problems, in document order.
pub type Problems = Items<Problem>;

/// What is read of an accepted tree, each list in document order.
///
/// All values are in the ranges of the profile: a step has 1 to 1,000 ticks, positions are at most 10^13 µm in size, radii at
/// most 250,000,000 µm, speeds at most 200,000 mm/s and angles at most 7,000,000 µrad in size, times at most 1,000,000 steps. The
/// two bounds of a lanelet have as many points, at least two. There are at most 4,096 obstacles; recorded states and problems
/// are at most 67,108,864 together, and so are points and references of all lanelets.
#[derive(Drop)]
pub struct Scenario {
    /// The number of ticks of a step, a tick being 1 ms.
    pub step: u32,
    /// The lanelets, by id.
    pub lanelets: IndexMap<u32, RawLane>,
    /// The dynamic obstacles.
    pub movers: Movers,
    /// The static obstacles.
    pub fixed: FixedList,
    /// The planning problems.
    pub problems: Problems,
    pub ghost in_range: { IsInRange step lanelets.entries movers fixed problems } by { Prim.hlevel props },
}
