//! The limits of the product, each once: code and contracts cite them.

/// How many bytes an input may have; so many elements a tree may have, and so many points and references all lanelets.
pub const MOST_BYTES: usize = 67_108_864;

/// How many obstacles a scenario may have.
pub const MOST_OBSTACLES: usize = 4_096;

/// How many cells a network may have.
pub const MOST_CELLS: u32 = 100_000;

/// How many pairs of a participant and a lane polygon a prediction may have.
pub const MOST_LANE_POLYGONS: u64 = 262_144;

/// How many cells of the grid a step of the drivable area may reach.
pub const MOST_STEP_CELLS: u64 = 65_536;

/// How many cells of the grid all steps of the drivable area may reach together.
pub const MOST_GRID_CELLS: u64 = 524_288;

/// How many row boxes a step of the drivable area may have.
pub const MOST_ROW_BOXES: u64 = 1_048_576;

/// How many steps may be predicted.
pub const MOST_STEPS: u32 = 100;

/// How many ticks of 1 ms a step may have.
pub const MOST_TICKS: u32 = 1_000;

/// The last tick that may be predicted.
pub const LAST_TICK: u32 = MOST_STEPS * MOST_TICKS;

/// The greatest size of a coordinate that is read, in µm.
pub const MOST_COORDINATE: u64 = 10_000_000_000_000;

/// The greatest length, width, radius and size of a coordinate of a shape that is read, in µm.
pub const MOST_SHAPE: u64 = 100_000_000;

/// The greatest radius of a shape about the position of its obstacle, in µm.
pub const MOST_RADIUS: u64 = 250_000_000;

/// The greatest size of a speed that is read, in mm/s.
pub const MOST_SPEED: u64 = 200_000;

/// The greatest size of an angle that is read, in µrad.
pub const MOST_ANGLE: u64 = 7_000_000;

/// The greatest time that is read, in steps.
pub const MOST_TIME: u32 = 1_000_000;
