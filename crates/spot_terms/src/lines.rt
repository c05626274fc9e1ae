//! The values of report lines.

use crate::plain::{Pt, VBox};

/// Which report it is.
#[derive(Clone, Copy, Debug, PartialEq, Eq)]
pub enum Mode {
    Predict,
    Area,
    Replay,
}

/// How a report ends.
#[derive(Clone, Copy, Debug, PartialEq, Eq)]
pub enum End {
    /// The occupancies are done.
    Done,
    /// Base sets are left at the last step.
    Open,
    /// At this step no base set is left.
    Empty(u32),
}

/// A predicted participant: its id, whether it follows lanes, the greatest acceleration in m/s² and speed in mm/s,
/// the start speed in mm/s, the radius of the body in µm, the start position and the box of start velocities.
#[derive(Clone, Copy, Debug, PartialEq, Eq)]
pub struct MoverLine {
    pub id: u32,
    pub lane: bool,
    pub a: i64,
    pub v: i64,
    pub s: u64,
    pub r: u64,
    pub p: Pt,
    pub b: VBox,
}
