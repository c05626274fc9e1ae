//! What a command line asks for.

/// What is to be written.
#[derive(Clone, Copy, Debug, PartialEq, Eq)]
pub enum Task {
    /// The occupancies of the participants.
    Predict,
    /// The occupancies, and the drivable area that avoids them.
    Area,
    /// The drivable area that avoids recorded traffic.
    Replay,
    /// A drawing of the last step of the area.
    Draw,
    /// A made scenario's area, as a summary.
    Sample,
}

/// A command: the numbers as they were read, or their defaults.
#[derive(Clone, Copy, Debug, PartialEq, Eq)]
pub struct Command {
    pub task: Task,
    /// How many steps are predicted, 1 to 100.
    pub steps: u32,
    /// The id of the wanted planning problem; none stands for the first.
    pub problem: Option<u32>,
    /// The ego's greatest acceleration in m/s², 1 to 20.
    pub ego_acc: u32,
    /// The ego's greatest speed in m/s, 1 to 100.
    pub ego_speed: u32,
    /// The ego's length in mm, 100 to 20,000.
    pub ego_length: u32,
    /// The ego's width in mm, 100 to 20,000.
    pub ego_width: u32,
    /// The width of a column of the grid in mm, 100 to 100,000.
    pub cell_x: u32,
    /// The height of a row of the grid in mm, 100 to 100,000.
    pub cell_y: u32,
    /// The number that a sample is made from.
    pub seed: u32,
    /// The lanes of a sample, 1 to 8.
    pub lanes: u32,
    /// The movers of a sample, 0 to 1000.
    pub movers: u32,
}
