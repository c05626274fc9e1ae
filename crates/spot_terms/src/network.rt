//! Where the cells of a network come from.

/// Where a cell comes from. Lanelets are told by their positions in document order, from 0.
#[derive(Clone, Copy, Debug, PartialEq, Eq)]
pub enum Origin {
    /// Part `part` of the `parts` parts of piece `piece` of a lanelet.
    Part {
        lane: u32,
        piece: u32,
        part: u32,
        parts: u32,
    },
    /// The bridge from one lanelet to another.
    Bridge {
        from: u32,
        to: u32,
    },
}
