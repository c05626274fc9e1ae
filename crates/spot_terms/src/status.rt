//! How a run ends.
ghost use Rattle.std.specs.Prelude.{◌≡◌};
ghost use Rattle.spot_terms.specs.Statuses.{status_number};

/// Why an input is refused. The number beside it says where: of an element of the tree, or 0.
#[derive(Clone, Copy, Debug, PartialEq, Eq)]
pub enum Code {
    NotJson,
    NotTree,
    Root,
    Version,
    Missing,
    BadNumber,
    OutOfRange,
    StepSize,
    BadId,
    DuplicateId,
    BoundCount,
    UncertainPosition,
    UncertainValue,
    TooManyParticipants,
    NoProblem,
    LateProblem,
    EgoTooFast,
}

/// The limits of a run.
#[derive(Clone, Copy, Debug, PartialEq, Eq)]
pub enum Which {
    TooLong,
    TooManyCells,
    LaneTooWide,
    TooManyLanePolygons,
    AreaTooWide,
    TooManyBoxes,
}

/// How a run ended.
#[derive(Clone, Copy, Debug, PartialEq, Eq)]
pub enum Status {
    /// The whole report was written.
    Open,
    /// The whole report was written, and it says that from this step on every ego motion has entered an occupancy.
    Empty(u32),
    /// The words stand for no command.
    BadWords,
    /// The input is refused, by this code and at this place.
    Refused(Code, u32),
    /// A limit was passed, at this step and with this count.
    Limit(Which, u32, u64),
    /// The source failed.
    ReadFault,
    /// The sink failed.
    WriteFault,
    /// Memory ran out.
    Memory,
}

impl Status {
    /// The number that the process ends with.
    pub fn number(&self) -> u8
        ensures { result ≡ status_number self.now }
    {
        match self {
            Status::Open => 0,
            Status::Empty(_) => 1,
            Status::BadWords => 2,
            Status::Refused(_, _) => 3,
            Status::Limit(_, _, _) => 4,
            Status::ReadFault => 5,
            Status::WriteFault => 6,
            Status::Memory => 7,
        }
    }
}
