//! Why there is no run.

ghost use Rattle.std.specs.Prelude.{◌≡◌};

use std::alloc::AllocError;
use thiserror::Error;

/// Why there is no run.
#[derive(Clone, Copy, Debug, PartialEq, Eq, Error)]
pub enum AreaFault {
    /// At this step there are so many cells: more than 65,536 of its own, or more than 524,288 up to it.
    #[error("step {0} is too wide: {1} cells")]
    AreaTooWide(u32, u64),
    /// This step has so many row boxes, which is more than 1,048,576.
    #[error("step {0} has too many row boxes: {1}")]
    TooManyBoxes(u32, u64),
    /// There was no memory.
    #[error("out of memory")]
    Memory,
}

impl From<AllocError> for AreaFault {
    ghost use Rattle.area_run.specs.declared.fault.AreaFault.TheVariants.{Memory};

    ghost from_gives = { λ _ fault. fault ≡ Memory };

    fn from(_error: AllocError) -> AreaFault {
        AreaFault::Memory
    }
}
