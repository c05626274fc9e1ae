//! How far a prediction looks.

ghost use Rattle.std.specs.Prelude.{◌≤◌};
ghost use Rattle.spot_terms.specs.declared.limits.TheConstants.{MOST_STEPS, MOST_TICKS};

/// How far a prediction looks: so many intervals of `k` ticks, a tick being 1 ms.
#[derive(Clone, Copy, Debug, PartialEq, Eq)]
pub struct Horizon {
    /// The ticks of an interval, 1 to 1,000.
    pub k: u32,
    /// How many intervals there are, at most 100.
    pub steps: u32,
    ghost some_ticks: { 1 ≤ k },
    ghost few_ticks: { k ≤ MOST_TICKS },
    ghost few_steps: { steps ≤ MOST_STEPS },
}
