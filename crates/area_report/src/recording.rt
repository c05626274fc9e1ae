//! Recorded traffic, as a report shows it.

ghost use Rattle.std.specs.Prelude.{◌≡◌, ℕ, List, []};
ghost use Rattle.spot_terms.specs.declared.plain.Disc.{Disc};
ghost use Rattle.replay_sets.specs.Discs.{discs_at};

use replay_sets::Recorded;
use spot_terms::Disc;

/// Traffic that is recorded as discs at steps.
pub trait Recording {
    /// The discs of a step.
    ghost recorded: { Self → ℕ → List Disc };

    /// The discs of a step, in order.
    fn discs(&self, step: u32) -> &[Disc]
        ensures { result.now ≡ recorded self.now step };
}

/// No traffic is recorded.
#[derive(Clone, Copy, Debug)]
pub struct Unrecorded;

impl Recording for Unrecorded {
    ghost recorded = { λ _ _. [] };

    fn discs(&self, _step: u32) -> &[Disc] {
        &[]
    }
}

impl Recording for Recorded {
    ghost recorded = { λ r step. discs_at r step };

    fn discs(&self, step: u32) -> &[Disc] {
        Recorded::discs(self, step)
    }
}
