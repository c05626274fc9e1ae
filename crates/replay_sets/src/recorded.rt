//! Recorded traffic of a scenario.

ghost use Rattle.std.specs.Prelude.{◌≡◌, ℕ, ◌+◌, ◌-◌, ◌≤◌, ◌<◌, ◌++◌, ◌∷◌, [], length, slice_get, IfOk, Some};
ghost use Rattle.spot_terms.specs.OccupiedPieces.{discs};
ghost use Rattle.spot_terms.specs.Pieces.{Hits, range_of, disc};
ghost use Rattle.carve.proofs.PieceLaws.{hits_upright, hits_in_range};
ghost use Rattle.replay_sets.specs.Discs.{discs_at, pieces_at, IsSmallDisc};

use crate::gathering::{put_states, standing};
use crate::runs::run_of;
use carve::Occupied;
use spot_terms::{Disc, MOST_STEPS, Scenario};
use std::alloc::{AllocError, Global};
use std::marker::Model;

/// The discs of a step.
#[derive(Drop)]
pub struct Discs {
    items: Vec<Disc>,
}

impl Model for Discs {
    ghost use Rattle.std.specs.Prelude.{List};
    ghost use Rattle.spot_terms.specs.declared.plain.Disc.{Disc};

    ghost Value = { List Disc };

    ghost view = { λ l. l.items.items };
}

impl Discs {
    /// The list of these discs.
    pub fn from_vec(items: Vec<Disc>) -> Discs
        ensures { result ≡ items.items }
    {
        Discs { items }
    }

    // Adds a disc at the end.
    pub(crate) fn push(&mut self, d: Disc) -> Result<(), AllocError>
        ensures { IfOk result (λ _. self.new ≡ self.old ++ d ∷ []) }
    {
        self.items.push(d)?;
        Ok(())
    }

    /// The discs, in order.
    pub fn list(&self) -> &[Disc]
        ensures { result.now ≡ self.now }
    {
        &self.items
    }
}

/// The discs of recorded traffic, seen as those of each step from 0 to the last one.
#[derive(Drop)]
pub struct Recorded {
    steps: Vec<Discs>,
}

impl Model for Recorded {
    ghost use Rattle.replay_sets.specs.Discs.{DiscLists, IsKept};

    ghost Value = { DiscLists };

    ghost view = { λ r. r.steps.items };

    ghost invariant = { λ r. IsKept r.steps.items };
}

impl Recorded {
    /// The recorded traffic of a scenario at the steps from 0 to `steps`, for an ego with this inscribed radius in µm, at
    /// most 150 m: at each step the static obstacles, then each recorded state of a dynamic obstacle at that step, in
    /// document order. The radius of a disc is the obstacle's inscribed radius and the ego's. The only error is want of
    /// memory.
    pub fn make(
        alloc: Global,
        s: &Scenario,
        ego_radius: u64,
        steps: u32,
    ) -> Result<Recorded, AllocError>
        requires radius { ego_radius ≤ 150_000_000 }
        requires steps { steps ≤ MOST_STEPS }
        ensures last { IfOk result (λ r. length r ≡ steps + 1) }
        ensures discs { IfOk result (λ r. (i : ℕ) → i ≤ steps → discs_at r i ≡ discs s.now ego_radius i) }
    {
        let mut all = standing(alloc, s, ego_radius, steps)?;
        for m in s.movers.list() {
            put_states(&mut all, m, ego_radius)?;
        }
        Ok(Recorded { steps: all })
    }

    /// The discs of a step, in order; after the last step there are none.
    pub fn discs(&self, step: u32) -> &[Disc]
        ensures { result.now ≡ discs_at self.now step }
    {
        match self.steps.get(step as usize) {
            Some(discs) => discs.list(),
            None => &[],
        }
    }

    // A disc of a step.
    fn disc(&self, step: u32, piece: u32) -> Disc
        requires step { step ≤ length self.now - 1 }
        requires piece { piece < length (pieces_at self.now step) }
        ensures small { IsSmallDisc result }
        ensures piece { slice_get (pieces_at self.now step) piece ≡ Some (disc result.p result.r) }
    {
        self.steps[step as usize].list()[piece as usize]
    }
}

impl Occupied for Recorded {
    ghost count = { λ r step. length (pieces_at r step) };

    ghost hits = { λ r step piece q. Hits (pieces_at r step) piece q };

    ghost range = { λ r step piece. range_of (pieces_at r step) piece };

    ghost last = { λ r. length r - 1 };

    ghost far = { λ _. 40_000_000_000_000 };

    fn pieces(&self, step: u32) -> u32 {
        self.steps[step as usize].list().len() as u32
    }

    fn span(&self, step: u32, piece: u32) -> Option<(i64, i64)> {
        let d = self.disc(step, piece);
        let r = d.r as i64;
        Some((d.p.y - r, d.p.y + r))
    }

    fn run(&self, step: u32, piece: u32, y0: i64, y1: i64) -> Option<(i64, i64)> {
        let d = self.disc(step, piece);
        run_of(d.p, d.r, y0, y1)
    }

    fn next(&self, _step: u32, from: u32, _left: i64, _right: i64) -> u32 {
        from
    }

    ghost upright = { λ r step piece x y0 y y1 low high a b. hits_upright (pieces_at r step) piece x y0 y y1 low high a b };

    ghost in_range = { λ r step piece q h. hits_in_range (pieces_at r step) piece q h };
}
