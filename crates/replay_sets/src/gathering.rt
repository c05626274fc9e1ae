//! The discs of recorded traffic, as they are gathered.

ghost use Rattle.std.specs.Prelude.{◌≡◌, ◌+◌, ◌<◌, ◌≤◌, ◌++◌, ℕ, length, map, IfOk};
ghost use Rattle.spot_terms.specs.OccupiedPieces.{discs_of, fixed_disc};
ghost use Rattle.spot_terms.specs.Ranges.{AreStatesInRange, IsFixedInRange, IsMoverInRange};
ghost use Rattle.replay_sets.specs.Discs.{AreStanding, Follows};

use crate::recorded::Discs;
use spot_terms::{Disc, Fixed, MOST_STEPS, Mover, Pt, Scenario};
use std::alloc::{AllocError, Global};

// The disc of a static obstacle.
fn disc_of(f: &Fixed, radius: u64) -> Disc
    requires fixed { IsFixedInRange f.now }
    requires radius { radius ≤ 150_000_000 }
    ensures { result ≡ fixed_disc radius f.now }
{
    Disc {
        id: f.id,
        p: Pt { x: f.x, y: f.y },
        r: f.inscribed + radius,
    }
}

// The discs of the static obstacles.
fn fixed_discs(alloc: Global, s: &Scenario, radius: u64) -> Result<Discs, AllocError>
    requires radius { radius ≤ 150_000_000 }
    ensures { IfOk result (λ discs. discs ≡ map (fixed_disc radius) s.now.fixed) }
{
    let mut items = Vec::new(alloc);
    for f in s.fixed.list() {
        items.push(disc_of(f, radius))?;
    }
    Ok(Discs::from_vec(items))
}

/// The discs of the static obstacles, at each step up to the last one.
pub(crate) fn standing(
    alloc: Global,
    s: &Scenario,
    radius: u64,
    steps: u32,
) -> Result<Vec<Discs>, AllocError>
    requires radius { radius ≤ 150_000_000 }
    requires steps { steps ≤ MOST_STEPS }
    ensures { IfOk result (λ all. AreStanding s.now radius (steps + 1) all.items) }
{
    let mut all = Vec::new(alloc);
    for _ in 0..steps + 1 {
        all.push(fixed_discs(alloc, s, radius)?)?;
    }
    Ok(all)
}

/// Adds the discs of the recorded states of a dynamic obstacle, each at its step; those after the last step are left out.
pub(crate) fn put_states(all: &mut Vec<Discs>, m: &Mover, radius: u64) -> Result<(), AllocError>
    requires mover { IsMoverInRange m.now }
    requires states { AreStatesInRange m.now }
    requires radius { radius ≤ 150_000_000 }
    ensures { IfOk result (λ _. Follows all.old.items all.new.items (λ step. discs_of radius step m.now)) }
{
    for state in m.recorded.list() {
        let (step, x, y) = *state;
        if (step as usize) < all.len() {
            all[step as usize].push(Disc {
                id: m.id,
                p: Pt { x, y },
                r: m.inscribed + radius,
            })?;
        }
    }
    Ok(())
}
