//! How many lane polygons there are.

ghost use Rattle.std.specs.Prelude.{◌≡◌, ◌≤◌, length, sum_by};

use crate::participant::Participant;
use spot_terms::MOST_LANE_POLYGONS;

/// How many lane polygons the participants have together.
pub fn polygon_count(participants: &[Participant]) -> u64
    requires few { sum_by (λ p. length p.polys) participants.now ≤ MOST_LANE_POLYGONS }
    ensures { result ≡ sum_by (λ p. length p.polys) participants.now }
{
    let mut count = 0;
    for p in participants {
        count += p.polys.list().len() as u64;
    }
    count
}
