//! Points in order of x, then y.
ghost use Rattle.std.specs.Prelude.{◌≡◌, ◌≤◌, ◌<◌, ℕ, length, slice_index_or};
ghost use Rattle.std.specs.List.{AllByRecursion};
ghost use Rattle.std.specs.List.Sorted.{IsPermutation};
ghost use Rattle.spot_terms.specs.Lists.{Includes};
ghost use Rattle.convex_poly.specs.Chains.{IsInOrder, IsOrdered};

use crate::inside::is_same;
use arrayvec::ArrayVec;
use spot_terms::Pt;

/// Puts the points into `sorted`, in order, in place of what is there.
pub(crate) fn put_sorted(sorted: &mut ArrayVec<Pt, 64>, points: &[Pt])
    requires { length points.now ≤ 64 }
    ensures permutation { IsPermutation points.now sorted.new.items }
    ensures order { (i j : ℕ) (d : Pt) → i < j → j < length sorted.new.items → IsInOrder (slice_index_or sorted.new.items i d) (slice_index_or sorted.new.items j d) }
{
    sorted.clear();
    for p in points {
        sorted.push(*p);
    }
    sorted.as_mut_slice().sort_unstable();
}

/// Puts the points, which are in order, into `kept`, each once, in place of what is there.
pub(crate) fn put_distinct(kept: &mut ArrayVec<Pt, 64>, points: &[Pt])
    requires few { length points.now ≤ 64 }
    requires order { (i j : ℕ) (d : Pt) → i < j → j < length points.now → IsInOrder (slice_index_or points.now i d) (slice_index_or points.now j d) }
    ensures ordered { IsOrdered kept.new.items }
    ensures among { AllByRecursion (Includes points.now) kept.new.items }
    ensures all { AllByRecursion (Includes kept.new.items) points.now }
{
    kept.clear();
    for (i, p) in points.iter().enumerate() {
        if i == 0 || !is_same(&points[i - 1], p) {
            kept.push(*p);
        }
    }
}
