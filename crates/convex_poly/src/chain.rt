//! One side of a hull: a chain of points that turns left.
ghost use Rattle.std.specs.Prelude.{◌≡◌, ◌<◌, ◌≤◌, ◌+◌, ◌-ℤ◌, ◌↔◌, ℤ, pos, List, [], ◌∷◌, ◌++◌, IsTrue, length};
ghost use Rattle.std.specs.List.{AllByRecursion};
ghost use Rattle.arrayvec.specs.ArrayVec.{array_vec_len};
ghost use Rattle.convex_poly.specs.Chains.{HasDent, IsChain, KeepsFront, Rising, Toward};
ghost use Rattle.convex_poly.specs.Polygons.{IsPosition};
ghost use Rattle.convex_poly.specs.Turns.{TurnsLeft};

use crate::plane::cross;
use arrayvec::ArrayVec;
use spot_terms::Pt;

/// Whether the last two points of the chain and `next` don't turn left.
fn has_dent(chain: &[Pt], next: &Pt) -> bool
    requires positions { AllByRecursion IsPosition chain.now }
    requires next_in { IsPosition next.now }
    ensures { IsTrue result ↔ HasDent chain.now next.now }
{
    let n = chain.len();
    n >= 2 && cross(&chain[n - 2], &chain[n - 1], next) <= 0
}

/// Adds a point that follows all others, and drops the points that it leaves inside.
fn extend<const CAP: usize>(chain: &mut ArrayVec<Pt, CAP>, next: &Pt)
    requires room { array_vec_len chain.old < CAP }
    requires positions { AllByRecursion IsPosition chain.old.items }
    requires next_in { IsPosition next.now }
    ensures front { KeepsFront chain.old.items next.now chain.new.items }
    ensures turns { (kx ky : ℤ) → Rising kx ky (chain.old.items ++ next.now ∷ []) → TurnsLeft chain.old.items → TurnsLeft chain.new.items }
    ensures side { (kx ky : ℤ) → Rising kx ky (chain.old.items ++ next.now ∷ []) → AllByRecursion (Toward ky (pos 0 -ℤ kx) chain.new.items) (chain.old.items ++ next.now ∷ []) }
{
    while has_dent(chain.as_slice(), next) {
        chain.pop();
    }
    chain.push(*next);
}

/// Puts the chain of points whose keys rise into `chain`, in place of what is there: it turns left, and all points lie
/// on its left side.
pub(crate) fn put_chain<const CAP: usize>(chain: &mut ArrayVec<Pt, CAP>, points: &[Pt])
    requires few { length points.now ≤ CAP }
    requires positions { AllByRecursion IsPosition points.now }
    ensures few { length chain.new.items ≤ length points.now }
    ensures chain { (kx ky : ℤ) → Rising kx ky points.now → IsChain kx ky points.now chain.new.items }
{
    chain.clear();
    for p in points {
        extend(chain, p);
    }
}
