//! The corners of the segment between two points.
ghost use Rattle.std.specs.Prelude.{◌≡◌, ◌↔◌, [], ◌∷◌, IsTrue};
ghost use Rattle.spot_terms.specs.Hull.{Before, IsHullOf};

use arrayvec::ArrayVec;
use spot_terms::Pt;

/// Puts the corners of the hull of the two points into `corners`, in place of what is there.
pub(crate) fn put_ends(corners: &mut ArrayVec<Pt, 20>, p: &Pt, q: &Pt)
    ensures { IsHullOf (p.now ∷ q.now ∷ []) corners.new.items }
{
    corners.clear();
    if is_before(q, p) {
        corners.push(*q);
        corners.push(*p);
    } else {
        corners.push(*p);
        if is_before(p, q) {
            corners.push(*q);
        }
    }
}

/// Whether `p` comes before `q`: by x, then by y.
pub(crate) fn is_before(p: &Pt, q: &Pt) -> bool
    ensures { IsTrue result ↔ Before p.now q.now }
{
    p.x < q.x || (p.x == q.x && p.y < q.y)
}
