//! Boxes along the axes round points, and how far they tell that the points lie beside each other.

ghost use Rattle.std.specs.Prelude.{◌≡◌, ◌↔◌, ◌<◌, List, IsTrue, length};
ghost use Rattle.std.specs.Int.{int_gap, int_max, int_min};
ghost use Rattle.spot_terms.specs.Bodies.{IsGreatest};
ghost use Rattle.spot_terms.specs.Whole.{Within};
ghost use Rattle.spot_terms.specs.declared.plain.Pt.{Pt as Point};
ghost use Rattle.convex_poly.specs.Boxes.{IsBoxOf, IsInBox, LieBeside};

use spot_terms::Pt;

/// The box with these corners: the least of both coordinates, and the greatest, in µm.
#[derive(Clone, Copy)]
pub struct BoundingBox {
    /// The least x and y.
    pub low: Pt,
    /// The greatest x and y.
    pub high: Pt,
}

impl BoundingBox {
    /// The least box that holds some points.
    pub fn of(points: &[Pt]) -> BoundingBox
        requires { 0 < length points.now }
        ensures { IsBoxOf points.now result }
    {
        let mut least = BoundingBox {
            low: points[0],
            high: points[0],
        };
        for p in points {
            least = least.with(p);
        }
        least
    }

    // The least box that holds this one and a point.
    fn with(&self, p: &Pt) -> BoundingBox
        ensures left { result.low.x ≡ int_min self.now.low.x p.now.x }
        ensures right { result.high.x ≡ int_max self.now.high.x p.now.x }
        ensures bottom { result.low.y ≡ int_min self.now.low.y p.now.y }
        ensures top { result.high.y ≡ int_max self.now.high.y p.now.y }
    {
        BoundingBox {
            low: Pt {
                x: self.low.x.min(p.x),
                y: self.low.y.min(p.y),
            },
            high: Pt {
                x: self.high.x.max(p.x),
                y: self.high.y.max(p.y),
            },
        }
    }

    /// Whether a point is in the box, its border included.
    pub fn covers(&self, p: Pt) -> bool
        ensures { IsTrue result ↔ IsInBox self.now p }
    {
        self.covers_x(p.x) && self.covers_y(p.y)
    }

    // Whether a point with this x can be in the box.
    fn covers_x(&self, x: i64) -> bool
        ensures { IsTrue result ↔ Within self.now.low.x self.now.high.x x }
    {
        self.low.x <= x && x <= self.high.x
    }

    // Whether a point with this y can be in the box.
    fn covers_y(&self, y: i64) -> bool
        ensures { IsTrue result ↔ Within self.now.low.y self.now.high.y y }
    {
        self.low.y <= y && y <= self.high.y
    }

    /// How far the points in this box lie beside those in the other, along the axis along which that is more, in µm.
    pub fn beside(&self, other: &BoundingBox) -> u64
        ensures { (a b : List Point) → IsBoxOf a self.now → IsBoxOf b other.now → IsGreatest (LieBeside a b) result }
    {
        let x = rise(self.high.x, other.low.x).max(rise(other.high.x, self.low.x));
        let y = rise(self.high.y, other.low.y).max(rise(other.high.y, self.low.y));
        x.max(y)
    }
}

/// How far the second number is above the first, or 0.
fn rise(from: i64, to: i64) -> u64
    ensures { result ≡ int_gap from to }
{
    if from < to { to.abs_diff(from) } else { 0 }
}
