//! The greatest value of a linear function at the corners of a polygon.
ghost use Rattle.std.specs.Prelude.{◌≡◌, ◌<◌, length};
ghost use Rattle.std.specs.List.{AllByRecursion};
ghost use Rattle.spot_terms.specs.Hull.{dot as dot_of, IsSupport};
ghost use Rattle.spot_terms.specs.Whole.{SizeAtMost};
ghost use Rattle.convex_poly.specs.Polygons.{IsPosition};

use spot_terms::Pt;

/// normal · point.
fn dot(p: &Pt, nx: i64, ny: i64) -> i64
    requires p_in { IsPosition p.now }
    requires nx_in { SizeAtMost 2_000 nx }
    requires ny_in { SizeAtMost 2_000 ny }
    ensures { result ≡ dot_of nx ny p.now }
{
    nx * p.x + ny * p.y
}

/// The greatest normal · corner.
pub(crate) fn greatest_along(corners: &[Pt], nx: i64, ny: i64) -> i64
    requires some { 0 < length corners.now }
    requires positions { AllByRecursion IsPosition corners.now }
    requires nx_in { SizeAtMost 2_000 nx }
    requires ny_in { SizeAtMost 2_000 ny }
    ensures { IsSupport corners.now nx ny result }
{
    let mut greatest = dot(&corners[0], nx, ny);
    for corner in corners {
        greatest = greatest.max(dot(corner, nx, ny));
    }
    greatest
}
