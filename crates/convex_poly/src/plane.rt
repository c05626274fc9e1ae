//! Offsets between coordinates, vectors between points, and their products and turns.
//!
//! A position has coordinates of at most 4·10^13 in size, in µm or mm/s, and a vector of at most 10^14, so that products
//! are within 128 bits. A short vector has coordinates of at most 10^9 in size, so that products are within 64 bits.
ghost use Rattle.std.specs.Prelude.{◌≡◌, ◌≤◌, ◌-ℤ◌, ◌*ℤ◌};
ghost use Rattle.spot_terms.specs.Whole.{SizeAtMost};
ghost use Rattle.convex_poly.specs.Vectors.{inner_product as inner_product_of, minus as minus_of, turn_of, IsShort, IsVector};
ghost use Rattle.convex_poly.specs.Polygons.{IsPosition};
ghost use Rattle.convex_poly.specs.Turns.{cross as cross_of, inner as inner_of};

use spot_terms::Pt;

/// The offset from one coordinate to another, both at most 4·10^13 in size.
pub fn offset(from: i64, to: i64) -> i64
    requires from_in { SizeAtMost 40_000_000_000_000 from }
    requires to_in { SizeAtMost 40_000_000_000_000 to }
    ensures value { result ≡ to -ℤ from }
    ensures within { SizeAtMost 100_000_000_000_000 result }
{
    to - from
}

/// The vector from `q` to `p`.
pub fn minus(p: &Pt, q: &Pt) -> Pt
    requires p_in { IsPosition p.now }
    requires q_in { IsPosition q.now }
    ensures value { result ≡ minus_of p.now q.now }
    ensures size { IsVector result }
{
    Pt {
        x: offset(q.x, p.x),
        y: offset(q.y, p.y),
    }
}

/// The product of two offsets.
pub fn times(a: i64, b: i64) -> i128
    requires a_in { SizeAtMost 100_000_000_000_000 a }
    requires b_in { SizeAtMost 100_000_000_000_000 b }
    ensures value { result ≡ a *ℤ b }
    ensures within { SizeAtMost 10_000_000_000_000_000_000_000_000_000 result }
{
    i128::from(a) * i128::from(b)
}

/// The inner product of two vectors.
pub fn inner_product(u: &Pt, v: &Pt) -> i128
    requires u_in { IsVector u.now }
    requires v_in { IsVector v.now }
    ensures value { result ≡ inner_product_of u.now v.now }
    ensures within { SizeAtMost 20_000_000_000_000_000_000_000_000_000 result }
{
    times(u.x, v.x) + times(u.y, v.y)
}

/// Twice the area of the triangle of 0, `u` and `v`: positive where `v` is left of `u`.
pub fn turn(u: &Pt, v: &Pt) -> i128
    requires u_in { IsVector u.now }
    requires v_in { IsVector v.now }
    ensures value { result ≡ turn_of u.now v.now }
    ensures within { SizeAtMost 20_000_000_000_000_000_000_000_000_000 result }
{
    times(u.x, v.y) - times(u.y, v.x)
}

/// Twice the area of the triangle `a`, `b`, `c`: positive where the path from `a` over `b` to `c` turns left.
pub fn cross(a: &Pt, b: &Pt, c: &Pt) -> i128
    requires a_in { IsPosition a.now }
    requires b_in { IsPosition b.now }
    requires c_in { IsPosition c.now }
    ensures { result ≡ cross_of a.now b.now c.now }
{
    turn(&minus(b, a), &minus(c, a))
}

/// The inner product of the vectors from `a` to `b` and from `a` to `c`.
pub fn inner(a: &Pt, b: &Pt, c: &Pt) -> i128
    requires a_in { IsPosition a.now }
    requires b_in { IsPosition b.now }
    requires c_in { IsPosition c.now }
    ensures { result ≡ inner_of a.now b.now c.now }
{
    inner_product(&minus(b, a), &minus(c, a))
}

/// The vector from `q` to `p`, where it is short.
pub fn short_minus(p: &Pt, q: &Pt) -> Pt
    requires { IsShort (minus_of p.now q.now) }
    ensures { result ≡ minus_of p.now q.now }
{
    Pt {
        x: p.x - q.x,
        y: p.y - q.y,
    }
}

/// The product of two coordinates of short vectors.
fn short_times(a: i64, b: i64) -> i64
    requires a_in { SizeAtMost 1_000_000_000 a }
    requires b_in { SizeAtMost 1_000_000_000 b }
    ensures value { result ≡ a *ℤ b }
    ensures within { SizeAtMost 1_000_000_000_000_000_000 result }
{
    a * b
}

/// The inner product of two short vectors.
pub fn short_inner_product(u: &Pt, v: &Pt) -> i64
    requires u_in { IsShort u.now }
    requires v_in { IsShort v.now }
    ensures value { result ≡ inner_product_of u.now v.now }
    ensures within { SizeAtMost 2_000_000_000_000_000_000 result }
{
    short_times(u.x, v.x) + short_times(u.y, v.y)
}

/// Twice the area of the triangle of 0 and two short vectors: positive where `v` is left of `u`.
pub fn short_turn(u: &Pt, v: &Pt) -> i64
    requires u_in { IsShort u.now }
    requires v_in { IsShort v.now }
    ensures value { result ≡ turn_of u.now v.now }
    ensures within { SizeAtMost 2_000_000_000_000_000_000 result }
{
    short_times(u.x, v.y) - short_times(u.y, v.x)
}
