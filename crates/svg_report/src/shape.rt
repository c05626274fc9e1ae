//! What is drawn of an occupied piece.

use convex_poly::Poly;

/// A shape in a drawing, in µm.
#[derive(Drop)]
pub enum Shape {
    /// A lane polygon.
    Lane(Poly),
    /// A rectangle, by its least and greatest x and its least and greatest y. It holds its ends; one whose least number is
    /// above its greatest is left out.
    Rect(i64, i64, i64, i64),
}
