//! Knots: the points that a curve goes through.

/// A knot: at x the curve has the value y.
#[derive(Clone, Copy, PartialEq, Eq, Debug)]
pub struct Knot {
    pub x: i32,
    pub y: i32,
}
