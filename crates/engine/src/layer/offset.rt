//! A curve moved by a shift.

ghost use Rattle.std.specs.Prelude.{◌≡◌, ◌≤ℤ◌};
ghost use Rattle.engine.specs.Coordinates.{least_shift, greatest_shift, held_shift};
ghost use Rattle.engine.specs.Curves.{offset};
ghost use Rattle.engine.specs.Means.{means};
ghost use Rattle.engine.specs.Layers.{offset_rules};

use crate::coordinate::{FURTHEST, held};
use crate::curve::Curve;

/// The curve below moved by a shift, and held to the coordinates.
#[derive(Debug, Drop)]
pub struct Offset<C> {
    below: C,
    shift: i32,
    ghost low: { least_shift ≤ℤ shift },
    ghost high: { shift ≤ℤ greatest_shift },
}

impl<C> Offset<C> {
    /// The curve below moved by c, which is held to -16383..16383.
    pub fn new(below: C, c: i32) -> Offset<C>
        ensures below { result.below ≡ below }
        ensures shift { result.shift ≡ held_shift c }
    {
        Offset {
            below,
            shift: c.clamp(-FURTHEST, FURTHEST),
        }
    }
}

impl<C: Curve> Curve for Offset<C> {
    ghost V = { λ s. (offset s.shift (means C.Curve s.below)).V };

    ghost E = { λ s. (offset s.shift (means C.Curve s.below)).E };

    ghost S = { λ s. (offset s.shift (means C.Curve s.below)).S };

    ghost R = { λ s. (offset s.shift (means C.Curve s.below)).R };

    ghost keeps = { λ s. offset_rules s.shift _ (C.Curve.keeps s.below) };

    fn value(&self, x: i32) -> i32 {
        let moved = self.below.value(x) + self.shift;
        held(moved)
    }

    fn rise(&self) -> u16 {
        self.below.rise()
    }

    fn radius(&self) -> u16 {
        self.below.radius()
    }
}
