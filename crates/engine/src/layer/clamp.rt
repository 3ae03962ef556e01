//! A curve held to a band.

ghost use Rattle.std.specs.Prelude.{◌≡◌};
ghost use Rattle.engine.specs.Curves.{clamp};
ghost use Rattle.engine.specs.Means.{means};
ghost use Rattle.engine.specs.Layers.{clamp_rules};
ghost use Rattle.engine.specs.Holds.{band_ends};

use crate::band::Band;
use crate::curve::Curve;

/// The curve below held to a band.
#[derive(Debug, Drop)]
pub struct Clamp<C> {
    below: C,
    band: Band,
}

impl<C> Clamp<C> {
    /// The curve below held to the band.
    pub fn new(below: C, band: Band) -> Clamp<C>
        ensures below { result.below ≡ below }
        ensures band { result.band ≡ band }
    {
        Clamp { below, band }
    }
}

impl<C: Curve> Curve for Clamp<C> {
    ghost V = { λ s. (clamp s.band.lo s.band.hi (means C.Curve s.below)).V };

    ghost E = { λ s. (clamp s.band.lo s.band.hi (means C.Curve s.below)).E };

    ghost S = { λ s. (clamp s.band.lo s.band.hi (means C.Curve s.below)).S };

    ghost R = { λ s. (clamp s.band.lo s.band.hi (means C.Curve s.below)).R };

    ghost keeps = { λ s.
        let ends = band_ends s.band in
        clamp_rules _ _ _ ends.0 ends.1 s.band.order (C.Curve.keeps s.below) };

    fn value(&self, x: i32) -> i32 {
        self.band.hold(self.below.value(x))
    }

    fn rise(&self) -> u16 {
        self.below.rise()
    }

    fn radius(&self) -> u16 {
        self.below.radius()
    }
}
