//! One curve after another.

ghost use Rattle.std.specs.Prelude.{◌≡◌, min};
ghost use Rattle.engine.specs.Coordinates.{furthest};
ghost use Rattle.engine.specs.Curves.{chain};
ghost use Rattle.engine.specs.Means.{means};
ghost use Rattle.engine.specs.Layers.{chain_rules};

use crate::coordinate::FURTHEST;
use crate::curve::Curve;

/// One curve after another: the value of the inner is the argument of the outer.
#[derive(Debug, Drop)]
pub struct Chain<G, F> {
    outer: G,
    inner: F,
}

impl<G, F> Chain<G, F> {
    /// The outer curve after the inner one.
    pub fn new(outer: G, inner: F) -> Chain<G, F>
        ensures outer { result.outer ≡ outer }
        ensures inner { result.inner ≡ inner }
    {
        Chain { outer, inner }
    }
}

impl<G: Curve, F: Curve> Curve for Chain<G, F> {
    ghost V = { λ s. (chain (means G.Curve s.outer) (means F.Curve s.inner)).V };

    ghost E = { λ s. (chain (means G.Curve s.outer) (means F.Curve s.inner)).E };

    ghost S = { λ s. (chain (means G.Curve s.outer) (means F.Curve s.inner)).S };

    ghost R = { λ s. (chain (means G.Curve s.outer) (means F.Curve s.inner)).R };

    ghost keeps = { λ s. chain_rules _ _ (G.Curve.keeps s.outer) (F.Curve.keeps s.inner) };

    fn value(&self, x: i32) -> i32 {
        self.outer.value(self.inner.value(x))
    }

    fn rise(&self) -> u16 {
        capped(self.outer.rise().saturating_mul(self.inner.rise()))
    }

    fn radius(&self) -> u16 {
        let inner = self.outer.rise().saturating_mul(self.inner.radius());
        capped(self.outer.radius().saturating_add(inner))
    }
}

// A rise or a radius held to 0..16383.
fn capped(n: u16) -> u16
    ensures { result ≡ min n furthest }
{
    n.min(FURTHEST as u16)
}
