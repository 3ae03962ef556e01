//! A curve made outside the engine: the bare curve with a radius that is wider than it need be.

ghost use Rattle.std.specs.Prelude.{◌≡◌, min};
ghost use Rattle.engine.specs.Coordinates.{furthest};
ghost use Rattle.engine.specs.Curves.{bare};
ghost use Rattle.std.proofs.Math.Nat.{min-le_right};
ghost use Rattle.engine.specs.Fraction.{whole};
ghost use Rattle.engine.specs.Layers.{bare_rules};
ghost use Rattle.engine.specs.Sums.{+ᶠ_up};

use engine::coordinate::FURTHEST;
use engine::curve::{Bare, Curve};

/// The bare curve, told with this radius, held to 16383.
#[derive(Clone, Copy)]
pub struct Loose {
    radius: u16,
}

impl Loose {
    pub(crate) fn new(radius: u16) -> Loose
        ensures { result.radius ≡ radius }
    {
        Loose { radius }
    }
}

impl Curve for Loose {
    ghost V = { λ _. bare.V };

    ghost E = { λ _. bare.E };

    ghost S = { λ _. bare.S };

    ghost R = { λ s. min s.radius furthest };

    // the rules of the bare curve, with value and exact value the same and the radius wider
    ghost keeps = { λ s.
        record {
          rise_fits = bare_rules.rise_fits;
          radius_fits = min-le_right s.radius furthest;
          value_fits = bare_rules.value_fits;
          value_mono = bare_rules.value_mono;
          exact_fits = bare_rules.exact_fits;
          exact_mono = bare_rules.exact_mono;
          exact_rise = bare_rules.exact_rise;
          value_low = λ x c. +ᶠ_up (whole x) _;
          value_high = λ x c. +ᶠ_up (whole x) _;
        } };

    fn value(&self, x: i32) -> i32 {
        Bare.value(x)
    }

    fn rise(&self) -> u16 {
        Bare.rise()
    }

    fn radius(&self) -> u16 {
        self.radius.min(FURTHEST as u16)
    }
}
