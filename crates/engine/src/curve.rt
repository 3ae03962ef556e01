//! The interface of a curve, and the plainest curve.

ghost use Rattle.std.specs.Prelude.{◌≡◌, ℕ, ℤ};
ghost use Rattle.engine.specs.Fraction.{Fraction};
ghost use Rattle.engine.specs.Coordinates.{hold, lowest, highest};
ghost use Rattle.engine.specs.Curves.{bare, meaning, Rules};
ghost use Rattle.engine.specs.Layers.{bare_rules};

use crate::coordinate::held;

/// A curve takes a reading to a value. Its questions never refuse, and as they only borrow the curve, it means the same
/// before and after.
pub trait Curve {
    // the whole value at a coordinate
    ghost V: { Self → ℤ → ℤ };

    // the exact value at a fraction
    ghost E: { Self → Fraction → Fraction };

    // the rise: over any width of at most n, n a whole number, the exact value grows by at most the rise times n
    ghost S: { Self → ℕ };

    // the radius: the whole value lies at most this far from the exact value
    ghost R: { Self → ℕ };

    /// The whole value at x, where x is first held to the coordinates.
    fn value(&self, x: i32) -> i32
        ensures { result ≡ V self.now (hold lowest highest x) };

    /// The rise: over any width of at most n, for whole n, the exact value grows by at most the rise times n.
    fn rise(&self) -> u16
        ensures { result ≡ S self.now };

    /// The radius: the whole value lies at most this far from the exact value.
    fn radius(&self) -> u16
        ensures { result ≡ R self.now };

    // what every maker of a curve has shown
    ghost keeps: { (c : Self) → Rules (meaning (V c) (E c) (S c) (R c)) };
}

/// The bare curve: every reading is its own value.
#[derive(Clone, Copy, Debug)]
pub struct Bare;

impl Curve for Bare {
    ghost V = { λ _. bare.V };

    ghost E = { λ _. bare.E };

    ghost S = { λ _. bare.S };

    ghost R = { λ _. bare.R };

    ghost keeps = { λ s. bare_rules };

    fn value(&self, x: i32) -> i32 {
        held(x)
    }

    fn rise(&self) -> u16 {
        1
    }

    fn radius(&self) -> u16 {
        0
    }
}
