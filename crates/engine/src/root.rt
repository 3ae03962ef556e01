//! The root curve, for the flow through a nozzle.

ghost use Rattle.engine.specs.Root.{root_curve, RootTable};
ghost use Rattle.engine.specs.RootRules.{root_rules};

use self::entries::ROOTS;
use crate::curve::Curve;

mod entries;

// The table, with its rules at every entry.
fn roots() -> &'static [u16; 1024]
    ensures { RootTable result.now }
{
    &ROOTS
}

/// The root curve: at x from 0 to 1023 the greatest whole number whose square is at most 65536 x, flat beyond.
#[derive(Clone, Copy, Debug)]
pub struct Root;

impl Curve for Root {
    ghost V = { λ _. root_curve.V };

    ghost E = { λ _. root_curve.E };

    ghost S = { λ _. root_curve.S };

    ghost R = { λ _. root_curve.R };

    ghost keeps = { λ s. root_rules };

    fn value(&self, x: i32) -> i32 {
        i32::from(roots()[x.clamp(0, 1023) as usize])
    }

    fn rise(&self) -> u16 {
        256
    }

    fn radius(&self) -> u16 {
        0
    }
}
