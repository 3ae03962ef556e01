//! Bands of coordinates.

ghost use Rattle.std.specs.Prelude.{◌≡◌, ◌≤ℤ◌};
ghost use Rattle.engine.specs.Coordinates.{hold, lowest, highest};
ghost use Rattle.engine.specs.Refusals.{Outcome, told};

use crate::coordinate::{HIGHEST, LOWEST, is_coordinate};
use crate::refusal::Refusal;

/// A band: two coordinates in order. Its readings are those from the first to the second.
#[derive(Clone, Copy, PartialEq, Eq, Debug)]
pub struct Band {
    lo: i32,
    hi: i32,
    ghost low: { lowest ≤ℤ lo },
    ghost order: { lo ≤ℤ hi },
    ghost high: { hi ≤ℤ highest },
}

impl Band {
    ghost use Rattle.engine.specs.Bands.{band_refusal, IsBand, in_band};

    /// The band from a to b. Refuses 1 where either is no coordinate, then 11 where b is below a.
    pub fn new(a: i32, b: i32) -> Result<Band, Refusal>
        ensures { Outcome told (band_refusal a b) (IsBand a b) result }
    {
        if !is_coordinate(a) || !is_coordinate(b) {
            return Err(Refusal::NotCoordinate);
        }
        if b < a {
            return Err(Refusal::OutOfLimits);
        }
        Ok(Band { lo: a, hi: b })
    }

    /// The band of all coordinates.
    pub fn all() -> Band
        ensures { IsBand lowest highest result }
    {
        Band {
            lo: LOWEST,
            hi: HIGHEST,
        }
    }

    /// The first reading of the band.
    pub fn start(&self) -> i32
        ensures { result ≡ self.now.lo }
    {
        self.lo
    }

    /// The last reading of the band.
    pub fn end(&self) -> i32
        ensures { result ≡ self.now.hi }
    {
        self.hi
    }

    /// Whether the reading x lies in the band.
    pub fn contains(&self, x: i32) -> bool
        ensures { result ≡ in_band self.now.lo self.now.hi x }
    {
        (self.lo..=self.hi).contains(&x)
    }

    /// x held to the band: its first reading below it, its last above it, otherwise x.
    pub fn hold(&self, x: i32) -> i32
        ensures { result ≡ hold self.now.lo self.now.hi x }
    {
        x.clamp(self.lo, self.hi)
    }
}
