//! The readings of a table.

ghost use Rattle.std.specs.Prelude.{◌≡◌, ◌≤◌, IfSome};
ghost use Rattle.engine.specs.Coordinates.{Coordinate};
ghost use Rattle.engine.specs.Refusals.{Outcome, told};

use super::span::Span;
use engine::band::Band;
use engine::coordinate::FURTHEST;
use engine::refusal::Refusal;

/// The readings of a lawful span, at least one: the first of a band and every step-th after it, up to the band's end.
#[derive(Clone, Copy, PartialEq, Eq, Debug)]
pub struct Readings {
    band: Band,
    step: u32,
    ghost some: { 1 ≤ step },
}

/// Refuses 1 and then 11 where `first` and `last` make no band, then 11 where `step` is not from 1 to 16383.
impl TryFrom<Span> for Readings {
    ghost use Rattle.tabulate.specs.Readings.{span_of, span_refusal};

    type Error = Refusal;

    ghost try_from_gives = { λ s. Outcome told (span_refusal s) (λ r. span_of r ≡ s) };

    fn try_from(s: Span) -> Result<Readings, Refusal> {
        let band = Band::new(s.first, s.last)?;
        if !(1..=FURTHEST).contains(&s.step) {
            return Err(Refusal::OutOfLimits);
        }
        Ok(Readings {
            band,
            step: s.step as u32,
        })
    }
}

impl Readings {
    ghost use Rattle.tabulate.specs.Readings.{reading_count, reading_of, span_of};

    /// How many readings there are.
    pub fn len(&self) -> u32
        ensures { result ≡ reading_count (span_of self.now) }
    {
        self.band.end().abs_diff(self.band.start()) / self.step + 1
    }

    /// Reading i, counted from 0.
    pub fn get(&self, i: u32) -> Option<i32>
        ensures is { result ≡ reading_of (span_of self.now) i }
        ensures inside { IfSome result Coordinate }
    {
        if i < self.len() {
            Some(self.band.start() + (i * self.step) as i32)
        } else {
            None
        }
    }
}
