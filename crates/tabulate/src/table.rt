//! Tables of a curve.

ghost use Rattle.std.specs.Prelude.{◌≡◌};
ghost use Rattle.engine.specs.Means.{means};
ghost use Rattle.tabulate.specs.Tables.{TableLaw, count_of, row_of};

use super::readings::Readings;
use engine::curve::Curve;

/// A reading and the curve's value there.
#[derive(Clone, Copy, PartialEq, Eq, Debug)]
pub struct Row {
    pub reading: i32,
    pub value: i32,
}

/// The rise and the radius of a curve.
#[derive(Clone, Copy, PartialEq, Eq, Debug)]
pub struct Bounds {
    pub rise: u16,
    pub radius: u16,
}

/// A table of a curve: a row for each of its readings. The table holds no rows; each is worked out when it is asked for.
#[derive(Drop)]
pub struct Table<C> {
    curve: C,
    readings: Readings,
}

impl<C: Curve + Drop> Table<C> {
    /// The table of a curve at these readings.
    pub(crate) fn new(curve: C, readings: Readings) -> Table<C>
        ensures curve { result.curve ≡ curve }
        ensures readings { result.readings ≡ readings }
        ensures law { TableLaw (means C.Curve result.curve) result }
    {
        Table { curve, readings }
    }

    /// How many rows there are.
    pub fn len(&self) -> u32
        ensures { result ≡ count_of self.now }
    {
        self.readings.len()
    }

    /// Row i, counted from 0.
    pub fn row(&self, i: u32) -> Option<Row>
        ensures { result ≡ row_of (means C.Curve self.now.curve) self.now i }
    {
        let reading = self.readings.get(i)?;
        Some(Row {
            reading,
            value: self.curve.value(reading),
        })
    }

    /// The rise and the radius of the curve.
    pub fn bounds(&self) -> Bounds
        ensures rise { result.rise ≡ C.Curve.S self.now.curve }
        ensures radius { result.radius ≡ C.Curve.R self.now.curve }
    {
        Bounds {
            rise: self.curve.rise(),
            radius: self.curve.radius(),
        }
    }
}
