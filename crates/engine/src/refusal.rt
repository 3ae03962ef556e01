//! Why a call is turned away.

ghost use Rattle.std.specs.Prelude.{◌≡◌, Some};
ghost use Rattle.engine.specs.Refusals.{told, load_told, refusal_text, load_refusal_text};
ghost use Rattle.engine.specs.declared.refusal.LoadRefusal.TheVariants.{Whole};

use std::error::Error;
use std::fmt;

/// The reason of a refusal. Its discriminant is the number that users know it by.
#[derive(Clone, Copy, PartialEq, Eq, Debug)]
pub enum Refusal {
    /// A number that has to be a coordinate is none.
    NotCoordinate = 1,
    /// A table would have fewer than 2 or more than 96 knots.
    KnotCount = 2,
    /// A knot's x is not above the x before.
    NotRightward = 3,
    /// A knot's y is below the y before, or above the y after.
    OutOfOrder = 4,
    /// Neighbouring knots are more than 4096 apart.
    TooFarApart = 5,
    /// No knot stands at x.
    NoKnot = 6,
    /// No kind of table has this number.
    UnknownKind = 7,
    /// An argument is outside its limits, or a band is reversed.
    OutOfLimits = 11,
}

/// Not a coordinate.
pub const NOT_COORDINATE: u8 = Refusal::NotCoordinate as u8;
/// Knots not 2 to 96.
pub const KNOT_COUNT: u8 = Refusal::KnotCount as u8;
/// A knot's x not above the x before.
pub const NOT_RIGHTWARD: u8 = Refusal::NotRightward as u8;
/// A knot's y out of order with a neighbour.
pub const OUT_OF_ORDER: u8 = Refusal::OutOfOrder as u8;
/// Knots more than 4096 apart.
pub const TOO_FAR_APART: u8 = Refusal::TooFarApart as u8;
/// No knot at x.
pub const NO_KNOT: u8 = Refusal::NoKnot as u8;
/// Unknown kind of table.
pub const UNKNOWN_KIND: u8 = Refusal::UnknownKind as u8;
/// An argument outside its limits, or a band reversed.
pub const OUT_OF_LIMITS: u8 = Refusal::OutOfLimits as u8;

impl Refusal {
    /// The number that users know the refusal by.
    pub fn number(self) -> u8
        ensures { result ≡ (told self).number }
    {
        self as u8
    }
}

impl fmt::Display for Refusal {
    ghost output = { λ r. Some (refusal_text r) };

    fn fmt<W: fmt::Write>(&self, f: &mut fmt::Formatter<W>) -> fmt::Result {
        let number = self.number();
        write!(f, "refused {number}")
    }
}

impl Error for Refusal {}

/// Why a list of knots is turned away.
#[derive(Clone, Copy, PartialEq, Eq, Debug)]
pub enum LoadRefusal {
    /// The list as a whole is refused.
    Whole(Refusal),
    /// The first knot at fault, by its index from 0.
    AtKnot { index: usize, cause: Refusal },
}

impl LoadRefusal {
    /// The number that users know the refusal by.
    pub fn number(self) -> u8
        ensures { result ≡ (load_told self).number }
    {
        match self {
            LoadRefusal::Whole(cause) | LoadRefusal::AtKnot { cause, .. } => cause.number(),
        }
    }
}

impl From<Refusal> for LoadRefusal {
    ghost from_gives = { λ cause r. r ≡ Whole cause };

    fn from(cause: Refusal) -> Self {
        Self::Whole(cause)
    }
}

impl fmt::Display for LoadRefusal {
    ghost output = { λ r. Some (load_refusal_text r) };

    fn fmt<W: fmt::Write>(&self, f: &mut fmt::Formatter<W>) -> fmt::Result {
        match *self {
            LoadRefusal::Whole(cause) => write!(f, "{cause}"),
            LoadRefusal::AtKnot { index, cause } => write!(f, "{cause} index {index}"),
        }
    }
}

impl Error for LoadRefusal {}
