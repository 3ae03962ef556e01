//! The kinds of knot tables.

ghost use Rattle.engine.specs.Kinds.{NumberedKind};

use crate::refusal::Refusal;

/// How a table goes from knot to knot.
#[derive(Clone, Copy, PartialEq, Eq, Debug)]
pub enum Kind {
    /// Number 0: each knot's value holds up to the next knot.
    Step,
    /// Number 1: straight lines from knot to knot.
    Line,
    /// Number 2: monotone cubics from knot to knot.
    Cubic,
}

/// The kind with this number. Refuses 7 where there is none.
impl TryFrom<i32> for Kind {
    type Error = Refusal;

    ghost try_from_gives = { NumberedKind };

    fn try_from(k: i32) -> Result<Self, Refusal> {
        match k {
            0 => Ok(Kind::Step),
            1 => Ok(Kind::Line),
            2 => Ok(Kind::Cubic),
            _ => Err(Refusal::UnknownKind),
        }
    }
}
