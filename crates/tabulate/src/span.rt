//! What readings to tabulate.

/// The readings of a table, as an engineer types them: `first`, `first + step`, `first + 2 step` .. up to `last`.
#[derive(Clone, Copy, PartialEq, Eq, Debug)]
pub struct Span {
    /// The first reading.
    pub first: i32,
    /// No reading is above this.
    pub last: i32,
    /// From each reading to the next, 1 to 16383.
    pub step: i32,
}
