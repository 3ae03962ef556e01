//! The layers: curves made over other curves, which they hold by value.

pub use self::chain::Chain;
pub use self::clamp::Clamp;
pub use self::offset::Offset;

mod chain;
mod clamp;
mod offset;
