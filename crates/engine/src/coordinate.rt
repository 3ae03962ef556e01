//! Coordinates: the whole numbers from -8192 to 8191.

ghost use Rattle.std.specs.Prelude.{◌≡◌};
ghost use Rattle.engine.specs.Coordinates.{coordinate, hold, lowest, highest};

/// The least coordinate.
pub const LOWEST: i32 = -8192;
/// The greatest coordinate.
pub const HIGHEST: i32 = 8191;

/// The greatest distance of two coordinates.
pub const FURTHEST: i32 = 16383;

/// Whether x is a coordinate.
pub fn is_coordinate(x: i32) -> bool
    ensures { result ≡ coordinate x }
{
    (LOWEST..=HIGHEST).contains(&x)
}

// x held to the coordinates.
pub(crate) fn held(x: i32) -> i32
    ensures { result ≡ hold lowest highest x }
{
    x.clamp(LOWEST, HIGHEST)
}
