//! One piece of a table, between two neighbouring knots.

ghost use Rattle.std.specs.Prelude.{◌≡◌, ◌+◌, ◌*◌, ◌/◌, ◌^◌, ◌<◌, ◌≤◌, pos, ◌+ℤ◌, ◌≤ℤ◌};
ghost use Rattle.engine.specs.Coordinates.{furthest};
ghost use Rattle.engine.specs.Fraction.{◌÷◌};
ghost use Rattle.engine.specs.Pieces.{widest};
ghost use Rattle.engine.specs.Neighbours.{Gentle, Neighbours, piece_height, piece_rise, piece_value, piece_width};
ghost use Rattle.engine.specs.Tables.{round_up};
ghost use Rattle.engine.specs.declared.kind.Kind.TheVariants.{Cubic};

use crate::kind::Kind;
use crate::knot::Knot;

/// Two neighbouring knots of a table, and what lies between them.
#[derive(Clone, Copy)]
pub(super) struct Piece {
    pub(super) from: Knot,
    pub(super) to: Knot,
    ghost neighbours: { Neighbours from to },
}

impl Piece {
    // The piece between two neighbouring knots.
    pub(super) fn new(from: Knot, to: Knot) -> Piece
        requires { Neighbours from to }
        ensures from { result.from ≡ from }
        ensures to { result.to ≡ to }
    {
        Piece { from, to }
    }

    // Its width.
    pub(super) fn width(self) -> u64
        ensures is { result ≡ piece_width self.from self.to }
        ensures some { 0 < result }
        ensures near { result ≤ widest }
    {
        u64::from(self.to.x.abs_diff(self.from.x))
    }

    // Its height.
    pub(super) fn height(self) -> u64
        ensures is { result ≡ piece_height self.from self.to }
        ensures low { result ≤ furthest }
    {
        u64::from(self.to.y.abs_diff(self.from.y))
    }

    // Its rise.
    pub(super) fn rise(self, kind: Kind) -> u64
        ensures { result ≡ piece_rise kind self.from self.to }
    {
        match kind {
            Kind::Step => self.height(),
            Kind::Line => self.height().div_ceil(self.width()),
            Kind::Cubic => (3 * self.height()).div_ceil(self.width()),
        }
    }
}

/// A piece with the stored slopes at its ends, each at most three secants.
#[derive(Clone, Copy)]
pub(super) struct SlopedPiece {
    piece: Piece,
    start_slope: u32,
    end_slope: u32,
    ghost gentle_start: { Gentle piece.from piece.to start_slope },
    ghost gentle_end: { Gentle piece.from piece.to end_slope },
}

impl SlopedPiece {
    // The piece with these slopes.
    pub(super) fn new(piece: Piece, start_slope: u32, end_slope: u32) -> SlopedPiece
        requires start { Gentle piece.from piece.to start_slope }
        requires end { Gentle piece.from piece.to end_slope }
        ensures piece { result.piece ≡ piece }
        ensures start { result.start_slope ≡ start_slope }
        ensures end { result.end_slope ≡ end_slope }
    {
        SlopedPiece {
            piece,
            start_slope,
            end_slope,
        }
    }

    // Its value at x, by its kind.
    pub(super) fn value(self, kind: Kind, x: i32) -> i32
        requires from { self.piece.from.x ≤ℤ x }
        requires to { x ≤ℤ self.piece.to.x }
        ensures { result ≡ piece_value kind self.piece.from self.piece.to (pos self.start_slope) (pos self.end_slope) x }
    {
        let from = self.piece.from;
        let u = u64::from(x.abs_diff(from.x));
        from.y + self.climb(kind, u) as i32
    }

    // What it adds to its first y at u from its start.
    fn climb(self, kind: Kind, u: u64) -> u64
        requires { u ≤ piece_width self.piece.from self.piece.to }
        ensures is { (self.piece.from.y +ℤ pos result) ≡ piece_value kind self.piece.from self.piece.to
            (pos self.start_slope) (pos self.end_slope) (self.piece.from.x +ℤ pos u) }
        ensures small { result ≤ piece_height self.piece.from self.piece.to }
    {
        match kind {
            Kind::Step => 0,
            Kind::Line => {
                let (h, d) = (self.piece.width(), self.piece.height());
                (2 * d * u + h) / (2 * h)
            }
            Kind::Cubic => self.cubic_climb(u),
        }
    }

    // What a cubic piece adds to its first y at u from its start.
    fn cubic_climb(self, u: u64) -> u64
        requires { u ≤ piece_width self.piece.from self.piece.to }
        ensures is { (self.piece.from.y +ℤ pos result) ≡ piece_value Cubic self.piece.from self.piece.to
            (pos self.start_slope) (pos self.end_slope) (self.piece.from.x +ℤ pos u) }
        ensures small { result ≤ piece_height self.piece.from self.piece.to }
    {
        let (h, d) = (self.piece.width(), self.piece.height());
        let (m, n) = (u64::from(self.start_slope), u64::from(self.end_slope));
        let v = h - u;
        let gain = 2048 * d * (u * u) * (u + 3 * v) + m * h * u * (v * v);
        let loss = n * h * (u * u) * v;
        rounded(gain - loss, h * h * h)
    }
}

// n / (2048 w), rounded to nearest.
fn rounded(n: u64, w: u64) -> u64
    requires some { 0 < w }
    requires low { n < 3 * 2 ^ 62 }
    requires narrow { w < 2 ^ 52 }
    ensures { result ≡ (n + 1024 * w) / (2048 * w) }
{
    (n + 1024 * w) / (2048 * w)
}
