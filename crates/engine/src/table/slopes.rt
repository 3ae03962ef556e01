//! The stored slopes of a list of knots.

ghost use Rattle.std.specs.Prelude.{◌≡◌, ◌*◌, ◌/◌, ◌^◌, ◌<◌, length, pos};
ghost use Rattle.engine.specs.Fraction.{◌÷◌};
ghost use Rattle.engine.specs.Lists.{listed};
ghost use Rattle.engine.specs.Neighbours.{piece_height, piece_width};
ghost use Rattle.engine.specs.Tables.{Slopes, inner_slope as slope_between, stored, stored_at};
ghost use Rattle.engine.specs.Tables.{mean_bottom as bottom_between, mean_top as top_between};

use super::MOST;
use super::list::KnotList;
use super::piece::Piece;

// A slope is stored as the greatest whole number not above this many times the slope.
const SCALE: u64 = 2048;

// a / b, scaled and rounded down.
fn scaled(a: u64, b: u64) -> u64
    requires some { 0 < b }
    requires fits { a < 2 ^ 53 }
    ensures { result ≡ 2048 * a / b }
{
    SCALE * a / b
}

// The stored slope at an end knot of the end piece.
fn end_slope(p: Piece) -> u32
    ensures { pos result ≡ stored (pos (piece_height p.from p.to) ÷ piece_width p.from p.to) }
{
    scaled(p.height(), p.width()) as u32
}

// The stored slope at the knot between two pieces: 0 where either is flat.
fn inner_slope(before: Piece, after: Piece) -> u32
    ensures { pos result ≡ stored (slope_between (piece_width before.from before.to) (piece_height before.from before.to)
        (piece_width after.from after.to) (piece_height after.from after.to)) }
{
    if before.height() == 0 || after.height() == 0 {
        return 0;
    }
    scaled(mean_top(before, after), mean_bottom(before, after)) as u32
}

// The numerator of the mean of two secants.
fn mean_top(before: Piece, after: Piece) -> u64
    ensures { result ≡ top_between (piece_width before.from before.to) (piece_height before.from before.to)
        (piece_width after.from after.to) (piece_height after.from after.to) }
{
    3 * (before.width() + after.width()) * before.height() * after.height()
}

// Its denominator.
fn mean_bottom(before: Piece, after: Piece) -> u64
    ensures { result ≡ bottom_between (piece_width before.from before.to) (piece_height before.from before.to)
        (piece_width after.from after.to) (piece_height after.from after.to) }
{
    let (ha, da) = (before.width(), before.height());
    let (hb, db) = (after.width(), after.height());
    (2 * hb + ha) * ha * db + (hb + 2 * ha) * hb * da
}

impl KnotList {
    // The stored slopes at its knots.
    pub(super) fn slopes(&self) -> [u32; MOST]
        ensures { Slopes (listed self.now) result }
    {
        let mut slopes = [0; MOST];
        for (i, slope) in slopes[..self.len()].iter_mut().enumerate() {
            *slope = self.slope_at(i);
        }
        slopes
    }

    // The stored slope at knot i.
    fn slope_at(&self, i: usize) -> u32
        requires { i < length (listed self.now) }
        ensures { pos result ≡ stored_at (listed self.now) i }
    {
        if i == 0 {
            return end_slope(self.piece(0));
        }
        if i + 1 == self.len() {
            return end_slope(self.piece(i - 1));
        }
        inner_slope(self.piece(i - 1), self.piece(i))
    }
}
