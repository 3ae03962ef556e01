//! A table as a curve.

ghost use Rattle.std.specs.Prelude.{◌≡◌, ◌+◌, ◌<◌, length, pos};
ghost use Rattle.engine.specs.Edits.{curve_of, knots_of};
ghost use Rattle.engine.specs.Knots.{knot_at};
ghost use Rattle.engine.specs.TableRules.{array_rules};
ghost use Rattle.engine.specs.Tables.{stored_at};

use super::KnotTable;
use super::piece::{Piece, SlopedPiece};
use crate::coordinate::{FURTHEST, held};
use crate::curve::Curve;
use crate::kind::Kind;

impl Curve for KnotTable {
    ghost V = { λ t. (curve_of t).V };

    ghost E = { λ t. (curve_of t).E };

    ghost S = { λ t. (curve_of t).S };

    ghost R = { λ t. (curve_of t).R };

    ghost keeps = { λ t. array_rules t.kind t.list.knots t.list.count t.list.room t.list.some t.list.few t.list.ok };

    fn value(&self, x: i32) -> i32 {
        self.value_at(held(x))
    }

    fn rise(&self) -> u16 {
        let ks = self.list.as_slice();
        let mut greatest = 0;
        for (from, to) in ks.iter().zip(&ks[1..]) {
            greatest = Piece::new(*from, *to).rise(self.kind).max(greatest);
        }
        greatest.min(FURTHEST as u64) as u16
    }

    fn radius(&self) -> u16 {
        match self.kind {
            Kind::Step => 0,
            Kind::Line | Kind::Cubic => 1,
        }
    }
}

impl KnotTable {
    // The value at x.
    fn value_at(&self, x: i32) -> i32
        ensures { result ≡ (curve_of self.now).V x }
    {
        let ks = self.list.as_slice();
        let n = self.list.count_reached(x);
        if n == 0 {
            return ks[0].y;
        }
        if n == ks.len() {
            return ks[n - 1].y;
        }
        self.piece(n - 1).value(self.kind, x)
    }

    // The piece from knot i to the next, with its stored slopes.
    fn piece(&self, i: usize) -> SlopedPiece
        requires { i + 1 < length (knots_of self.now) }
        ensures from { result.piece.from ≡ knot_at (knots_of self.now) i }
        ensures to { result.piece.to ≡ knot_at (knots_of self.now) (i + 1) }
        ensures start { pos result.start_slope ≡ stored_at (knots_of self.now) i }
        ensures end { pos result.end_slope ≡ stored_at (knots_of self.now) (i + 1) }
    {
        SlopedPiece::new(self.list.piece(i), self.slopes[i], self.slopes[i + 1])
    }
}
