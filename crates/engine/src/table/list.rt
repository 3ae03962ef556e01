//! The list of the knots of a table.

ghost use Rattle.std.specs.Prelude.{◌≡◌, ◌+◌, ◌<◌, ◌≤◌, true, length, take};
ghost use Rattle.std.specs.List.{splice};
ghost use Rattle.engine.specs.Knots.{fewest, knot_at, lawful, most};

use super::MOST;
use super::piece::Piece;
use crate::knot::Knot;
use std::ops::Range;

// What stands in the places that a list does not use.
const EMPTY: Knot = Knot { x: 0, y: 0 };

/// 2 to 96 knots of coordinates, each x above the one before by at most 4096, no y below the one before.
#[derive(Clone, Copy)]
pub(super) struct KnotList {
    knots: [Knot; MOST],
    count: usize,
    ghost room: { length knots ≡ most },
    ghost some: { fewest ≤ count },
    ghost few: { count ≤ most },
    ghost ok: { lawful (take count knots) ≡ true },
}

impl KnotList {
    ghost use Rattle.engine.specs.Lists.{listed};

    // The list of the knots ks.
    pub(super) fn new(ks: &[Knot]) -> KnotList
        requires some { fewest ≤ length ks.now }
        requires few { length ks.now ≤ most }
        requires ok { lawful ks.now ≡ true }
        ensures { listed result ≡ ks.now }
    {
        let mut knots = [EMPTY; MOST];
        knots[..ks.len()].copy_from_slice(ks);
        KnotList {
            knots,
            count: ks.len(),
        }
    }

    // Its knots, in order of x.
    pub(super) fn as_slice(&self) -> &[Knot]
        ensures { result.now ≡ listed self.now }
    {
        &self.knots[..self.count]
    }

    // How many knots it has.
    pub(super) fn len(&self) -> usize
        ensures { result ≡ length (listed self.now) }
    {
        self.count
    }

    // The piece from knot i to the next.
    pub(super) fn piece(&self, i: usize) -> Piece
        requires { i + 1 < length (listed self.now) }
        ensures from { result.from ≡ knot_at (listed self.now) i }
        ensures to { result.to ≡ knot_at (listed self.now) (i + 1) }
    {
        let ks = self.as_slice();
        Piece::new(ks[i], ks[i + 1])
    }

    // The list with others in the place of the knots in a slot.
    pub(super) fn spliced(&self, slot: Range<usize>, others: &[Knot]) -> KnotList
        requires order { slot.start ≤ slot.end }
        requires inside { slot.end ≤ length (listed self.now) }
        requires some { fewest ≤ length (splice (listed self.now) slot.start slot.end others.now) }
        requires few { length (splice (listed self.now) slot.start slot.end others.now) ≤ most }
        requires ok { lawful (splice (listed self.now) slot.start slot.end others.now) ≡ true }
        ensures { listed result ≡ splice (listed self.now) slot.start slot.end others.now }
    {
        let mut knots = self.knots;
        let end = slot.start + others.len();
        knots.copy_within(slot.end..self.count, end);
        knots[slot.start..end].copy_from_slice(others);
        KnotList {
            knots,
            count: end + (self.count - slot.end),
        }
    }
}
