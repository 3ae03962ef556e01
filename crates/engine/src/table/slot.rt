//! Where a reading falls among the knots of a list.

ghost use Rattle.std.specs.Prelude.{◌≡◌, ◌≤◌, length, int_le};
ghost use Rattle.engine.specs.Slots.{Reached, Slotted, knot_from};
ghost use Rattle.engine.specs.Edits.{before as before_knot};
ghost use Rattle.engine.specs.Lists.{listed};

use super::list::KnotList;
use crate::knot::Knot;
use std::ops::Range;

// The knot is at or below x.
fn is_reached(k: Knot, x: i32) -> bool
    ensures { result ≡ int_le k.x x }
{
    k.x <= x
}

impl KnotList {
    // How many knots are at or below x.
    pub(super) fn count_reached(&self, x: i32) -> usize
        ensures { Reached (listed self.now) x result }
    {
        let ks = self.as_slice();
        let mut low = 0;
        let mut high = ks.len();
        while low < high {
            let middle = low + (high - low) / 2;
            if is_reached(ks[middle], x) {
                low = middle + 1;
            } else {
                high = middle;
            }
        }
        low
    }

    // The slot of x: the knot that stands at x, or the empty slot between those left of x and those right of it.
    pub(super) fn slot_of(&self, x: i32) -> Range<usize>
        ensures { Slotted (listed self.now) x result.start result.end }
    {
        let end = self.count_reached(x);
        match self.before(end) {
            Some(k) if k.x == x => end - 1..end,
            _ => end..end,
        }
    }

    // The knot before knot i, if there is one.
    pub(super) fn before(&self, i: usize) -> Option<Knot>
        requires { i ≤ length (listed self.now) }
        ensures { result ≡ before_knot (listed self.now) i }
    {
        self.as_slice()[..i].last().copied()
    }

    // Knot i, if there is one.
    pub(super) fn get(&self, i: usize) -> Option<Knot>
        ensures { result ≡ knot_from (listed self.now) i }
    {
        self.as_slice().get(i).copied()
    }
}
