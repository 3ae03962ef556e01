//! The slot of a list that an edit takes, or why the edit is refused.

ghost use Rattle.std.specs.Prelude.{◌≡◌, ◌+◌, ◌-◌, ◌≤◌, length};
ghost use Rattle.engine.specs.Refusals.{Outcome, told};
ghost use Rattle.engine.specs.Slots.{Slotted, knot_from, linked};
ghost use Rattle.engine.specs.Edits.{before as before_knot, drop_refusal, put_refusal};
ghost use Rattle.engine.specs.Knots.{near};
ghost use Rattle.engine.specs.Lists.{listed};

use super::faults::{fits_between, is_fit, is_near, is_upward};
use super::list::KnotList;
use super::{FEWEST, MOST};
use crate::knot::Knot;
use crate::refusal::Refusal;
use std::ops::Range;

impl KnotList {
    // The slot for a knot k that may be put.
    pub(super) fn slot_to_put(&self, k: Knot) -> Result<Range<usize>, Refusal>
        ensures { Outcome told (put_refusal k.x k.y (listed self.now))
            (λ s. Slotted (listed self.now) k.x s.start s.end) result }
    {
        if !is_fit(k) {
            return Err(Refusal::NotCoordinate);
        }
        let slot = self.slot_of(k.x);
        if self.len_without(&slot) + 1 > MOST {
            return Err(Refusal::KnotCount);
        }
        let before = self.before(slot.start);
        let after = self.get(slot.end);
        if !fits_between(is_near, before, k, after) {
            return Err(Refusal::TooFarApart);
        }
        if !fits_between(is_upward, before, k, after) {
            return Err(Refusal::OutOfOrder);
        }
        Ok(slot)
    }

    // The slot of a knot at x that may be dropped.
    pub(super) fn slot_to_drop(&self, x: i32) -> Result<Range<usize>, Refusal>
        ensures { Outcome told (drop_refusal x (listed self.now))
            (λ s. Slotted (listed self.now) x s.start s.end) result }
    {
        let slot = self.slot_of(x);
        if slot.is_empty() {
            return Err(Refusal::NoKnot);
        }
        if self.len_without(&slot) < FEWEST {
            return Err(Refusal::KnotCount);
        }
        if !self.closes(&slot) {
            return Err(Refusal::TooFarApart);
        }
        Ok(slot)
    }

    // The knots on either side of a slot are near enough to be neighbours, where there are two.
    fn closes(&self, slot: &Range<usize>) -> bool
        requires { slot.now.start ≤ length (listed self.now) }
        ensures { result ≡ linked near (before_knot (listed self.now) slot.now.start)
            (knot_from (listed self.now) slot.now.end) }
    {
        let both = self.before(slot.start).zip(self.get(slot.end));
        both.is_none_or(|(a, b)| is_near(a, b))
    }

    // How many knots are outside a slot.
    fn len_without(&self, slot: &Range<usize>) -> usize
        requires order { slot.now.start ≤ slot.now.end }
        requires inside { slot.now.end ≤ length (listed self.now) }
        ensures { result ≡ slot.now.start + (length (listed self.now) - slot.now.end) }
    {
        slot.start + (self.len() - slot.end)
    }
}
