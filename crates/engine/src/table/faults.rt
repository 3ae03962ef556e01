//! What is wrong with knots.

ghost use Rattle.std.specs.Prelude.{◌≡◌, ℕ, Bool, None as Nothing};
ghost use Rattle.engine.specs.Refusals.{Outcome, at_index, load_told, told};
ghost use Rattle.engine.specs.Slots.{fitted};
ghost use Rattle.engine.specs.Edits.{first_fault, knot_fault};
ghost use Rattle.engine.specs.Knots.{fits, near, rightward, upward};

use crate::coordinate::is_coordinate;
use crate::knot::Knot;
use crate::refusal::{LoadRefusal, Refusal};

// Neighbouring knots are at most this far apart.
const WIDEST: i64 = 4096;

// Both parts are coordinates.
pub(super) fn is_fit(k: Knot) -> bool
    ensures { result ≡ fits k }
{
    is_coordinate(k.x) && is_coordinate(k.y)
}

// b is right of a.
fn is_rightward(a: Knot, b: Knot) -> bool
    ensures { result ≡ rightward a b }
{
    a.x < b.x
}

// b is at most 4096 right of a.
pub(super) fn is_near(a: Knot, b: Knot) -> bool
    ensures { result ≡ near a b }
{
    i64::from(b.x) <= i64::from(a.x) + WIDEST
}

// b is not below a.
pub(super) fn is_upward(a: Knot, b: Knot) -> bool
    ensures { result ≡ upward a b }
{
    a.y <= b.y
}

// The test of a knot and its neighbours, where it has them.
pub(super) fn fits_between<F: Fn(Knot, Knot) -> bool>(
    test: F,
    before: Option<Knot>,
    k: Knot,
    after: Option<Knot>,
) -> bool
    requires { F.IsAlwaysCallable test }
    ensures { (p : Knot → Knot → Bool) → ((a b : Knot) (r : Bool) → F.post test a b r → r ≡ p a b)
        → result ≡ fitted p before k after }
{
    before.is_none_or(|b| test(b, k)) && after.is_none_or(|a| test(k, a))
}

// The knot k, where `before` is the knot before it: the first check that fails refuses it.
fn check_knot(before: Option<Knot>, k: Knot) -> Result<(), Refusal>
    ensures { (i : ℕ) → Outcome (λ r. at_index i (told r).number) (knot_fault i before k) (λ _. Unit {0}) result }
{
    if !is_fit(k) {
        return Err(Refusal::NotCoordinate);
    }
    let Some(before) = before else {
        return Ok(());
    };
    if !is_rightward(before, k) {
        return Err(Refusal::NotRightward);
    }
    if !is_near(before, k) {
        return Err(Refusal::TooFarApart);
    }
    if !is_upward(before, k) {
        return Err(Refusal::OutOfOrder);
    }
    Ok(())
}

// Every knot from the first on; the first at fault refuses the list.
pub(super) fn check_knots(ks: &[Knot]) -> Result<(), LoadRefusal>
    ensures { Outcome load_told (first_fault 0 Nothing ks.now) (λ _. Unit {0}) result }
{
    let mut before = None;
    for (index, k) in ks.iter().enumerate() {
        check_knot(before, *k).map_err(|cause| LoadRefusal::AtKnot { index, cause })?;
        before = Some(*k);
    }
    Ok(())
}
