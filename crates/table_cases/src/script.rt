//! The calls in the text of a script.

use crate::error::CallError;
use engine::knot::Knot;
use std::alloc::Global;
use std::num::NonZeroU32;
use std::str::SplitWhitespace;

/// A call on a knot table, as a line of the script writes it.
#[derive(Drop)]
pub(crate) enum Call {
    /// `new`: a new table in place of the one at hand.
    New,
    /// `load N x y x y ..`: the N knots that follow.
    Load(Vec<Knot>),
    /// `put x y`: this knot.
    Put(Knot),
    /// `drop x`: the knot at this x.
    Drop(i32),
    /// `kind k`: the kind with this number.
    Kind(i32),
    /// `knots`: the knots of the table.
    Knots,
    /// `tell`: the rise and the radius.
    Tell,
    /// `values FIRST LAST STEP`: the values at these readings.
    Values(Readings),
}

/// The readings `first`, `first + step`, `first + 2 step` .. up to `last`; none where `first` is above `last`.
#[derive(Clone, Copy)]
pub(crate) struct Readings {
    pub(crate) first: i32,
    pub(crate) last: i32,
    pub(crate) step: NonZeroU32,
}

/// The call that a line has, and nothing after it.
pub(crate) fn read_call(heap: Global, line: &str) -> Result<Call, CallError> {
    let mut words = line.split_whitespace();
    let call = next_call(heap, &mut words)?;
    if words.next().is_some() {
        return Err(CallError::NoCall);
    }
    Ok(call)
}

fn next_call(heap: Global, words: &mut SplitWhitespace<'_>) -> Result<Call, CallError> {
    match words.next().ok_or(CallError::NoCall)? {
        "new" => Ok(Call::New),
        "load" => next_knots(heap, words).map(Call::Load),
        "put" => next_knot(words).map(Call::Put),
        "drop" => next_number(words).map(Call::Drop),
        "kind" => next_number(words).map(Call::Kind),
        "knots" => Ok(Call::Knots),
        "tell" => Ok(Call::Tell),
        "values" => next_readings(words).map(Call::Values),
        _ => Err(CallError::NoCall),
    }
}

// How many knots, and then as many.
fn next_knots(heap: Global, words: &mut SplitWhitespace<'_>) -> Result<Vec<Knot>, CallError> {
    let count = next_count(words)?;
    (0..count).map(|_| next_knot(words)).try_collect(heap)
}

fn next_knot(words: &mut SplitWhitespace<'_>) -> Result<Knot, CallError> {
    Ok(Knot {
        x: next_number(words)?,
        y: next_number(words)?,
    })
}

fn next_readings(words: &mut SplitWhitespace<'_>) -> Result<Readings, CallError> {
    Ok(Readings {
        first: next_number(words)?,
        last: next_number(words)?,
        step: NonZeroU32::new(next_count(words)?).ok_or(CallError::NoCall)?,
    })
}

// A number that is not below 0.
fn next_count(words: &mut SplitWhitespace<'_>) -> Result<u32, CallError> {
    next_number(words)?
        .try_into()
        .map_err(|_| CallError::NoCall)
}

fn next_number(words: &mut SplitWhitespace<'_>) -> Result<i32, CallError> {
    let word = words.next().ok_or(CallError::NoCall)?;
    word.parse().map_err(|_| CallError::NoCall)
}
