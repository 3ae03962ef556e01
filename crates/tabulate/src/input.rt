//! The settings in the text of the input.

ghost use Rattle.std.specs.Prelude.{Some, codes};

use crate::nozzle::Settings;
use crate::span::Span;
use std::error::Error;
use std::fmt;
use std::str::{FromStr, SplitWhitespace};

/// The text is not seven whole numbers of 32 bits.
#[derive(Clone, Copy, PartialEq, Eq, Debug)]
pub struct InputError;

impl fmt::Display for InputError {
    ghost output = { λ _. Some (codes
        "expected seven whole numbers of 32 bits: ZERO TRIM LOW HIGH FIRST LAST STEP") };

    fn fmt<W: fmt::Write>(&self, f: &mut fmt::Formatter<W>) -> fmt::Result {
        f.write_str("expected seven whole numbers of 32 bits: ZERO TRIM LOW HIGH FIRST LAST STEP")
    }
}

impl Error for InputError {}

/// Seven whole numbers with white space between them.
impl FromStr for Settings {
    type Err = InputError;

    fn from_str(text: &str) -> Result<Settings, InputError> {
        let mut words = text.split_whitespace();
        let settings = Settings {
            zero: next_number(&mut words)?,
            trim: next_number(&mut words)?,
            low: next_number(&mut words)?,
            high: next_number(&mut words)?,
            span: Span {
                first: next_number(&mut words)?,
                last: next_number(&mut words)?,
                step: next_number(&mut words)?,
            },
        };
        if words.next().is_some() {
            return Err(InputError);
        }
        Ok(settings)
    }
}

fn next_number(words: &mut SplitWhitespace<'_>) -> Result<i32, InputError> {
    let word = words.next().ok_or(InputError)?;
    word.parse().map_err(|_| InputError)
}
