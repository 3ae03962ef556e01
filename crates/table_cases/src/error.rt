//! Why a line of the script is not honoured.

ghost use Rattle.std.specs.Prelude.{◌≡◌};
ghost use Rattle.engine.specs.declared.refusal.LoadRefusal.TheVariants.{Whole};
ghost use Rattle.table_cases.specs.declared.error.CallError.TheVariants.{NoMemory, Refused};

use engine::refusal::{LoadRefusal, Refusal};
use std::alloc::AllocError;
use std::error::Error;
use std::fmt;

/// Why a line of the script is not honoured.
#[derive(Clone, Copy, PartialEq, Eq, Debug)]
pub(crate) enum CallError {
    /// The line is no call.
    NoCall,
    /// The table refuses the call.
    Refused(LoadRefusal),
    /// There is no memory for the call or for its answer.
    NoMemory(AllocError),
}

impl fmt::Display for CallError {
    fn fmt<W: fmt::Write>(&self, f: &mut fmt::Formatter<W>) -> fmt::Result {
        match self {
            CallError::NoCall => write!(f, "error"),
            CallError::Refused(refusal) => write!(f, "{refusal}"),
            CallError::NoMemory(error) => write!(f, "{error}"),
        }
    }
}

impl Error for CallError {}

impl From<LoadRefusal> for CallError {
    ghost from_gives = { λ refusal error. error ≡ Refused refusal };

    fn from(refusal: LoadRefusal) -> CallError {
        CallError::Refused(refusal)
    }
}

impl From<Refusal> for CallError {
    ghost from_gives = { λ refusal error. error ≡ Refused (Whole refusal) };

    fn from(refusal: Refusal) -> CallError {
        CallError::Refused(LoadRefusal::Whole(refusal))
    }
}

impl From<AllocError> for CallError {
    ghost from_gives = { λ full error. error ≡ NoMemory full };

    fn from(full: AllocError) -> CallError {
        CallError::NoMemory(full)
    }
}
