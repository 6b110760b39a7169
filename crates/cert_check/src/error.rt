//! Why `check` accepts no answer.

use cert_lines::Rejected;
use std::alloc::AllocError;
use std::error::Error;
use std::fmt;

/// Why an answer was not accepted.
#[derive(Clone, Copy, Debug, PartialEq, Eq)]
pub enum CheckError {
    /// It has this fault, which is its first one.
    Rejected(Rejected),
    /// There was no memory.
    NoMemory,
}

impl From<AllocError> for CheckError {
    ghost use Rattle.std.specs.Prelude.{◌≡◌};
    ghost use Rattle.cert_check.specs.declared.error.CheckError.TheVariants.{NoMemory};

    ghost from_gives = { λ _ error. error ≡ NoMemory };

    fn from(_: AllocError) -> Self {
        CheckError::NoMemory
    }
}

impl fmt::Display for CheckError {
    fn fmt<W: fmt::Write>(&self, f: &mut fmt::Formatter<W>) -> fmt::Result {
        match self {
            CheckError::Rejected(fault) => write!(f, "{fault}"),
            CheckError::NoMemory => write!(f, "no memory"),
        }
    }
}

impl Error for CheckError {}
