ghost use Rattle.std.specs.Prelude.{◌≡◌};
ghost use Rattle.fapp_text.specs.declared.failure.LineFault.{LineFault};
ghost use Rattle.fapp_text.specs.declared.failure.Failure.TheVariants.{Bad};
ghost use Rattle.fapp_text.specs.Reading.{fault, failure_at};

use std::alloc::{AllocError, AllocFailed};
use std::error::Error;
use std::fmt;

/// What is wrong at a line of a text.
#[derive(Clone, Copy, Debug, PartialEq, Eq)]
pub struct LineFault<C> {
    /// The line, from 1.
    pub line: u32,
    pub cause: C,
}

/// Why nothing was read.
#[derive(Clone, Copy, Debug, PartialEq, Eq)]
pub enum Failure<F> {
    /// What was read has this fault.
    Bad(F),
    /// There was no memory.
    NoMemory,
}

/// A cause as the fault of a line.
pub fn fault_at<C>(line: u32, cause: C) -> Failure<LineFault<C>>
    ensures { result ≡ Bad (fault line cause) }
{
    Failure::Bad(LineFault { line, cause })
}

/// What failed while a line was read, as a failure at this line.
pub fn failure_at<C>(line: u32, failure: Failure<C>) -> Failure<LineFault<C>>
    ensures { result ≡ failure_at line failure }
{
    match failure {
        Failure::Bad(cause) => fault_at(line, cause),
        Failure::NoMemory => Failure::NoMemory,
    }
}

impl<F> From<AllocError> for Failure<F> {
    ghost use Rattle.std.specs.Prelude.{◌≡◌};
    ghost use Rattle.fapp_text.specs.declared.failure.Failure.TheVariants.{NoMemory};

    ghost from_gives = { λ _ failure. failure ≡ NoMemory };

    fn from(_: AllocError) -> Self {
        Failure::NoMemory
    }
}

impl<F, T: Drop> From<AllocFailed<T>> for Failure<F> {
    ghost use Rattle.std.specs.Prelude.{◌≡◌};
    ghost use Rattle.fapp_text.specs.declared.failure.Failure.TheVariants.{NoMemory};

    ghost from_gives = { λ _ failure. failure ≡ NoMemory };

    fn from(_: AllocFailed<T>) -> Self {
        Failure::NoMemory
    }
}

impl<C: fmt::Display> fmt::Display for LineFault<C> {
    ghost use Rattle.fapp_text.specs.FaultTexts.{fault_text};

    ghost output = { λ fault. fault_text fault.line (C.output fault.cause) };

    fn fmt<W: fmt::Write>(&self, f: &mut fmt::Formatter<W>) -> fmt::Result {
        write!(f, "line {}: {}", self.line, self.cause)
    }
}

impl<F: fmt::Display> fmt::Display for Failure<F> {
    ghost use Rattle.fapp_text.specs.FaultTexts.{failure_text};

    ghost output = { λ failure. failure_text F.output failure };

    fn fmt<W: fmt::Write>(&self, f: &mut fmt::Formatter<W>) -> fmt::Result {
        match self {
            Failure::Bad(fault) => write!(f, "{fault}"),
            Failure::NoMemory => write!(f, "no memory"),
        }
    }
}

impl<C: fmt::Debug + fmt::Display + Drop> Error for LineFault<C> {}

impl<F: fmt::Debug + fmt::Display + Drop> Error for Failure<F> {}
