//! What is wrong with a text that is no answer's.

ghost use Rattle.std.specs.Prelude.{◌≡◌};

use fapp_text::{Failure, LineFault};
use std::error::Error;
use std::fmt;

/// What is wrong at a line of a text that is no answer's. Each cause has its number.
#[derive(Clone, Copy, Debug, PartialEq, Eq, Drop)]
pub enum CertCause {
    /// The line ends before the fields that its kind and its counts demand, or has more.
    FieldCount = 1,
    /// A field that must be a number is none, a polarization is not `1` or `-1`, a level is too
    /// high, or a version is not `2`.
    BadNumber = 2,
    /// A field that must be one of a few words is another.
    BadKind = 3,
    /// Three numbers are no tag of the instance, or none that may stand at their place.
    BadTag = 4,
    /// Something stands out of its order, or twice.
    BadOrder = 5,
    /// The text ends before an `END` line that is ended by a line feed.
    NoEnd = 6,
    /// Bytes follow the `END` line.
    AfterEnd = 7,
    /// A number or a position names no path.
    UnknownPath = 8,
    /// A choice index is not below the number of its path's choices.
    UnknownChoice = 9,
}

impl CertCause {
    ghost use Rattle.cert_lines.specs.Causes.{cause_number, cause_name};

    /// Its number, from 1 for `FieldCount` to 9 for `UnknownChoice`.
    pub fn number(self) -> u8
        ensures { result ≡ cause_number self }
    {
        self as u8
    }

    /// Its name, as it is printed.
    pub fn name(self) -> &'static str
        ensures { result.now ≡ cause_name self }
    {
        match self {
            CertCause::FieldCount => "FieldCount",
            CertCause::BadNumber => "BadNumber",
            CertCause::BadKind => "BadKind",
            CertCause::BadTag => "BadTag",
            CertCause::BadOrder => "BadOrder",
            CertCause::NoEnd => "NoEnd",
            CertCause::AfterEnd => "AfterEnd",
            CertCause::UnknownPath => "UnknownPath",
            CertCause::UnknownChoice => "UnknownChoice",
        }
    }
}

impl fmt::Display for CertCause {
    fn fmt<W: fmt::Write>(&self, f: &mut fmt::Formatter<W>) -> fmt::Result {
        write!(f, "{}", self.name())
    }
}

impl Error for CertCause {}

/// The first fault of a text that is no answer's: the line, from 1, and what is wrong there.
pub type BadCert = LineFault<CertCause>;

/// Why no answer was read: the text has a fault, or there was no memory.
pub type AnswerError = Failure<BadCert>;

/// Why a line was not read.
pub(crate) type LineError = Failure<CertCause>;
