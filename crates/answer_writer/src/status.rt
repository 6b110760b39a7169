ghost use Rattle.std.specs.Prelude.{◌≡◌};
ghost use Rattle.answer_writer.specs.Statuses.{exit_code_of};

use crate::{BadCert, BadInput, Rejected};

/// How a run ended.
#[derive(Clone, Copy, Debug, PartialEq, Eq)]
pub enum Status {
    /// The least plan was written.
    Best,
    /// No plan meets the imperative records.
    NoneFeasible,
    /// The fuel was spent before the least plan was found or shown to be none.
    Open,
    /// The answer is accepted: what it claims is so.
    Accepted,
    /// A network was made and written. Nothing was read.
    Written,
    /// The answer is not accepted: its first fault.
    Rejected(Rejected),
    /// The words are none of those that the program takes. Nothing was read.
    Usage,
    /// The input's instance is none: the first refused line, and why.
    BadInput(BadInput),
    /// The input's answer is no text of one: its first fault, whose line counts over the whole
    /// input.
    BadAnswer(BadCert),
    /// The input has more bytes than the limit.
    TooLong,
    /// The input is an instance, and no line `--` stands in it.
    NoAnswer,
    /// The source failed.
    ReadFault,
    /// The sink failed. A front of what was to be written was taken.
    WriteFault,
    /// There was no memory. Nothing was written.
    NoMemory,
}

impl Status {
    /// The program's exit status.
    pub fn code(&self) -> u8
        ensures { result ≡ exit_code_of self.now }
    {
        match self {
            Status::Best | Status::Accepted | Status::Written => 0,
            Status::NoneFeasible => 1,
            Status::Open => 2,
            Status::Rejected(_) => 3,
            Status::Usage => 64,
            Status::BadInput(_) | Status::BadAnswer(_) | Status::TooLong | Status::NoAnswer => 65,
            Status::ReadFault => 66,
            Status::WriteFault => 67,
            Status::NoMemory => 68,
        }
    }
}
