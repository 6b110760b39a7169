ghost use Rattle.std.specs.Prelude.{◌≡◌};

use fapp_text::{Failure, LineFault};
use std::error::Error;
use std::fmt;

/// What a line is refused for. `UnknownDomain`, `UnknownPath` and `TooManyChoices` need the whole
/// text, and stand only where no line has another cause. The others are found at the line, given
/// the lines before it.
#[derive(Clone, Copy, Debug, PartialEq, Eq)]
pub enum Cause {
    /// The first field names no record.
    UnknownRecord = 1,
    /// The line has more or fewer fields than its record.
    FieldCount = 2,
    /// A field that must be a number is none.
    BadNumber = 3,
    /// A field of a constraint is none of its two words.
    BadWord = 4,
    /// A path's polarization is not `1`, `-1` or `0`.
    BadPolarization = 5,
    /// An earlier path has the same number.
    DuplicatePath = 6,
    /// A path's domain has no frequency.
    UnknownDomain = 7,
    /// A constraint names a number that no path has.
    UnknownPath = 8,
    /// A constraint names one path twice.
    SelfPair = 9,
    /// A distance is greater than the one before it.
    Increasing = 10,
    /// There are more than `MAX_PATHS` paths.
    TooManyPaths = 11,
    /// There are more than `MAX_DOMAIN_RECORDS` frequency records.
    TooManyValues = 12,
    /// There are more than `MAX_RECORDS` constraints.
    TooManyRecords = 13,
    /// A domain has more than `MAX_DOMAIN_FREQUENCIES` frequencies.
    DomainTooLarge = 14,
    /// The paths up to this one have more than `MAX_CHOICES` choices.
    TooManyChoices = 15,
}

/// Where a text is no instance's, and why.
pub type BadInput = LineFault<Cause>;

/// Why no instance was read: `Bad` with the line that is refused and why, or `NoMemory`.
pub type ReadError = Failure<BadInput>;

impl Cause {
    ghost use Rattle.record_reader.specs.Causes.{cause_name, cause_number};

    /// Its number, from 1.
    pub fn number(self) -> u8
        ensures { result ≡ cause_number self }
    {
        self as u8
    }

    /// Its name, as it is printed.
    pub fn name(self) -> &'static str
        ensures { result.now ≡ cause_name self }
    {
        match self {
            Cause::UnknownRecord => "UnknownRecord",
            Cause::FieldCount => "FieldCount",
            Cause::BadNumber => "BadNumber",
            Cause::BadWord => "BadWord",
            Cause::BadPolarization => "BadPolarization",
            Cause::DuplicatePath => "DuplicatePath",
            Cause::UnknownDomain => "UnknownDomain",
            Cause::UnknownPath => "UnknownPath",
            Cause::SelfPair => "SelfPair",
            Cause::Increasing => "Increasing",
            Cause::TooManyPaths => "TooManyPaths",
            Cause::TooManyValues => "TooManyValues",
            Cause::TooManyRecords => "TooManyRecords",
            Cause::DomainTooLarge => "DomainTooLarge",
            Cause::TooManyChoices => "TooManyChoices",
        }
    }
}

impl fmt::Display for Cause {
    ghost use Rattle.std.specs.Prelude.{Some};
    ghost use Rattle.record_reader.specs.Causes.{cause_name};

    ghost output = { λ cause. Some (cause_name cause) };

    fn fmt<W: fmt::Write>(&self, f: &mut fmt::Formatter<W>) -> fmt::Result {
        write!(f, "{}", self.name())
    }
}

impl Error for Cause {}
