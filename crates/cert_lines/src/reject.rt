//! What is wrong with an answer that is not accepted.

ghost use Rattle.std.specs.Prelude.{◌≡◌};

use fapp_model::{Tag, Triple, triple_of};
use std::error::Error;
use std::fmt;

/// Why an answer is not accepted. Each cause has its number.
#[derive(Clone, Copy, Debug, PartialEq, Eq)]
pub enum RejectCause {
    /// A cite is 0, or names no earlier line.
    CiteNotEarlier,
    /// A cited line's literals are not those that the cite may use.
    CiteNotContained,
    /// A cited line's tag is below the line's own.
    CiteTagTooLow,
    /// The line's literals, or those with a choice that no child stands for, are not judged dead.
    NotDead,
    /// A Branch line's path is named by its literals.
    WrongPath,
    /// The plan has not as many choices as the verdict demands.
    AssignmentLength,
    /// A choice of the plan is none of its path's.
    ChoiceNotInDomain,
    /// The plan breaks an imperative record.
    ImperativeBroken,
    /// The plan costs something else.
    TripleDiffers { claimed: Triple, found: Triple },
    /// No Count or Branch line is without literals, or each such line is deleted.
    NoRootLine,
    /// No Count or Branch line without literals that no line deletes has the verdict's tag or a
    /// greater one.
    RootTagTooLow { claimed: Tag, found: Tag },
    /// An earlier line deletes a cited one.
    CiteDeleted,
    /// A deleted number is 0, or names no earlier line.
    DeleteNotEarlier,
    /// An earlier line deletes a deleted one.
    DeletedTwice,
}

/// The first fault of an answer: the certificate's line, from 1, or 0 for a fault of the plan or of
/// the root.
#[derive(Clone, Copy, Debug, PartialEq, Eq)]
pub struct Rejected {
    pub line: u32,
    pub cause: RejectCause,
}

impl RejectCause {
    ghost use Rattle.cert_lines.specs.Rejects.{reject_number, reject_name};

    /// Its number, from 1 for `CiteNotEarlier` to 14 for `DeletedTwice`.
    pub fn number(self) -> u8
        ensures { result ≡ reject_number self }
    {
        match self {
            RejectCause::CiteNotEarlier => 1,
            RejectCause::CiteNotContained => 2,
            RejectCause::CiteTagTooLow => 3,
            RejectCause::NotDead => 4,
            RejectCause::WrongPath => 5,
            RejectCause::AssignmentLength => 6,
            RejectCause::ChoiceNotInDomain => 7,
            RejectCause::ImperativeBroken => 8,
            RejectCause::TripleDiffers { .. } => 9,
            RejectCause::NoRootLine => 10,
            RejectCause::RootTagTooLow { .. } => 11,
            RejectCause::CiteDeleted => 12,
            RejectCause::DeleteNotEarlier => 13,
            RejectCause::DeletedTwice => 14,
        }
    }

    /// Its name, as it is printed.
    pub fn name(self) -> &'static str
        ensures { result.now ≡ reject_name self }
    {
        match self {
            RejectCause::CiteNotEarlier => "CiteNotEarlier",
            RejectCause::CiteNotContained => "CiteNotContained",
            RejectCause::CiteTagTooLow => "CiteTagTooLow",
            RejectCause::NotDead => "NotDead",
            RejectCause::WrongPath => "WrongPath",
            RejectCause::AssignmentLength => "AssignmentLength",
            RejectCause::ChoiceNotInDomain => "ChoiceNotInDomain",
            RejectCause::ImperativeBroken => "ImperativeBroken",
            RejectCause::TripleDiffers { .. } => "TripleDiffers",
            RejectCause::NoRootLine => "NoRootLine",
            RejectCause::RootTagTooLow { .. } => "RootTagTooLow",
            RejectCause::CiteDeleted => "CiteDeleted",
            RejectCause::DeleteNotEarlier => "DeleteNotEarlier",
            RejectCause::DeletedTwice => "DeletedTwice",
        }
    }

    /// What the answer claims and what was found, where it is these that differ.
    fn triples(self) -> Option<(Triple, Triple)> {
        match self {
            RejectCause::TripleDiffers { claimed, found } => Some((claimed, found)),
            RejectCause::RootTagTooLow { claimed, found } => {
                Some((triple_of(claimed), triple_of(found)))
            }
            _ => None,
        }
    }
}

impl fmt::Display for RejectCause {
    fn fmt<W: fmt::Write>(&self, f: &mut fmt::Formatter<W>) -> fmt::Result {
        write!(f, "{}", self.name())?;
        match self.triples() {
            Some((t, u)) => write!(f, " {} {} {} {} {} {}", t.k, t.v, t.s, u.k, u.v, u.s),
            None => Ok(()),
        }
    }
}

impl Error for RejectCause {}

impl fmt::Display for Rejected {
    fn fmt<W: fmt::Write>(&self, f: &mut fmt::Formatter<W>) -> fmt::Result {
        write!(f, "{} {}", self.line, self.cause)
    }
}

impl Error for Rejected {}
