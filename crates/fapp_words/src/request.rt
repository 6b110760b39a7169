//! What a command line asks for.

ghost use Rattle.std.specs.Prelude.{◌≡◌};
ghost use Rattle.fapp_words.specs.Commands.{maker_name};

use crate::options::{CheckOptions, SolveOptions};

/// What a network is made from.
#[derive(Clone, Copy, Debug, PartialEq, Eq)]
pub struct Seed {
    /// The number, at most `MAX_NUMBER`.
    pub number: u32,
    /// How many paths, 2 to `MAX_MADE_PATHS`.
    pub paths: u32,
}

/// What the program is to do.
#[derive(Clone, Copy, Debug, PartialEq, Eq)]
pub enum Request {
    /// To look for the least plan of an instance.
    Solve(SolveOptions),
    /// To check an answer to an instance.
    Check(CheckOptions),
    /// To write the network that a number makes.
    Gen(Seed),
    /// To solve the network that a number makes, and to write the verdict.
    Demo(Seed),
}

/// The commands that make a network.
#[derive(Clone, Copy, Debug, PartialEq, Eq)]
pub(crate) enum Maker {
    Gen,
    Demo,
}

impl Maker {
    /// Its first word.
    pub(crate) fn name(self) -> &'static str
        ensures { result.now ≡ maker_name self }
    {
        match self {
            Maker::Gen => "gen",
            Maker::Demo => "demo",
        }
    }
}
