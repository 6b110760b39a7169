ghost use Rattle.std.specs.Prelude.{◌≡◌, ◌+◌, ◌<◌, ◌≤◌, ◌∷◌, length};
ghost use Rattle.std.specs.List.{position};
ghost use Rattle.fapp_text.specs.Lines.{is_line_feed, lines};
ghost use Rattle.fapp_text.specs.Left.{LinesLeft, GivesLine};

use std::marker::Model;

/// The most bytes that a text of lines may have, so that each line has a number.
pub const MAX_TEXT: usize = 1_073_741_824;

/// The lines of a text, from its first on.
#[derive(Debug, Drop)]
pub struct Lines<'a> {
    rest: &'a [u8],
    given: u32,
}

impl<'a> Model for Lines<'a> {
    ghost use Rattle.std.specs.Prelude.{◌+◌, ◌≤◌, length};
    ghost use Rattle.fapp_text.specs.Lines.{lines};
    ghost use Rattle.fapp_text.specs.Left.{LinesLeft};
    ghost use Rattle.fapp_text.specs.declared.line.TheConstants.{MAX_TEXT};

    ghost Value = { LinesLeft };

    ghost view = { λ it. record { number = it.given + 1; lines = lines it.rest.now } };

    ghost invariant = { λ it. it.given + length it.rest.now ≤ MAX_TEXT };
}

impl<'a> Lines<'a> {
    /// All lines of a text of at most `MAX_TEXT` bytes.
    pub fn new(bytes: &'a [u8]) -> Lines<'a>
        requires { length bytes.now ≤ MAX_TEXT }
        ensures { result ≡ record { number = 1; lines = lines bytes.now } }
    {
        Lines {
            rest: bytes,
            given: 0,
        }
    }

    /// The next line and its number, from 1: the bytes up to a line feed, or all that follow the
    /// last line feed. `None` where all bytes were given.
    pub fn next(&mut self) -> Option<(u32, &'a [u8])>
        ensures { GivesLine self.old result self.new }
    {
        if self.rest.is_empty() {
            return None;
        }
        let (line, rest) = first_line(self.rest);
        self.rest = rest;
        self.given += 1;
        Some((self.given, line))
    }
}

/// The first line, and what stands after its line feed, if it has one.
fn first_line(bytes: &[u8]) -> (&[u8], &[u8])
    requires { 0 < length bytes.now }
    ensures cut { lines bytes.now ≡ result.0.now ∷ lines result.1.now }
    ensures shorter { length result.1.now < length bytes.now }
{
    match line_feed_at(bytes) {
        Some(end) => (&bytes[..end], &bytes[end + 1..]),
        None => (bytes, &[]),
    }
}

/// Where the first line feed stands.
fn line_feed_at(bytes: &[u8]) -> Option<usize>
    ensures { result ≡ position is_line_feed bytes.now }
{
    bytes.iter().position(|byte| *byte == b'\n')
}
