ghost use Rattle.std.specs.Prelude.{◌≡◌, not, take, drop};
ghost use Rattle.std.specs.List.{position, position_or_len};
ghost use Rattle.std.specs.Str.{bytes_eq};
ghost use Rattle.fapp_text.specs.Fields.{is_blank, fields};
ghost use Rattle.fapp_text.specs.Left.{GivesField};

use std::marker::Model;

/// The fields of a line, from its first on.
#[derive(Debug, Drop)]
pub struct Fields<'a> {
    rest: &'a [u8],
}

impl<'a> Model for Fields<'a> {
    ghost use Rattle.std.specs.Prelude.{ℕ, List};
    ghost use Rattle.fapp_text.specs.Fields.{fields};

    ghost Value = { List (List ℕ) };

    ghost view = { λ it. fields it.rest.now };
}

impl<'a> Fields<'a> {
    /// All fields of a line.
    pub fn new(line: &'a [u8]) -> Fields<'a>
        ensures { result ≡ fields line.now }
    {
        Fields { rest: line }
    }

    /// The next longest run without space and tab. `None` where no run is left.
    pub fn next(&mut self) -> Option<&'a [u8]>
        ensures { GivesField self.old result self.new }
    {
        let (field, rest) = first_run(after_blanks(self.rest));
        self.rest = rest;
        if field.is_empty() {
            return None;
        }
        Some(field)
    }
}

/// Whether a field is a word.
pub fn is(field: &[u8], word: &[u8]) -> bool
    ensures { result ≡ bytes_eq field.now word.now }
{
    field == word
}

fn is_blank(byte: u8) -> bool
    ensures { result ≡ is_blank byte }
{
    byte == b' ' || byte == b'\t'
}

/// What stands after the blanks at the front.
fn after_blanks(bytes: &[u8]) -> &[u8]
    ensures { result.now ≡ drop (position_or_len (λ b. not (is_blank b)) bytes.now) bytes.now }
{
    match other_at(bytes) {
        Some(start) => &bytes[start..],
        None => &[],
    }
}

fn other_at(bytes: &[u8]) -> Option<usize>
    ensures { result ≡ position (λ b. not (is_blank b)) bytes.now }
{
    bytes.iter().position(|byte| !is_blank(*byte))
}

/// What stands before the first blank, and the rest.
fn first_run(bytes: &[u8]) -> (&[u8], &[u8])
    ensures run { result.0.now ≡ take (position_or_len is_blank bytes.now) bytes.now }
    ensures rest { result.1.now ≡ drop (position_or_len is_blank bytes.now) bytes.now }
{
    match blank_at(bytes) {
        Some(end) => bytes.split_at(end),
        None => (bytes, &[]),
    }
}

fn blank_at(bytes: &[u8]) -> Option<usize>
    ensures { result ≡ position is_blank bytes.now }
{
    bytes.iter().position(|byte| is_blank(*byte))
}
