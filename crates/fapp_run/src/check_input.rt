// The input of a check: an instance, a line `--`, and an answer.
ghost use Rattle.std.specs.Prelude.{◌≡◌, ◌<◌, ◌≤◌, ◌∷◌, length, IfSome};
ghost use Rattle.std.specs.List.{after_first, position};
ghost use Rattle.std.specs.Option.{option_map};
ghost use Rattle.fapp_text.specs.Lines.{is_line_feed, lines};
ghost use Rattle.fapp_run.specs.Halves.{is_divider, halves_of, halves};

use fapp_text::{MAX_TEXT, is};

/// An input with a line `--`.
#[derive(Clone, Copy)]
pub struct CheckInput<'a> {
    /// All that stands before that line.
    pub instance: &'a [u8],
    /// The number of that line, from 1.
    pub divider: u32,
    /// All that follows it.
    pub answer: &'a [u8],
}

/// An input, cut at its first line `--`. `None` where no line is one.
pub fn cut(bytes: &[u8]) -> Option<CheckInput>
    requires { length bytes.now ≤ MAX_TEXT }
    ensures halves { option_map halves_of result ≡ halves bytes.now }
    ensures within { IfSome result (λ input. (input.divider ≤ length bytes.now)
        × (length input.answer.now ≤ length bytes.now)) }
{
    let mut rest = bytes;
    let mut divider = 1;
    while !rest.is_empty() {
        let (line, answer) = first_line(rest);
        if is_divider(line) {
            let instance = &bytes[..bytes.len() - rest.len()];
            return Some(CheckInput {
                instance,
                divider,
                answer,
            });
        }
        rest = answer;
        divider += 1;
    }
    None
}

/// The first line, and what follows its line feed, if it has one.
fn first_line(bytes: &[u8]) -> (&[u8], &[u8])
    requires { 0 < length bytes.now }
    ensures cut { lines bytes.now ≡ result.0.now ∷ lines result.1.now }
    ensures after { result.1.now ≡ after_first is_line_feed bytes.now }
    ensures shorter { length result.1.now < length bytes.now }
{
    match line_feed_at(bytes) {
        Some(end) => (&bytes[..end], &bytes[end + 1..]),
        None => (bytes, &[]),
    }
}

fn line_feed_at(bytes: &[u8]) -> Option<usize>
    ensures { result ≡ position is_line_feed bytes.now }
{
    bytes.iter().position(|byte| *byte == b'\n')
}

/// Whether a line is `--`, with or without a carriage return.
fn is_divider(line: &[u8]) -> bool
    ensures { result ≡ is_divider line.now }
{
    is(line, b"--") || is(line, b"--\r")
}
