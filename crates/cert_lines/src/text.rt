//! A text as it is read.

ghost use Rattle.std.specs.Prelude.{◌+◌, ◌≤◌, length};
ghost use Rattle.fapp_text.specs.declared.line.TheConstants.{MAX_TEXT};

/// What is still to be read of a text.
#[derive(Clone, Copy)]
pub(crate) struct Text<'a> {
    pub rest: &'a [u8],
    /// The number of the next line, from 1.
    pub line: u32,
    ghost few: { line + length rest.now ≤ MAX_TEXT + 1 },
}
