ghost use Rattle.std.specs.Prelude.{◌≡◌};
ghost use Rattle.fapp_text.specs.LineLaws.{LinesJoin, LinesAreCut, FieldsJoin, FieldsAreCut};

use crate::{MAX_NUMBER, MAX_TEXT};

/// A number in a text is at most 1,000,000,000, and a text of lines has at most 1,073,741,824
/// bytes.
pub fn limits_law()
    ensures number { MAX_NUMBER ≡ 1000000000 }
    ensures text { MAX_TEXT ≡ 1073741824 }
{}

/// The lines of a text, a line feed after each, are the text and a line feed if it lacks one at its
/// end. No line has a line feed.
pub fn lines_law()
    ensures join { LinesJoin }
    ensures cut { LinesAreCut }
{}

/// The fields of a line have all its bytes that are no blanks, in order. No field is empty or has a
/// blank.
pub fn fields_law()
    ensures join { FieldsJoin }
    ensures cut { FieldsAreCut }
{}
