//! How answers and texts belong together, as contracts of functions that do nothing.

ghost use Rattle.cert_lines.specs.AnswerLaws.{OneText, NoFault, FaultBehind, TextOfAnswer, InParts, ReadsBack};

/// No two well-formed answers have one text, so what was written is read as the same answer.
pub fn one_text()
    ensures { OneText }
{}

/// The text of a well-formed answer has no fault.
pub fn no_fault()
    ensures { NoFault }
{}

/// A byte behind the text of a well-formed answer is a fault at the line after `END`.
pub fn fault_behind()
    ensures { FaultBehind }
{}

/// A text without a fault is that of a well-formed answer.
pub fn text_of_answer()
    ensures { TextOfAnswer }
{}

/// The text of an answer is its head, its certificate lines and the line `END`.
pub fn in_parts()
    ensures { InParts }
{}

/// What was written of a well-formed answer is read as that answer.
pub fn reads_back()
    ensures { ReadsBack }
{}
