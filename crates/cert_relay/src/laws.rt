//! How pieces and texts belong together, as contracts of functions that do nothing.

ghost use Rattle.cert_relay.specs.PieceLaws.{PiecesAreText};

/// All pieces of an answer, in order, are its text.
pub fn pieces_are_text()
    ensures { PiecesAreText }
{}
