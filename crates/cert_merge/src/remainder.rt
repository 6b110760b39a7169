// What is left of a log.
ghost use Rattle.std.specs.Prelude.{◌≡◌, [], ◌∷◌, length, MatchOption};

use search_log::LogLine;
use std::collections::VecDeque;
use std::marker::Model;

/// The lines of a log that are not in the certificate yet. Contracts see the list.
#[derive(Drop)]
pub(crate) struct Remainder {
    lines: VecDeque<LogLine>,
}

impl Model for Remainder {
    ghost use Rattle.std.specs.Prelude.{List};
    ghost use Rattle.search_log.specs.declared.line.LogLine.{LogLine as Noted};

    ghost Value = { List Noted };

    ghost view = { λ it. it.lines.items };
}

impl Remainder {
    /// All lines of a log, in place.
    pub(crate) fn of(lines: Vec<LogLine>) -> Remainder
        ensures { result ≡ lines.items }
    {
        Remainder {
            lines: VecDeque::from_vec(lines),
        }
    }

    /// The next line. None comes exactly where none is left.
    pub(crate) fn next(&mut self) -> Option<LogLine>
        ensures { MatchOption result ((self.old ≡ [])
            × (self.new ≡ [])) (λ line. self.old ≡ line ∷ self.new) }
    {
        self.lines.pop_front()
    }

    /// How many lines are left.
    pub(crate) fn len(&self) -> usize
        ensures { result ≡ length self.now }
    {
        self.lines.len()
    }
}
