//! Lines that other lines delete.

ghost use Rattle.std.specs.Prelude.{◌≡◌, ◌<◌, ◌+◌, ◌==◌, length};
ghost use Rattle.std.specs.List.{list_any};
ghost use Rattle.cert_lines.specs.acceptance.Deleted.{deletes, is_delete, is_deleted, is_kept};
ghost use Rattle.cert_lines.specs.acceptance.Excluded.{line_at};

use crate::{Line, Rule};

/// Whether a rule is that of a Delete line.
pub fn is_delete(rule: &Rule) -> bool
    ensures { result ≡ is_delete rule.now }
{
    match rule {
        Rule::Count { .. } | Rule::Branch { .. } => false,
        Rule::Delete { .. } => true,
    }
}

/// The numbers of the lines that a rule deletes, which only a Delete line's does.
pub fn deletes(rule: &Rule) -> &[u32]
    ensures { result.now ≡ deletes rule.now }
{
    match rule {
        Rule::Count { .. } | Rule::Branch { .. } => &[],
        Rule::Delete { cites } => cites.as_slice(),
    }
}

fn names(numbers: &[u32], number: usize) -> bool
    ensures { result ≡ list_any (λ m. m == number) numbers.now }
{
    numbers.iter().any(|m| *m as usize == number)
}

/// Whether some line deletes the line of a number.
fn is_deleted(lines: &[Line], number: usize) -> bool
    ensures { result ≡ is_deleted lines.now number }
{
    lines.iter().any(|line| names(deletes(&line.rule), number))
}

/// Whether the line at a position, from 0, is no Delete line, and none deletes it.
pub(crate) fn is_kept(lines: &[Line], place: usize) -> bool
    requires { place < length lines.now }
    ensures { result ≡ is_kept lines.now (place + 1) (line_at lines.now (place + 1)) }
{
    !is_delete(&lines[place].rule) && !is_deleted(lines, place + 1)
}
