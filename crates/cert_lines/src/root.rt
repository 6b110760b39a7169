//! The root lines of a certificate: Count and Branch lines without literals.

ghost use Rattle.std.specs.Prelude.{◌≡◌, ◌<◌, ◌+◌, length, if◌then◌else◌};
ghost use Rattle.cert_lines.specs.acceptance.Deleted.{is_kept, kept};
ghost use Rattle.cert_lines.specs.acceptance.Excluded.{line_at};
ghost use Rattle.cert_lines.specs.acceptance.RootFaults.{greater, root_tag, with_root_line};

use crate::Line;
use crate::kept::is_kept;
use fapp_model::Tag;

/// The greater of a tag, if one was found, and another.
fn greater(found: Option<Tag>, t: Tag) -> Tag
    ensures { result ≡ greater found t }
{
    match found {
        Some(u) => { if u.code < t.code { t } else { u } }
        None => t,
    }
}

/// The greatest tag of the root lines before a line and of this one.
pub fn with_root_line(found: Option<Tag>, line: &Line) -> Option<Tag>
    ensures { result ≡ with_root_line found line.now }
{
    if line.lits.is_empty() {
        Some(greater(found, line.tag))
    } else {
        found
    }
}

/// The greatest tag of the lines without literals, or `None` where each line has some.
#[tactic(auto, unfolding(crate::specs::acceptance::RootFaults::root_tag))]
pub fn root_tag(lines: &[Line]) -> Option<Tag>
    ensures { result ≡ root_tag lines.now }
{
    let mut found = None;
    for line in lines {
        found = with_root_line(found, line);
    }
    found
}

/// The same with the line at a position, from 0, where it is kept. Whether it is matters for a root
/// line alone.
fn with_kept(found: Option<Tag>, lines: &[Line], place: usize) -> Option<Tag>
    requires { place < length lines.now }
    ensures { let line = line_at lines.now (place + 1) in
        result ≡ (if is_kept lines.now (place + 1) line then with_root_line found line else found) }
{
    if lines[place].lits.is_empty() && is_kept(lines, place) {
        with_root_line(found, &lines[place])
    } else {
        found
    }
}

/// The greatest tag of the lines without literals that are no Delete lines, and that none deletes.
/// `None` where there is no such line. It looks through the lines again for each of these.
#[tactic(auto, unfolding(crate::specs::acceptance::RootFaults::root_tag, crate::specs::acceptance::Deleted::kept))]
pub fn kept_root_tag(lines: &[Line]) -> Option<Tag>
    ensures { result ≡ root_tag (kept lines.now) }
{
    let mut found = None;
    for place in 0..lines.len() {
        found = with_kept(found, lines, place);
    }
    found
}
