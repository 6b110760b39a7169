//! Which choices earlier lines exclude.

ghost use Rattle.std.specs.Prelude.{◌≡◌, ◌<◌, ◌≤◌, ◌∷◌, length, take, All};
ghost use Rattle.fapp_model.specs.search.Partials.{IsLiteral};
ghost use Rattle.cert_lines.specs.acceptance.Contained.{is_same, has, has_all};
ghost use Rattle.cert_lines.specs.acceptance.Deleted.{is_deleted, kept};
ghost use Rattle.cert_lines.specs.acceptance.Excluded.{is_marked, is_cited, is_excluded};
ghost use Rattle.cert_check.specs.Scenes.{IsScene, excluded_by};
ghost use Rattle.cert_check.specs.Marked.{IsMarks, AreEarlier, has_mark, is_mark, marked_row, ones_of};

use crate::marks::Marks;
use cert_lines::Line;
use fapp_model::{Instance, Literal, Tag};

fn is_same(a: Literal, b: Literal) -> bool
    ensures { result ≡ is_same a b }
{
    a.path == b.path && a.choice == b.choice
}

/// Whether a list has a literal.
pub(crate) fn has(literals: &[Literal], a: Literal) -> bool
    ensures { result ≡ has literals.now a }
{
    for b in literals {
        if is_same(*b, a) {
            return true;
        }
    }
    false
}

/// Whether a literal and some others have each of a list.
pub(crate) fn has_all_with(first: Literal, literals: &[Literal], cited: &[Literal]) -> bool
    ensures { result ≡ has_all (first ∷ literals.now) cited.now }
{
    for a in cited {
        if !(is_same(first, *a) || has(literals, *a)) {
            return false;
        }
    }
    true
}

/// Whether one of the first n lines deletes the line of a number.
pub(crate) fn is_deleted(scene: Scene, number: usize) -> bool
    requires scene { IsScene scene }
    requires low { 0 < number }
    requires high { number ≤ length scene.lines.now }
    ensures { result ≡ is_deleted (take scene.entry.n scene.entry.lines.now) number }
{
    (scene.marks.deleters.as_slice()[number - 1] as usize) < scene.n
}

/// Whether a line stands before the judged one, has at least its tag, and is not deleted.
fn is_mark(scene: Scene, place: usize) -> bool
    requires scene { IsScene scene }
    requires place { place < length scene.lines.now }
    ensures { result ≡ is_mark scene.entry.lines.now scene.entry.n scene.entry.tag place }
{
    place < scene.n
        && scene.tag.code <= scene.lines[place].tag.code
        && !is_deleted(scene, place + 1)
}

fn has_mark(scene: Scene, ones: &[u32]) -> bool
    requires scene { IsScene scene }
    requires ones { All (λ k. k < length scene.lines.now) ones.now }
    ensures { result ≡ has_mark scene.entry.lines.now scene.entry.n scene.entry.tag ones.now }
{
    for k in ones {
        if is_mark(scene, *k as usize) {
            return true;
        }
    }
    false
}

/// The positions of the lines that have this literal alone.
fn ones_at<'a>(_instance: &Instance, marks: &'a Marks, _lines: &[Line], a: Literal) -> &'a [u32]
    requires marks { IsMarks _instance.now _lines.now marks.now }
    requires literal { IsLiteral _instance.now a }
    ensures { result.now ≡ ones_of _lines.now a }
{
    let rows = marks.ones.as_slice()[a.path as usize].as_slice();
    rows[a.choice as usize].as_slice()
}

/// Whether one of the first n lines that none of them deletes has this literal alone, and at least
/// the tag.
pub(crate) fn is_marked(scene: Scene, a: Literal) -> bool
    requires scene { IsScene scene }
    requires literal { IsLiteral scene.instance.now a }
    ensures { result ≡ is_marked (kept (take scene.entry.n scene.entry.lines.now)) scene.entry.tag
        a }
{
    let ones = ones_at(scene.instance, scene.marks, scene.lines, a);
    has_mark(scene, ones)
}

/// Whether the literals of a cited line are all among the literals and this one.
fn is_cited(earlier: &[Line], cites: &[u32], literals: &[Literal], a: Literal) -> bool
    requires { AreEarlier (length earlier.now) cites.now }
    ensures { result ≡ is_cited earlier.now cites.now literals.now a }
{
    for n in cites {
        let line = &earlier[*n as usize - 1];
        if has_all_with(a, literals, line.lits.as_slice()) {
            return true;
        }
    }
    false
}

/// What a line is judged by: its instance, the index, the lines, of which the first n count, its
/// tag and cites.
#[derive(Clone, Copy)]
pub(crate) struct Scene<'a> {
    pub(crate) instance: &'a Instance,
    pub(crate) marks: &'a Marks,
    pub(crate) lines: &'a [Line],
    pub(crate) n: usize,
    pub(crate) tag: Tag,
    pub(crate) cites: &'a [u32],
    pub(crate) level: u32,
}

/// Whether an earlier line of one literal that is not deleted, or a cited one, excludes a choice.
pub(crate) fn is_excluded(scene: Scene, literals: &[Literal], a: Literal) -> bool
    requires scene { IsScene scene }
    requires literal { IsLiteral scene.instance.now a }
    ensures { result ≡ excluded_by scene.entry literals.now a }
{
    is_marked(scene, a) || is_cited(&scene.lines[..scene.n], scene.cites, literals, a)
}
