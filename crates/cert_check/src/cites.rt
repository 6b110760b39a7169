//! Whether cites name earlier lines that stand and say enough.

ghost use Rattle.std.specs.Prelude.{◌≡◌, ◌<◌, ◌≤◌, ◌∷◌, length, not, if◌then◌else◌};
ghost use Rattle.fapp_model.specs.search.Partials.{literal};
ghost use Rattle.cert_lines.specs.acceptance.Contained.{has_all, has_all_but_one};
ghost use Rattle.cert_lines.specs.acceptance.LineFaults.{cite_fault, child_fault, delete_fault, first_of};
ghost use Rattle.cert_check.specs.Scenes.{IsScene, earlier_of};

use crate::exclusion::{Scene, has, has_all_with, is_deleted};
use crate::least::names;
use cert_lines::{Child, RejectCause};
use fapp_model::Literal;

/// Whether a list has each literal of another but at most one, and that one is of a path that it
/// doesn't name.
fn has_all_but_one(literals: &[Literal], cited: &[Literal]) -> bool
    ensures { result ≡ has_all_but_one literals.now cited.now }
{
    let mut outside = 0usize;
    for a in cited {
        let inside = has(literals, *a);
        if !(inside || !names(literals, a.path)) {
            return false;
        }
        outside += one_unless(inside);
    }
    outside <= 1
}

/// 0 where something holds, and else 1.
fn one_unless(holds: bool) -> usize
    ensures value { result ≡ (if not holds then 1 else 0) }
    ensures small { result ≤ 1 }
{
    if holds { 0 } else { 1 }
}

/// The first fault of a Count line's cite.
fn cite_fault(scene: Scene, literals: &[Literal], cite: u32) -> Option<RejectCause>
    requires { IsScene scene }
    ensures { result ≡ cite_fault (earlier_of scene.entry) scene.entry.tag
        (has_all_but_one literals.now) cite }
{
    if !(cite > 0 && cite as usize <= scene.n) {
        return Some(RejectCause::CiteNotEarlier);
    }
    if is_deleted(scene, cite as usize) {
        return Some(RejectCause::CiteDeleted);
    }
    let line = &scene.lines[cite as usize - 1];
    if !has_all_but_one(literals, line.lits.as_slice()) {
        return Some(RejectCause::CiteNotContained);
    }
    if line.tag.code < scene.tag.code {
        return Some(RejectCause::CiteTagTooLow);
    }
    None
}

/// The first fault of a Branch line's child.
fn child_fault(scene: Scene, literals: &[Literal], path: u16, child: Child) -> Option<RejectCause>
    requires { IsScene scene }
    ensures { result ≡ child_fault (earlier_of scene.entry) scene.entry.tag literals.now path
        child }
{
    if !(child.cite > 0 && child.cite as usize <= scene.n) {
        return Some(RejectCause::CiteNotEarlier);
    }
    if is_deleted(scene, child.cite as usize) {
        return Some(RejectCause::CiteDeleted);
    }
    let line = &scene.lines[child.cite as usize - 1];
    let own = Literal {
        path,
        choice: child.choice,
    };
    if !has_all_with(own, literals, line.lits.as_slice()) {
        return Some(RejectCause::CiteNotContained);
    }
    if line.tag.code < scene.tag.code {
        return Some(RejectCause::CiteTagTooLow);
    }
    None
}

pub(crate) fn cites_fault(scene: Scene, literals: &[Literal], cites: &[u32]) -> Option<RejectCause>
    requires { IsScene scene }
    ensures { result ≡ first_of (cite_fault (earlier_of scene.entry) scene.entry.tag
        (has_all_but_one literals.now)) cites.now }
{
    for cite in cites {
        if let Some(cause) = cite_fault(scene, literals, *cite) {
            return Some(cause);
        }
    }
    None
}

pub(crate) fn children_fault(
    scene: Scene,
    literals: &[Literal],
    path: u16,
    children: &[Child],
) -> Option<RejectCause>
    requires { IsScene scene }
    ensures { result ≡ first_of (child_fault (earlier_of scene.entry) scene.entry.tag literals.now
        path) children.now }
{
    for child in children {
        if let Some(cause) = child_fault(scene, literals, path, *child) {
            return Some(cause);
        }
    }
    None
}

/// The first fault of a number that a Delete line names.
fn delete_fault(scene: Scene, number: u32) -> Option<RejectCause>
    requires { IsScene scene }
    ensures { result ≡ delete_fault (earlier_of scene.entry) number }
{
    if !(number > 0 && number as usize <= scene.n) {
        return Some(RejectCause::DeleteNotEarlier);
    }
    if is_deleted(scene, number as usize) {
        return Some(RejectCause::DeletedTwice);
    }
    None
}

/// The first fault of what a Delete line names.
pub(crate) fn deletes_fault(scene: Scene, numbers: &[u32]) -> Option<RejectCause>
    requires { IsScene scene }
    ensures { result ≡ first_of (delete_fault (earlier_of scene.entry)) numbers.now }
{
    for number in numbers {
        if let Some(cause) = delete_fault(scene, *number) {
            return Some(cause);
        }
    }
    None
}
