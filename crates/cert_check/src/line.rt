//! The first fault of a certificate line.

ghost use Rattle.std.specs.Prelude.{◌≡◌, ◌<◌, ◌≤◌, ◌==◌, ◌^◌, [], ◌∷◌, length, take, IfOk, All};
ghost use Rattle.std.specs.List.{list_any};
ghost use Rattle.fapp_model.specs.Assignments.{count_at};
ghost use Rattle.fapp_model.specs.Instances.{IsInstance};
ghost use Rattle.fapp_model.specs.search.Partials.{IsLiteral};
ghost use Rattle.fapp_model.specs.Tags.{mode_level, triple_from};
ghost use Rattle.cert_lines.specs.WellFormed.{IsLineOrDelete, IsLine};
ghost use Rattle.cert_lines.specs.acceptance.LineFaults.{cause_unless, delete_fault, first_of, line_fault};
ghost use Rattle.cert_lines.specs.acceptance.Deleted.{deletes};
ghost use Rattle.cert_lines.specs.declared.reject.RejectCause.TheVariants.{NotDead};
ghost use Rattle.cert_check.specs.Marked.{IsMarks, AreEarlier, line_on};
ghost use Rattle.cert_check.specs.Scenes.{IsScene, all_settled, fault_by, settled_by};

use crate::cites::{children_fault, cites_fault, deletes_fault};
use crate::exclusion::Scene;
use crate::judging::{count_of, is_dead};
use crate::least::names;
use crate::marks::Marks;
use cert_lines::{Child, Line, RejectCause, Rule, deletes};
use fapp_model::{Instance, Literal, NoMemory, level_of};
use std::alloc::Global;

/// A literal and some others.
fn with_first(alloc: Global, first: Literal, literals: &[Literal]) -> Result<Vec<Literal>, NoMemory>
    ensures { IfOk result (λ all. all.items ≡ first ∷ literals.now) }
{
    let mut all = Vec::new(alloc);
    all.push(first)?;
    all.extend_from_slice(literals)?;
    Ok(all)
}

fn is_listed(children: &[Child], index: u32) -> bool
    ensures { result ≡ list_any (λ child. child.choice == index) children.now }
{
    for child in children {
        if u32::from(child.choice) == index {
            return true;
        }
    }
    false
}

/// Whether a choice of a Branch line's path has a child, or is judged dead with the literals.
fn is_settled(
    alloc: Global,
    scene: Scene,
    literals: &[Literal],
    path: u16,
    children: &[Child],
    index: u32,
) -> Result<bool, NoMemory>
    requires scene { IsScene scene }
    requires level { scene.level ≡ mode_level (triple_from scene.tag.code) }
    requires cites { scene.cites.now ≡ [] }
    requires literals { All (IsLiteral scene.instance.now) literals.now }
    requires few { length literals.now < 2 ^ 14 }
    requires path { path < length scene.instance.now.paths }
    requires index { index < count_at scene.instance.now path }
    requires index_fits { index < 2 ^ 16 }
    ensures { IfOk result (λ settled. settled ≡ settled_by scene.entry literals.now path
        children.now index) }
{
    if is_listed(children, index) {
        return Ok(true);
    }
    let first = Literal {
        path,
        choice: index as u16,
    };
    let all = with_first(alloc, first, literals)?;
    is_dead(alloc, scene, all.as_slice())
}

fn all_settled(
    alloc: Global,
    scene: Scene,
    literals: &[Literal],
    path: u16,
    children: &[Child],
) -> Result<bool, NoMemory>
    requires scene { IsScene scene }
    requires level { scene.level ≡ mode_level (triple_from scene.tag.code) }
    requires cites { scene.cites.now ≡ [] }
    requires literals { All (IsLiteral scene.instance.now) literals.now }
    requires few { length literals.now < 2 ^ 14 }
    requires path { path < length scene.instance.now.paths }
    ensures { IfOk result (λ settled. settled ≡ all_settled scene.entry literals.now path
        children.now) }
{
    let count = count_of(scene.instance, path);
    for index in 0..count {
        if !is_settled(alloc, scene, literals, path, children, index)? {
            return Ok(false);
        }
    }
    Ok(true)
}

/// The first fault of a Count line; the scene has no cites.
fn count_fault(
    alloc: Global,
    scene: Scene,
    literals: &[Literal],
    cites: &[u32],
) -> Result<Option<RejectCause>, NoMemory>
    requires scene { IsScene scene }
    requires level { scene.level ≡ mode_level (triple_from scene.tag.code) }
    requires literals { All (IsLiteral scene.instance.now) literals.now }
    requires few { length literals.now < 2 ^ 14 }
    ensures { IfOk result (λ fault. fault ≡ fault_by scene.entry literals.now
        (Rule.Count cites.now)) }
{
    if let Some(cause) = cites_fault(scene, literals, cites) {
        return Ok(Some(cause));
    }
    let citing = Scene {
        instance: scene.instance,
        marks: scene.marks,
        lines: scene.lines,
        n: scene.n,
        tag: scene.tag,
        cites,
        level: scene.level,
    };
    let dead = is_dead(alloc, citing, literals)?;
    Ok(not_dead(dead))
}

fn not_dead(passes: bool) -> Option<RejectCause>
    ensures { result ≡ cause_unless passes NotDead }
{
    if passes {
        None
    } else {
        Some(RejectCause::NotDead)
    }
}

/// The first fault of a Branch line; the scene has no cites.
fn branch_fault(
    alloc: Global,
    scene: Scene,
    literals: &[Literal],
    path: u16,
    children: &[Child],
) -> Result<Option<RejectCause>, NoMemory>
    requires scene { IsScene scene }
    requires level { scene.level ≡ mode_level (triple_from scene.tag.code) }
    requires cites { scene.cites.now ≡ [] }
    requires literals { All (IsLiteral scene.instance.now) literals.now }
    requires few { length literals.now < 2 ^ 14 }
    requires path { path < length scene.instance.now.paths }
    ensures { IfOk result (λ fault. fault ≡ fault_by scene.entry literals.now
        (Rule.Branch path children.now)) }
{
    if names(literals, path) {
        return Ok(Some(RejectCause::WrongPath));
    }
    if let Some(cause) = children_fault(scene, literals, path, children) {
        return Ok(Some(cause));
    }
    let settled = all_settled(alloc, scene, literals, path, children)?;
    Ok(not_dead(settled))
}

/// The first fault of a line by its rule; the scene has no cites.
fn rule_fault(alloc: Global, scene: Scene, line: &Line) -> Result<Option<RejectCause>, NoMemory>
    requires scene { IsScene scene }
    requires level { scene.level ≡ mode_level (triple_from scene.tag.code) }
    requires cites { scene.cites.now ≡ [] }
    requires line { IsLine scene.instance.now line.now }
    ensures { IfOk result (λ fault. fault ≡ fault_by scene.entry line.now.lits line.now.rule) }
{
    let literals = line.lits.as_slice();
    match &line.rule {
        Rule::Count { cites } => count_fault(alloc, scene, literals, cites.as_slice()),
        Rule::Branch { path, children } => {
            branch_fault(alloc, scene, literals, *path, children.as_slice())
        }
        Rule::Delete { .. } => Ok(None),
    }
}

/// The first fault of what the line at a position deletes, from 0.
fn deleting_fault(
    instance: &Instance,
    marks: &Marks,
    lines: &[Line],
    n: usize,
) -> Option<RejectCause>
    requires instance { IsInstance instance.now }
    requires marks { IsMarks instance.now lines.now marks.now }
    requires n { n < length lines.now }
    requires lines { All (IsLineOrDelete instance.now) lines.now }
    ensures { result ≡ first_of (delete_fault (take n lines.now))
        (deletes (line_on lines.now n).rule) }
{
    let line = &lines[n];
    let scene = Scene {
        instance,
        marks,
        lines,
        n,
        tag: line.tag,
        cites: &[],
        level: 0,
    };
    deletes_fault(scene, deletes(&line.rule))
}

/// The first fault of the line at a position, from 0. A line that deletes others has the tag (0, 0,
/// 0).
pub(crate) fn line_fault(
    alloc: Global,
    instance: &Instance,
    marks: &Marks,
    lines: &[Line],
    n: usize,
) -> Result<Option<RejectCause>, NoMemory>
    requires instance { IsInstance instance.now }
    requires marks { IsMarks instance.now lines.now marks.now }
    requires n { n < length lines.now }
    requires lines { All (IsLineOrDelete instance.now) lines.now }
    ensures { IfOk result (λ fault. fault ≡ line_fault instance.now (take n lines.now)
        (line_on lines.now n)) }
{
    let line = &lines[n];
    if line.tag.code == 0 {
        return Ok(deleting_fault(instance, marks, lines, n));
    }
    let scene = Scene {
        instance,
        marks,
        lines,
        n,
        tag: line.tag,
        cites: &[],
        level: level_of(line.tag),
    };
    rule_fault(alloc, scene, line)
}
