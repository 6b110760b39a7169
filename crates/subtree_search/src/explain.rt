// The line of a node whose choices were tried, without some literals that it can do without.
ghost use Rattle.std.specs.Prelude.{◌≡◌, ◌+◌, ◌<◌, ◌==◌, ◌∷◌, [], true, false, List, None, Some, length, slice_index_or, All, Contains, IsTrue, IfOk, OnOk};
ghost use Rattle.std.specs.List.{list_any};
ghost use Rattle.fapp_model.specs.declared.literal.Literal.{Literal as SomeLiteral};
ghost use Rattle.fapp_model.specs.Assignments.{count_at};
ghost use Rattle.fapp_model.specs.InstanceTags.{IsTagFor};
ghost use Rattle.fapp_model.specs.Instances.{IsInstance};
ghost use Rattle.fapp_model.specs.Tags.{mode_level, triple_from};
ghost use Rattle.fapp_model.specs.search.Dead.{Dead};
ghost use Rattle.fapp_model.specs.search.Partials.{IsLiteral, IsPartial, literal, names};
ghost use Rattle.fapp_model.specs.search.Prefixes.{IsPrefix};
ghost use Rattle.choice_counts.specs.CountedSums.{RemainsAt};
ghost use Rattle.choice_counts.specs.ForwardStates.{with_literals};
ghost use Rattle.search_log.specs.GoodLines.{IsSettled};
ghost use Rattle.settle_laws.specs.Explained.{Explains, IsClosedBy, IsDeadPart};
ghost use Rattle.settle_laws.specs.Lines.{IsLined};
ghost use Rattle.subtree_search.specs.Explaining.{IsNodeToExplain, IsOffPath};

use crate::lines::add_line;
use crate::prefix::push_instead;
use crate::seen::SeenRows;
use crate::tags::limit_code;
use fapp_model::{Items, Literal, NoMemory, Tag, level_of, triple_of};
use forward_count::Forward;
use search_log::{ChoiceRef, Log, Ref};
use settle_laws::{Found, Node};
use std::alloc::Global;

/// After so many literals in a row that could not be left out, the others are kept untried.
const FAILURES: u32 = 4;

/// Room for what an explanation notes.
#[derive(Drop)]
pub struct Scratch {
    /// The literals of the node, in their order.
    pub literals: Vec<Literal>,
    /// For each path, whether its literal is likely needed.
    pub needed: Vec<bool>,
}

impl Scratch {
    /// Room for so many paths.
    pub fn new(alloc: Global, paths: usize) -> Result<Scratch, NoMemory> {
        let literals = Vec::with_capacity(alloc, paths)?;
        let needed = vec![in alloc; false; paths]?;
        Ok(Scratch { literals, needed })
    }
}

/// Whether some literal is of a path.
pub fn names_path(literals: &[Literal], path: u16) -> bool
    ensures { result ≡ names literals.now path }
{
    literals.iter().any(|literal| literal.path == path)
}

/// Whether the reference at a place is of a choice.
fn is_at(refs: &[ChoiceRef], place: usize, choice: u16) -> bool
    ensures inside { IsTrue result → place < length refs.now }
    ensures listed { IsTrue result → IsTrue (list_any (λ r. r.choice == choice) refs.now) }
{
    if place >= refs.len() {
        return false;
    }
    refs[place].choice == choice
}

/// Whether the literals' sum with a choice comes to the tag's limit, by what the choice adds in
/// place of the least.
fn is_over(forward: &Forward, tag: Tag, path: u16, choice: u16) -> bool
    requires valid { IsInstance forward.now.instance }
    requires tag { IsTagFor forward.now.instance tag }
    requires level { forward.now.level ≡ mode_level (triple_from tag.code) }
    requires path { path < length forward.now.instance.paths }
    requires choice { choice < count_at forward.now.instance path }
    requires partial { IsPartial forward.now.instance (literal path choice ∷ forward.now.pushed) }
    requires own { IsPartial forward.now.instance forward.now.pushed }
    ensures { IsTrue result → Dead forward.now.instance (triple_from tag.code)
        (literal path choice ∷ forward.now.pushed) }
{
    let triple = triple_of(tag);
    if triple.v == 0 {
        return false;
    }
    if !forward.is_calm(forward.level()) {
        return false;
    }
    let Some(least) = forward.least_sum(path) else {
        return false;
    };
    let Some(low) = limit_code(triple).checked_add(least) else {
        return false;
    };
    let Some(high) = forward.sum().checked_add(forward.sum_at(path, choice)) else {
        return false;
    };
    low <= high
}

/// Whether a choice is seen to be left at a tag's level, and below its limit.
pub fn is_left(forward: &Forward, tag: Tag, path: u16, choice: u16) -> bool
    requires valid { IsInstance forward.now.instance }
    requires tag { IsTagFor forward.now.instance tag }
    requires path { path < length forward.now.instance.paths }
    requires choice { choice < count_at forward.now.instance path }
    requires partial { IsPartial forward.now.instance (literal path choice ∷ forward.now.pushed) }
    requires own { IsPartial forward.now.instance forward.now.pushed }
    ensures { result ≡ false → Dead forward.now.instance (triple_from tag.code)
        (literal path choice ∷ forward.now.pushed) }
{
    if tag.code == 0 {
        return true;
    }
    if level_of(tag) != forward.level() {
        return true;
    }
    if !forward.remains(path, choice) {
        return false;
    }
    !is_over(forward, tag, path, choice)
}

/// Whether the literals are dead with a choice of a further path.
fn is_dead_with(forward: &mut Forward, tag: Tag, path: u16, choice: u16) -> bool
    requires valid { IsInstance forward.old.instance }
    requires tag { IsTagFor forward.old.instance tag }
    requires path { path < length forward.old.instance.paths }
    requires choice { choice < count_at forward.old.instance path }
    requires free { names forward.old.pushed path ≡ false }
    requires partial { IsPartial forward.old.instance forward.old.pushed }
    ensures front { forward.new ≡ forward.old }
    ensures dead { IsTrue result → Dead forward.old.instance (triple_from tag.code)
        (literal path choice ∷ forward.old.pushed) }
{
    if !is_left(forward, tag, path, choice) {
        return true;
    }
    forward.push(path, choice);
    let dead = forward.is_dead(tag);
    forward.pop();
    dead
}

/// Whether a choice of the node has the reference at a place, or is dead with the literals.
fn is_settled(forward: &mut Forward, node: &Node, choice: u16, place: usize) -> bool
    requires asked { IsNodeToExplain forward.old.instance forward.old.pushed node.now }
    requires choice { choice < node.now.count }
    ensures front { forward.new ≡ forward.old }
    ensures settled { IsTrue result → IsSettled forward.old.instance node.now.tag.code
        forward.old.pushed node.now.path node.now.refs choice }
{
    if is_at(node.refs.as_slice(), place, choice) {
        return true;
    }
    is_dead_with(forward, node.tag, node.path, choice)
}

/// Whether each choice of the node has a reference or is dead with the literals.
pub fn is_closed(forward: &mut Forward, node: &Node) -> bool
    requires asked { IsNodeToExplain forward.old.instance forward.old.pushed node.now }
    ensures front { forward.new ≡ forward.old }
    ensures closed { IsTrue result → IsClosedBy forward.old.instance forward.old.pushed node.now }
{
    let mut next = 0;
    for choice in 0..node.count {
        if !is_settled(forward, node, choice as u16, next) {
            return false;
        }
        if is_at(node.refs.as_slice(), next, choice as u16) {
            next += 1;
        }
    }
    true
}

/// Whether what a reference names may name a path: a line or a row that does, or a row that isn't
/// found again.
fn may_name(line: Ref, log: &Log, seen: &SeenRows, path: u16) -> bool
    ensures { result ≡ false → IsOffPath seen.now.cites.items log.now.lines path line }
{
    match line {
        Ref::Own(place) => match log.lines().get(place as usize) {
            Some(line) => names_path(line.lits.as_slice(), path),
            None => false,
        },
        Ref::Row(row) => match seen.find(row) {
            Some(cite) => names_path(cite.content.literals(), path),
            None => true,
        },
    }
}

/// Whether what settles some choice may name a path.
fn is_used(refs: &[ChoiceRef], log: &Log, seen: &SeenRows, path: u16) -> bool
    ensures { result ≡ false → All (λ r. IsOffPath seen.now.cites.items log.now.lines path r.line)
        refs.now }
{
    for r in refs {
        if may_name(r.line, log, seen, path) {
            return true;
        }
    }
    false
}

/// Takes out one of the node's literals where what is left closes the node too. Whether it did so.
fn leave_out(
    forward: &mut Forward,
    node: &Node,
    log: &Log,
    seen: &SeenRows,
    literals: &[Literal],
    place: usize,
) -> bool
    requires place { place < length literals.now }
    requires asked { IsNodeToExplain forward.old.instance literals.now node.now }
    requires explains { Explains forward.old.instance seen.now.cites.items log.now.lines
        literals.now forward.old.pushed node.now }
    ensures front { forward.new ≡ with_literals forward.old forward.new.pushed }
    ensures explains { Explains forward.old.instance seen.now.cites.items log.now.lines literals.now
        forward.new.pushed node.now }
{
    let literal = literals[place];
    if !forward.is_set(literal.path) {
        return false;
    }
    if is_used(node.refs.as_slice(), log, seen, literal.path) {
        return false;
    }
    forward.remove(literal.path);
    if is_closed(forward, node) {
        return true;
    }
    forward.push(literal.path, literal.choice);
    false
}

/// Takes out the node's literals one by one, the last one first, but those that are marked and
/// those without which the node is not closed, until `FAILURES` in a row could not be left out.
fn reduce(
    forward: &mut Forward,
    node: &Node,
    log: &Log,
    seen: &SeenRows,
    literals: &[Literal],
    needed: &[bool],
)
    requires asked { IsNodeToExplain forward.old.instance literals.now node.now }
    requires explains { Explains forward.old.instance seen.now.cites.items log.now.lines
        literals.now forward.old.pushed node.now }
    ensures front { forward.new ≡ with_literals forward.old forward.new.pushed }
    ensures explains { Explains forward.old.instance seen.now.cites.items log.now.lines literals.now
        forward.new.pushed node.now }
{
    let mut failures = 0;
    for step in 0..literals.len() {
        let place = literals.len() - 1 - step;
        if failures < FAILURES {
            if !is_marked(needed, literals[place].path) {
                let out = leave_out(forward, node, log, seen, literals, place);
                failures = if out { 0 } else { failures + 1 };
            }
        }
    }
}

/// Takes out one of some literals where what is left is dead at the tag too. Whether it did so.
fn leave_out_of_dead(forward: &mut Forward, tag: Tag, literals: &[Literal], place: usize) -> bool
    requires place { place < length literals.now }
    requires valid { IsInstance forward.old.instance }
    requires tag { IsTagFor forward.old.instance tag }
    requires literals { IsPartial forward.old.instance literals.now }
    requires part { IsDeadPart forward.old.instance tag.code literals.now forward.old.pushed }
    ensures front { forward.new ≡ with_literals forward.old forward.new.pushed }
    ensures part { IsDeadPart forward.old.instance tag.code literals.now forward.new.pushed }
{
    let literal = literals[place];
    if !forward.is_set(literal.path) {
        return false;
    }
    forward.remove(literal.path);
    if forward.is_dead(tag) {
        return true;
    }
    forward.push(literal.path, literal.choice);
    false
}

/// Takes out literals one by one, the last one first, but those without which the others are not
/// dead at the tag, until `FAILURES` in a row could not be left out. None where the counts of the
/// tag's level are not at hand.
fn reduce_dead(forward: &mut Forward, tag: Tag, literals: &[Literal])
    requires valid { IsInstance forward.old.instance }
    requires tag { IsTagFor forward.old.instance tag }
    requires literals { IsPartial forward.old.instance literals.now }
    requires part { IsDeadPart forward.old.instance tag.code literals.now forward.old.pushed }
    ensures front { forward.new ≡ with_literals forward.old forward.new.pushed }
    ensures part { IsDeadPart forward.old.instance tag.code literals.now forward.new.pushed }
{
    if !is_at_hand(forward, tag) {
        return;
    }
    let mut failures = 0;
    for step in 0..literals.len() {
        if failures < FAILURES {
            let out = leave_out_of_dead(forward, tag, literals, literals.len() - 1 - step);
            failures = if out { 0 } else { failures + 1 };
        }
    }
}

/// Whether the counts are kept at a tag's level.
fn is_at_hand(forward: &Forward, tag: Tag) -> bool {
    if tag.code == 0 {
        return false;
    }
    level_of(tag) == forward.level()
}

/// Adds a Count line on literals that are dead at a tag, without some that it can do without.
pub fn add_dead(
    alloc: Global,
    scratch: &mut Scratch,
    tag: Tag,
    forward: &mut Forward,
    log: &mut Log,
) -> Result<Found, NoMemory>
    requires valid { IsInstance forward.old.instance }
    requires tag { IsTagFor forward.old.instance tag }
    requires prefix { IsPrefix forward.old.instance forward.old.pushed }
    requires dead { Dead forward.old.instance (triple_from tag.code) forward.old.pushed }
    ensures front { forward.new ≡ forward.old }
    ensures lined { (fewer : List SomeLiteral)
        × IsDeadPart forward.old.instance tag.code forward.old.pushed fewer
        × IsLined forward.old.instance fewer tag None [] log.old log.new result }
{
    scratch.literals.clear();
    scratch.literals.extend_from_slice(forward.pushed())?;
    reduce_dead(forward, tag, &scratch.literals);
    let found = add_line(alloc, tag, None, Items::new(alloc), forward, log);
    push_instead(forward, &scratch.literals);
    found
}

/// Whether a path's literal is marked.
fn is_marked(needed: &[bool], path: u16) -> bool {
    needed.get(path as usize).copied().unwrap_or(false)
}

/// Marks a path's literal.
fn mark(needed: &mut [bool], path: u16) {
    if (path as usize) < needed.len() {
        needed[path as usize] = true;
    }
}

/// Marks nothing.
fn mark_none(needed: &mut [bool]) {
    for path in 0..needed.len() {
        needed[path] = false;
    }
}

/// Marks what a line names.
fn mark_all(needed: &mut [bool], literals: &[Literal]) {
    for literal in literals {
        mark(needed, literal.path);
    }
}

/// Marks what a line of the log or a row names.
fn mark_named(needed: &mut [bool], line: Ref, log: &Log, seen: &SeenRows) {
    match line {
        Ref::Own(place) => {
            if let Some(line) = log.lines().get(place as usize) {
                mark_all(needed, line.lits.as_slice());
            }
        }
        Ref::Row(row) => {
            if let Some(cite) = seen.find(row) {
                mark_all(needed, cite.content.literals());
            }
        }
    }
}

/// Marks what the lines and rows name that settle choices.
fn mark_refs(needed: &mut [bool], refs: &[ChoiceRef], log: &Log, seen: &SeenRows) {
    for r in refs {
        mark_named(needed, r.line, log, seen);
    }
}

/// The path of a literal that clashes with a choice: one that is marked, else the first.
fn clashing(forward: &Forward, needed: &[bool], path: u16, choice: u16) -> Option<u16>
    requires literal { IsLiteral forward.now.instance (literal path choice) }
    requires apart { names forward.now.pushed path ≡ false }
{
    let mut first = None;
    for literal in forward.pushed() {
        if forward.clash(Literal { path, choice }, *literal) {
            if is_marked(needed, literal.path) {
                return Some(literal.path);
            }
            if first.is_none() {
                first = Some(literal.path);
            }
        }
    }
    first
}

/// Marks, for each choice of the node that isn't left, a literal that clashes with it.
fn mark_clashes(needed: &mut [bool], forward: &Forward, node: &Node)
    requires asked { IsNodeToExplain forward.now.instance forward.now.pushed node.now }
{
    for choice in 0..node.count {
        if !forward.remains(node.path, choice as u16) {
            if let Some(path) = clashing(forward, needed, node.path, choice as u16) {
                mark(needed, path);
            }
        }
    }
}

/// Adds the line of a node whose choices were tried, without some literals that it can do without.
pub fn add_explained(
    alloc: Global,
    scratch: &mut Scratch,
    node: Node,
    seen: &SeenRows,
    forward: &mut Forward,
    log: &mut Log,
) -> Result<Found, NoMemory>
    requires asked { IsNodeToExplain forward.old.instance forward.old.pushed node }
    requires prefix { IsPrefix forward.old.instance forward.old.pushed }
    requires closed { IsClosedBy forward.old.instance forward.old.pushed node }
    ensures front { forward.new ≡ forward.old }
    ensures lined { (fewer : List SomeLiteral)
        × Explains forward.old.instance seen.now.cites.items log.old.lines forward.old.pushed fewer
        node × IsLined forward.old.instance fewer node.tag (Some node.path) node.refs log.old
        log.new result }
{
    scratch.literals.clear();
    scratch.literals.extend_from_slice(forward.pushed())?;
    mark_none(&mut scratch.needed);
    mark_refs(&mut scratch.needed, node.refs.as_slice(), log, seen);
    mark_clashes(&mut scratch.needed, forward, &node);
    reduce(
        forward,
        &node,
        log,
        seen,
        &scratch.literals,
        &scratch.needed,
    );
    let found = add_line(alloc, node.tag, Some(node.path), node.refs, forward, log);
    push_instead(forward, &scratch.literals);
    found
}
