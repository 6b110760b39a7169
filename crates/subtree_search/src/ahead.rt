// Paths that the search would come to later.
ghost use Rattle.std.specs.Prelude.{◌≡◌, ◌<◌, false, length, IfSome};
ghost use Rattle.fapp_model.specs.InstanceTags.{IsTagFor};
ghost use Rattle.fapp_model.specs.Instances.{IsInstance};
ghost use Rattle.fapp_model.specs.search.Partials.{IsPartial, names};
ghost use Rattle.fapp_model.specs.search.Prefixes.{IsPrefix};
ghost use Rattle.fapp_model.specs.search.WorkOrder.{work_order};
ghost use Rattle.subtree_search.specs.Explaining.{IsNodeToExplain};
ghost use Rattle.subtree_search.specs.Looking.{IsWithoutRefs, IsClosedAhead, LooksAhead};

use crate::explain::{Scratch, add_explained, is_closed};
use crate::seen::SeenRows;
use fapp_model::{Items, NoMemory, Tag, choice_count};
use forward_count::Forward;
use search_log::Log;
use settle_laws::{Found, Node};
use std::alloc::Global;

/// A path of which more choices are left is not looked at, nor one of which all are.
const FEW: u32 = 4;

/// The node of a further path, with no choice left to try.
fn bare_node(alloc: Global, forward: &Forward, tag: Tag, path: u16) -> Node
    requires valid { IsInstance forward.now.instance }
    requires tag { IsTagFor forward.now.instance tag }
    requires partial { IsPartial forward.now.instance forward.now.pushed }
    requires path { path < length forward.now.instance.paths }
    requires free { names forward.now.pushed path ≡ false }
    ensures { IsWithoutRefs forward.now.instance forward.now.pushed tag result }
{
    let instance = forward.tables().instance();
    let count = choice_count(&instance.paths.as_slice()[path as usize]);
    Node {
        tag,
        path,
        choice: count,
        count,
        refs: Items::new(alloc),
    }
}

/// Whether few choices of a node's path are left, and not all.
fn has_few_left(forward: &Forward, node: &Node) -> bool
    requires asked { IsNodeToExplain forward.now.instance forward.now.pushed node.now }
{
    let mut more = FEW;
    let mut some_gone = false;
    for choice in 0..node.count {
        if forward.remains(node.path, choice as u16) {
            if more == 0 {
                return false;
            }
            more -= 1;
        } else {
            some_gone = true;
        }
    }
    some_gone
}

/// The node of a path without a literal, where few of its choices are left and each choice is dead
/// with the literals.
fn shut_at(alloc: Global, forward: &mut Forward, tag: Tag, path: u16) -> Option<Node>
    requires valid { IsInstance forward.old.instance }
    requires tag { IsTagFor forward.old.instance tag }
    requires partial { IsPartial forward.old.instance forward.old.pushed }
    requires path { path < length forward.old.instance.paths }
    ensures front { forward.new ≡ forward.old }
    ensures shut { IfSome result (IsClosedAhead forward.old.instance forward.old.pushed tag) }
{
    if forward.is_set(path) {
        return None;
    }
    let node = bare_node(alloc, forward, tag, path);
    if !has_few_left(forward, &node) {
        return None;
    }
    if !is_closed(forward, &node) {
        return None;
    }
    Some(node)
}

/// Such a node of the first path that has one, of those behind a place in the work order.
fn shut_behind(alloc: Global, forward: &mut Forward, tag: Tag, place: usize) -> Option<Node>
    requires valid { IsInstance forward.old.instance }
    requires tag { IsTagFor forward.old.instance tag }
    requires partial { IsPartial forward.old.instance forward.old.pushed }
    requires place { place < length (work_order forward.old.instance) }
    ensures front { forward.new ≡ forward.old }
    ensures shut { IfSome result (IsClosedAhead forward.old.instance forward.old.pushed tag) }
{
    let order = forward.tables().order();
    for later in place + 1..order.len() {
        let node = shut_at(alloc, forward, tag, order[later]);
        if node.is_some() {
            return node;
        }
    }
    None
}

/// Adds a line where the literals leave no choice of a path behind a place in the work order: one
/// on that path, whose choices are all dead, on literals that it needs. Only paths of which few
/// choices are left are looked at.
pub fn look_ahead(
    alloc: Global,
    scratch: &mut Scratch,
    tag: Tag,
    place: usize,
    seen: &SeenRows,
    forward: &mut Forward,
    log: &mut Log,
) -> Result<Option<Found>, NoMemory>
    requires valid { IsInstance forward.old.instance }
    requires tag { IsTagFor forward.old.instance tag }
    requires prefix { IsPrefix forward.old.instance forward.old.pushed }
    requires place { place < length (work_order forward.old.instance) }
    ensures front { forward.new ≡ forward.old }
    ensures looks { LooksAhead forward.old.instance forward.old.pushed tag log.old log.new result }
{
    let Some(node) = shut_behind(alloc, forward, tag, place) else {
        return Ok(None);
    };
    let found = add_explained(alloc, scratch, node, seen, forward, log)?;
    Ok(Some(found))
}
