// The search from the literals that are pushed on.
ghost use Rattle.std.specs.Prelude.{◌≡◌, ◌↔◌, ◌≤◌, ◌∷◌, ◌++◌, false, ℕ, [], IfOk, IsTrue, List, length};
ghost use Rattle.std.specs.declared.alloc.AllocError.{AllocError};
ghost use Rattle.fapp_model.specs.declared.instance.Instance.{Instance};
ghost use Rattle.fapp_model.specs.declared.literal.Literal.{Literal};
ghost use Rattle.fapp_model.specs.search.Partials.{names};
ghost use Rattle.fapp_model.specs.search.Prefixes.{IsPrefix};
ghost use Rattle.choice_counts.specs.ForwardStates.{with_literals};
ghost use Rattle.settle_laws.specs.Explained.{AreContents, AreCitesCopied};
ghost use Rattle.settle_laws.specs.Founds.{Searched};
ghost use Rattle.settle_laws.specs.OpenNodes.{IsTrying};
ghost use Rattle.settle_laws.specs.Worlds.{World, world};
ghost use Rattle.subtree_search.specs.Walks.{BeginsAt, IsReady, work_left};
ghost use Rattle.subtree_search.specs.SearchSteps.{ComesTo, IsAdvanced, IsBack, IsNoted, IsVisited, Lightens, NotesLess};

use crate::ahead::look_ahead;
use crate::by_row::add_by_row;
use crate::enter::{Arrival, enter};
use crate::explain::{Scratch, add_explained, names_path};
use crate::lines::conclude;
use crate::node::note_choice;
use crate::pass::pass_settled;
use crate::recall::Recall;
use crate::seen::SeenRows;
use crate::tags::lesser;
use fapp_model::{Items, Literal, NoMemory, choice_count};
use forward_count::Forward;
use search_log::{Bound, Fuel, Log, Ref, Shared};
use settle_laws::{Found, Node};
use std::alloc::Global;

/// Where a search stands.
#[derive(Drop)]
pub struct Walk {
    pub alloc: Global,
    /// The job's level.
    pub level: u32,
    /// The nodes that are open, from the outermost on.
    pub nodes: Vec<Node>,
    /// Room for an assignment: a choice for each path.
    pub plan: Vec<u16>,
    /// Room for explanations.
    pub scratch: Scratch,
    /// The lines of the search, to be found again.
    pub recall: Recall,
    /// The rows that settled prefixes of the search, to be found again.
    pub seen: SeenRows,
}

impl Walk {
    /// No node is open. Room is made for an assignment of so many paths, and for as many nodes. The
    /// lines of the search begin at that place.
    pub fn new(alloc: Global, level: u32, paths: usize, first: u32) -> Result<Walk, NoMemory>
        ensures { IfOk result (λ walk. (walk.level ≡ level) × (walk.nodes.items ≡ [])
            × (length walk.plan.items ≡ paths) × (walk.recall.first ≡ first)
            × (walk.seen.cites.items ≡ [])) }
    {
        let nodes = Vec::with_capacity(alloc, paths)?;
        let plan = vec![in alloc; 0; paths]?;
        let scratch = Scratch::new(alloc, paths)?;
        let recall = Recall::new(alloc, first);
        let seen = SeenRows::new(alloc);
        Ok(Walk {
            alloc,
            level,
            nodes,
            plan,
            scratch,
            recall,
            seen,
        })
    }
}

/// Comes to the prefix that is pushed. Where it isn't settled at once, it is the innermost node
/// from then on.
fn visit<B: Bound, H: Shared>(
    walk: &mut Walk,
    forward: &mut Forward,
    fuel: &mut Fuel,
    bound: &mut B,
    shared: &mut H,
    log: &mut Log,
) -> Result<Option<Found>, NoMemory>
    requires ready { IsReady forward.old.instance walk.old }
    requires prefix { IsPrefix forward.old.instance forward.old.pushed }
    requires serves { H.serves shared.old forward.old.instance }
    ensures bound { (was : B) → B.since was bound.old → B.since was bound.new }
    ensures ready { IsReady forward.old.instance walk.new }
    ensures front { forward.new ≡ forward.old }
    ensures level { walk.new.level ≡ walk.old.level }
    ensures first { walk.new.recall.first ≡ walk.old.recall.first }
    ensures shared { (was : H) → H.since was shared.old → H.since was shared.new }
    ensures serves { (instance : Instance) →
        H.serves shared.old instance ↔ H.serves shared.new instance }
    ensures held { AreCitesCopied (H.state shared.old).copied walk.old.seen.cites.items →
        AreCitesCopied (H.state shared.new).copied walk.new.seen.cites.items }
    ensures visited { IsVisited forward.old.instance walk.old.level forward.old.pushed
        walk.old.nodes.items walk.new.nodes.items
        (world fuel.old (B.state bound.old) (H.state shared.old) log.old)
        (world fuel.new (B.state bound.new) (H.state shared.new) log.new) result }
{
    let target = match enter(walk.level, forward, fuel, bound, shared) {
        Arrival::Decided(found) => return Ok(Some(found)),
        Arrival::Cited { cite, tag } => {
            walk.seen.note(cite);
            let line = Ref::Row(cite.row);
            return Ok(Some(Found::Settled { line, tag }));
        }
        Arrival::Ticked(target) => target,
    };
    let tables = forward.tables();
    let order = tables.order();
    let depth = forward.pushed().len();
    if depth >= order.len() {
        let found = conclude(
            walk.alloc,
            &mut walk.scratch,
            &mut walk.plan,
            forward,
            bound,
            log,
        )?;
        return Ok(Some(found));
    }
    if let Some(found) = look_ahead(
        walk.alloc,
        &mut walk.scratch,
        target,
        depth,
        &walk.seen,
        forward,
        log,
    )? {
        return Ok(Some(found));
    }
    let path = order[depth];
    let count = choice_count(&tables.instance().paths.as_slice()[path as usize]);
    walk.nodes.push(Node {
        tag: target,
        path,
        choice: 0,
        count,
        refs: Items::new(walk.alloc),
    })?;
    Ok(None)
}

/// Tries the innermost node's next choice, or closes it with a line where none is left. None comes
/// where a node more is open then.
fn try_next<B: Bound, H: Shared>(
    walk: &mut Walk,
    forward: &mut Forward,
    fuel: &mut Fuel,
    bound: &mut B,
    shared: &mut H,
    log: &mut Log,
) -> Result<Option<Found>, NoMemory>
    requires ready { IsReady forward.old.instance walk.old }
    requires serves { H.serves shared.old forward.old.instance }
    requires held { AreCitesCopied (H.state shared.old).copied walk.old.seen.cites.items }
    requires trying { (root : List Literal) × (from : World) × IsPrefix forward.old.instance root
        × BeginsAt walk.old from × IsTrying forward.old.instance walk.old.level root from
        walk.old.nodes.items forward.old.pushed
        (world fuel.old (B.state bound.old) (H.state shared.old) log.old) }
    ensures bound { (was : B) → B.since was bound.old → B.since was bound.new }
    ensures ready { IsReady forward.old.instance walk.new }
    ensures level { walk.new.level ≡ walk.old.level }
    ensures first { walk.new.recall.first ≡ walk.old.recall.first }
    ensures shared { (was : H) → H.since was shared.old → H.since was shared.new }
    ensures serves { (instance : Instance) →
        H.serves shared.old instance ↔ H.serves shared.new instance }
    ensures front { forward.new ≡ with_literals forward.old forward.new.pushed }
    ensures held { AreCitesCopied (H.state shared.new).copied walk.new.seen.cites.items }
    ensures advanced { (root : List Literal) (from : World) → IsPrefix forward.old.instance root →
        BeginsAt walk.old from → IsTrying forward.old.instance walk.old.level root from
        walk.old.nodes.items forward.old.pushed
        (world fuel.old (B.state bound.old) (H.state shared.old) log.old) →
        IsAdvanced forward.old.instance walk.old.level root from walk.new.nodes.items
        forward.new.pushed
        (world fuel.new (B.state bound.new) (H.state shared.new) log.new) result }
    ensures lighter { Lightens (work_left fuel.old walk.old.nodes.items)
        (work_left fuel.new walk.new.nodes.items) result }
{
    let Some(mut node) = walk.nodes.pop() else {
        unreachable!()
    };
    pass_settled(&mut node, forward, &walk.recall, log);
    if node.choice >= node.count {
        let found = add_explained(
            walk.alloc,
            &mut walk.scratch,
            node,
            &walk.seen,
            forward,
            log,
        )?;
        return Ok(Some(found));
    }
    forward.push(node.path, node.choice as u16);
    walk.nodes.push(node)?;
    visit(walk, forward, fuel, bound, shared, log)
}

/// Notes the line that was found with the last literal that is pushed: the line has it, where nodes
/// that it doesn't name were left.
fn remember(walk: &mut Walk, forward: &Forward, found: Found)
    ensures level { walk.new.level ≡ walk.old.level }
    ensures first { walk.new.recall.first ≡ walk.old.recall.first }
    ensures seen { walk.new.seen ≡ walk.old.seen }
    ensures nodes { walk.new.nodes.items ≡ walk.old.nodes.items }
    ensures plan { length walk.new.plan.items ≡ length walk.old.plan.items }
{
    let Found::Settled { line, .. } = found else {
        return;
    };
    let Ref::Own(place) = line else {
        return;
    };
    if let Some(last) = forward.pushed().last() {
        walk.recall.note(place, *last);
    }
}

/// Where a row settles the choice of the innermost node that was tried and does not name its path,
/// it settles the node: it is closed with a line on the row's literals.
fn close_by_row(
    walk: &mut Walk,
    forward: &mut Forward,
    found: Found,
    log: &mut Log,
) -> Result<Found, NoMemory>
    requires ready { IsReady forward.old.instance walk.old }
    requires coming { (root : List Literal) × (from : World) × (now : World)
        × IsPrefix forward.old.instance root × (now.log ≡ log.old)
        × ComesTo {E = AllocError} forward.old.instance walk.old.level root from
        walk.old.nodes.items forward.old.pushed now (Ok found) }
    ensures ready { IsReady forward.old.instance walk.new }
    ensures level { walk.new.level ≡ walk.old.level }
    ensures first { walk.new.recall.first ≡ walk.old.recall.first }
    ensures seen { walk.new.seen ≡ walk.old.seen }
    ensures front { forward.new ≡ with_literals forward.old forward.new.pushed }
    ensures comes { (root : List Literal) (from now : World) → IsPrefix forward.old.instance root →
        now.log ≡ log.old → AreContents now.shared.copied walk.old.seen.cites.items →
        ComesTo {E = AllocError} forward.old.instance walk.old.level root from walk.old.nodes.items
        forward.old.pushed now (Ok found) →
        ComesTo forward.old.instance walk.old.level root from walk.new.nodes.items
        forward.new.pushed (world now.fuel now.bound now.shared log.new) result }
    ensures lighter { (fuel : ℕ) → work_left fuel walk.new.nodes.items
        ≤ work_left fuel walk.old.nodes.items }
{
    let Found::Settled { line, tag } = found else {
        return Ok(found);
    };
    let Ref::Row(row) = line else {
        return Ok(found);
    };
    let Some(cite) = walk.seen.find(row) else {
        return Ok(found);
    };
    if !is_passed(&walk.nodes, cite.content.literals()) {
        return Ok(found);
    }
    let Some(node) = walk.nodes.pop() else {
        return Ok(found);
    };
    forward.pop();
    let tag = lesser(node.tag, tag);
    add_by_row(walk.alloc, cite, tag, node.path, node.count, log)
}

/// Leaves the innermost nodes whose paths the line doesn't name that settles their choices: it
/// settles them too.
fn jump(walk: &mut Walk, forward: &mut Forward, found: Found, log: &Log)
    requires ready { IsReady forward.old.instance walk.old }
    requires coming { (root : List Literal) × (from : World) × (now : World)
        × IsPrefix forward.old.instance root × (now.log ≡ log.now)
        × ComesTo {E = AllocError} forward.old.instance walk.old.level root from
        walk.old.nodes.items forward.old.pushed now (Ok found) }
    ensures ready { IsReady forward.old.instance walk.new }
    ensures level { walk.new.level ≡ walk.old.level }
    ensures first { walk.new.recall.first ≡ walk.old.recall.first }
    ensures seen { walk.new.seen ≡ walk.old.seen }
    ensures front { forward.new ≡ with_literals forward.old forward.new.pushed }
    ensures comes { (root : List Literal) (from now : World) → IsPrefix forward.old.instance root →
        now.log ≡ log.now → ComesTo {E = AllocError} forward.old.instance walk.old.level root from
        walk.old.nodes.items forward.old.pushed now (Ok found) →
        ComesTo {E = AllocError} forward.old.instance walk.old.level root from walk.new.nodes.items
        forward.new.pushed now (Ok found) }
    ensures lighter { (fuel : ℕ) → work_left fuel walk.new.nodes.items
        ≤ work_left fuel walk.old.nodes.items }
{
    let Found::Settled { line, .. } = found else {
        return;
    };
    let Ref::Own(place) = line else {
        return;
    };
    let Some(line) = log.lines().get(place as usize) else {
        return;
    };
    while is_passed(&walk.nodes, line.lits.as_slice()) {
        walk.nodes.pop();
        forward.pop();
    }
}

/// Whether there is an innermost node and some literals don't name its path.
fn is_passed(nodes: &[Node], literals: &[Literal]) -> bool
    ensures { IsTrue result → (outer : List Node) × (node : Node) × (nodes.now ≡ outer ++ node ∷ [])
        × (names literals.now node.path ≡ false) }
{
    match nodes.last() {
        Some(node) => !names_path(literals, node.path),
        None => false,
    }
}

/// Tries the innermost node's next choice or closes it, and leaves the nodes that what was found
/// settles as well. None comes where a node more is open then.
fn advance<B: Bound, H: Shared>(
    walk: &mut Walk,
    forward: &mut Forward,
    fuel: &mut Fuel,
    bound: &mut B,
    shared: &mut H,
    log: &mut Log,
) -> Result<Option<Found>, NoMemory>
    requires ready { IsReady forward.old.instance walk.old }
    requires serves { H.serves shared.old forward.old.instance }
    requires held { AreCitesCopied (H.state shared.old).copied walk.old.seen.cites.items }
    requires trying { (root : List Literal) × (from : World) × IsPrefix forward.old.instance root
        × BeginsAt walk.old from × IsTrying forward.old.instance walk.old.level root from
        walk.old.nodes.items forward.old.pushed
        (world fuel.old (B.state bound.old) (H.state shared.old) log.old) }
    ensures bound { (was : B) → B.since was bound.old → B.since was bound.new }
    ensures ready { IsReady forward.old.instance walk.new }
    ensures level { walk.new.level ≡ walk.old.level }
    ensures first { walk.new.recall.first ≡ walk.old.recall.first }
    ensures shared { (was : H) → H.since was shared.old → H.since was shared.new }
    ensures serves { (instance : Instance) →
        H.serves shared.old instance ↔ H.serves shared.new instance }
    ensures front { forward.new ≡ with_literals forward.old forward.new.pushed }
    ensures held { AreCitesCopied (H.state shared.new).copied walk.new.seen.cites.items }
    ensures advanced { (root : List Literal) (from : World) → IsPrefix forward.old.instance root →
        BeginsAt walk.old from → IsTrying forward.old.instance walk.old.level root from
        walk.old.nodes.items forward.old.pushed
        (world fuel.old (B.state bound.old) (H.state shared.old) log.old) →
        IsAdvanced forward.old.instance walk.old.level root from walk.new.nodes.items
        forward.new.pushed
        (world fuel.new (B.state bound.new) (H.state shared.new) log.new) result }
    ensures lighter { Lightens (work_left fuel.old walk.old.nodes.items)
        (work_left fuel.new walk.new.nodes.items) result }
{
    let Some(found) = try_next(walk, forward, fuel, bound, shared, log)? else {
        return Ok(None);
    };
    let settled = close_by_row(walk, forward, found, log)?;
    jump(walk, forward, settled, log);
    remember(walk, forward, settled);
    Ok(Some(settled))
}

/// Notes what was found of the choice that was tried at the innermost node. Where no node is open,
/// or the search is over, it is handed back.
fn note(walk: &mut Walk, forward: &mut Forward, found: Found) -> Result<Option<Found>, NoMemory>
    requires ready { IsReady forward.old.instance walk.old }
    requires coming { (root : List Literal) × (from : World) × (now : World)
        × IsPrefix forward.old.instance root
        × ComesTo {E = AllocError} forward.old.instance walk.old.level root from
        walk.old.nodes.items forward.old.pushed now (Ok found) }
    ensures ready { IsReady forward.old.instance walk.new }
    ensures level { walk.new.level ≡ walk.old.level }
    ensures first { walk.new.recall.first ≡ walk.old.recall.first }
    ensures seen { walk.new.seen ≡ walk.old.seen }
    ensures front { forward.new ≡ with_literals forward.old forward.new.pushed }
    ensures noted { (root : List Literal) (from now : World) → IsPrefix forward.old.instance root →
        ComesTo {E = AllocError} forward.old.instance walk.old.level root from walk.old.nodes.items
        forward.old.pushed now (Ok found) →
        IsNoted forward.old.instance walk.old.level root from walk.new.nodes.items
        forward.new.pushed now result }
    ensures lighter { NotesLess walk.old.nodes.items walk.new.nodes.items result }
{
    let Some(mut node) = walk.nodes.pop() else {
        return Ok(Some(found));
    };
    forward.pop();
    if let Some(end) = note_choice(&mut node, found)? {
        return Ok(Some(end));
    }
    walk.nodes.push(node)?;
    Ok(None)
}

/// Searches the prefix that is pushed: its choices, theirs, and so on. The nodes that are open
/// stand in a vector, so it takes the same stack whatever the number of paths.
pub fn explore<B: Bound, H: Shared>(
    walk: &mut Walk,
    forward: &mut Forward,
    fuel: &mut Fuel,
    bound: &mut B,
    shared: &mut H,
    log: &mut Log,
) -> Result<Found, NoMemory>
    requires ready { IsReady forward.old.instance walk.old }
    requires empty { walk.old.nodes.items ≡ [] }
    requires begins { walk.old.recall.first ≡ length log.old.lines }
    requires unseen { walk.old.seen.cites.items ≡ [] }
    requires prefix { IsPrefix forward.old.instance forward.old.pushed }
    requires serves { H.serves shared.old forward.old.instance }
    ensures bound { (was : B) → B.since was bound.old → B.since was bound.new }
    ensures shared { (was : H) → H.since was shared.old → H.since was shared.new }
    ensures serves { (instance : Instance) →
        H.serves shared.old instance ↔ H.serves shared.new instance }
    ensures front { forward.new ≡ with_literals forward.old forward.new.pushed }
    ensures back { IfOk result (λ found. IsBack found forward.old.pushed forward.new.pushed) }
    ensures searched { Searched forward.old.instance walk.old.level forward.old.pushed
        (world fuel.old (B.state bound.old) (H.state shared.old) log.old)
        (world fuel.new (B.state bound.new) (H.state shared.new) log.new) result }
{
    if let Some(found) = visit(walk, forward, fuel, bound, shared, log)? {
        return Ok(found);
    }
    loop {
        let Some(found) = advance(walk, forward, fuel, bound, shared, log)? else {
            continue;
        };
        if let Some(end) = note(walk, forward, found)? {
            return Ok(end);
        }
    }
}
