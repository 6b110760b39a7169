// The choices of a node that need not be tried.
ghost use Rattle.std.specs.Prelude.{◌<◌, ◌≤◌};
ghost use Rattle.settle_laws.specs.Passed.{IsPassedBy, Passes};
ghost use Rattle.subtree_search.specs.Explaining.{IsNodeToExplain};

use crate::explain::is_left;
use crate::recall::Recall;
use fapp_model::Literal;
use forward_count::Forward;
use search_log::{ChoiceRef, Log, Ref};
use settle_laws::Node;

/// Goes past the choices of a node that are seen not to be left, and those that a line of the
/// search settles, as far as it is found: they need not be pushed.
pub fn pass_settled(node: &mut Node, forward: &Forward, recall: &Recall, log: &Log)
    requires asked { IsNodeToExplain forward.now.instance forward.now.pushed node.old }
    requires within { node.old.choice ≤ node.old.count }
    ensures { Passes forward.now.instance recall.now.first forward.now.pushed log.now node.old
        node.new }
{
    while node.choice < node.count {
        if !is_passed_by(node, forward, recall, log) {
            return;
        }
    }
}

/// Goes past the next choice of a node where it can. Whether it did so.
fn is_passed_by(node: &mut Node, forward: &Forward, recall: &Recall, log: &Log) -> bool
    requires asked { IsNodeToExplain forward.now.instance forward.now.pushed node.old }
    requires more { node.old.choice < node.old.count }
    ensures { IsPassedBy forward.now.instance recall.now.first forward.now.pushed log.now node.old
        node.new result }
{
    let path = node.path;
    let choice = node.choice as u16;
    if !is_left(forward, node.tag, path, choice) {
        node.choice += 1;
        return true;
    }
    let Some(place) = recall.find(log, forward, node.tag, Literal { path, choice }) else {
        return false;
    };
    let line = Ref::Own(place);
    match node.refs.push(ChoiceRef { choice, line }) {
        Ok(()) => {
            node.choice += 1;
            true
        }
        Err(_) => false,
    }
}
