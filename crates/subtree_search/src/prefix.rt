// Prefixes, pushed and taken back.
ghost use Rattle.std.specs.Prelude.{◌≡◌, ◌≤◌, [], length, take};
ghost use Rattle.fapp_model.specs.search.Prefixes.{IsPrefix};
ghost use Rattle.choice_counts.specs.ForwardStates.{with_literals};

use fapp_model::Literal;
use forward_count::Forward;

/// Pushes a prefix.
pub fn push_all(forward: &mut Forward, prefix: &[Literal])
    requires empty { forward.old.pushed ≡ [] }
    requires prefix { IsPrefix forward.old.instance prefix.now }
    ensures { forward.new ≡ with_literals forward.old prefix.now }
{
    for literal in prefix {
        forward.push(literal.path, literal.choice);
    }
}

/// Takes all literals back.
pub fn take_all_back(forward: &mut Forward)
    ensures { forward.new ≡ with_literals forward.old [] }
{
    while !forward.pushed().is_empty() {
        forward.pop();
    }
}

/// Takes the last literals back, down to so many.
fn take_back_to(forward: &mut Forward, count: usize)
    requires { count ≤ length forward.old.pushed }
    ensures { forward.new ≡ with_literals forward.old (take count forward.old.pushed) }
{
    while forward.pushed().len() > count {
        forward.pop();
    }
}

/// Pushes the literals of a prefix from one of them on.
fn push_from(forward: &mut Forward, prefix: &[Literal], from: usize)
    requires front { forward.old.pushed ≡ take from prefix.now }
    requires within { from ≤ length prefix.now }
    requires prefix { IsPrefix forward.old.instance prefix.now }
    ensures { forward.new ≡ with_literals forward.old prefix.now }
{
    for place in from..prefix.len() {
        let literal = prefix[place];
        forward.push(literal.path, literal.choice);
    }
}

/// How many literals at the front of two lists are the same.
fn common_front(first: &[Literal], second: &[Literal]) -> usize
    ensures first { result ≤ length first.now }
    ensures second { result ≤ length second.now }
    ensures same { take result first.now ≡ take result second.now }
{
    let most = first.len().min(second.len());
    for place in 0..most {
        if first[place].path != second[place].path {
            return place;
        }
        if first[place].choice != second[place].choice {
            return place;
        }
    }
    most
}

/// Pushes a prefix in place of other literals. What both have at their front stays pushed.
pub fn push_instead(forward: &mut Forward, prefix: &[Literal])
    requires { IsPrefix forward.old.instance prefix.now }
    ensures { forward.new ≡ with_literals forward.old prefix.now }
{
    let front = common_front(forward.pushed(), prefix);
    take_back_to(forward, front);
    push_from(forward, prefix, front);
}
