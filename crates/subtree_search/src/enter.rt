// What is asked at each prefix before its choices are tried.
ghost use Rattle.std.specs.Prelude.{◌↔◌, ◌≤◌, List};
ghost use Rattle.fapp_model.specs.declared.instance.Instance.{Instance};
ghost use Rattle.fapp_model.specs.Instances.{IsInstance};
ghost use Rattle.fapp_model.specs.Levels.{levels_of};
ghost use Rattle.fapp_model.specs.search.Prefixes.{IsPrefix};
ghost use Rattle.search_log.specs.declared.shared.Cite.{Cite as SomeCite};
ghost use Rattle.search_log.specs.LogStates.{LogState};
ghost use Rattle.settle_laws.specs.Explained.{AreCitesCopied};
ghost use Rattle.settle_laws.specs.Worlds.{world};
ghost use Rattle.subtree_search.specs.Entries.{IsArrival};

use crate::tags::{lesser, level_tag};
use fapp_model::Tag;
use forward_count::Forward;
use search_log::{Bound, Cite, Fuel, Shared};
use settle_laws::Found;

/// What is known of a prefix before its choices are tried.
#[derive(Clone, Copy, Debug)]
pub enum Arrival {
    /// That it is settled.
    Decided(Found),
    /// That a row settles it, at this target.
    Cited { cite: Cite, tag: Tag },
    /// That a tick was taken, at this target.
    Ticked(Tag),
}

/// Reads the bound, looks the prefix up, tests whether it is dead, and takes fuel. The first of
/// these that decides is the result.
pub fn enter<B: Bound, H: Shared>(
    level: u32,
    forward: &Forward,
    fuel: &mut Fuel,
    bound: &mut B,
    shared: &mut H,
) -> Arrival
    requires valid { IsInstance forward.now.instance }
    requires level { level ≤ levels_of forward.now.instance }
    requires prefix { IsPrefix forward.now.instance forward.now.pushed }
    requires serves { H.serves shared.old forward.now.instance }
    ensures bound { (was : B) → B.since was bound.old → B.since was bound.new }
    ensures shared { (was : H) → H.since was shared.old → H.since was shared.new }
    ensures serves { (instance : Instance) →
        H.serves shared.old instance ↔ H.serves shared.new instance }
    ensures copied { (cites : List SomeCite) → AreCitesCopied (H.state shared.old).copied cites →
        AreCitesCopied (H.state shared.new).copied cites }
    ensures entry { (log : LogState) → IsArrival forward.now.instance level forward.now.pushed
        (world fuel.old (B.state bound.old) (H.state shared.old) log)
        (world fuel.new (B.state bound.new) (H.state shared.new) log) result }
{
    let seen = bound.now();
    if seen <= level_tag(level) {
        return Arrival::Decided(Found::Moot { seen });
    }
    let target = lesser(seen, level_tag(level + 1));
    if let Some(cite) = shared.lookup(forward.partial(), target) {
        return Arrival::Cited { cite, tag: target };
    }
    if forward.is_dead(target) {
        return Arrival::Decided(Found::Dead { tag: target });
    }
    if !fuel.take() {
        return Arrival::Decided(Found::Spent);
    }
    Arrival::Ticked(target)
}
