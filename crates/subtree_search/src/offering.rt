// The line that settles a job, made known.
ghost use Rattle.std.specs.Prelude.{◌≡◌, ◌↔◌, ◌+◌, ◌≤◌, length};
ghost use Rattle.fapp_model.specs.declared.instance.Instance.{Instance};
ghost use Rattle.search_log.specs.Segments.{ended};
ghost use Rattle.settle_laws.specs.Published.{IsOfferable, IsPublished};

use fapp_model::NoMemory;
use nogood::Published;
use search_log::{Log, Shared};

/// As many literals as a row has at most.
const ROW_LITERALS: usize = 8;

/// Offers the last line of the log, which stands at that place, where it says something and is as
/// short as a row. Where it gets a row, it ends a segment.
pub fn publish<H: Shared>(place: u32, shared: &mut H, log: &mut Log) -> Result<(), NoMemory>
    requires last { place + 1 ≡ length log.old.lines }
    requires behind { ended log.old.segments ≤ place }
    requires offerable { (instance : Instance) × H.serves shared.old instance
        × IsOfferable instance log.old.lines place }
    ensures shared { (was : H) → H.since was shared.old → H.since was shared.new }
    ensures serves { (instance : Instance) →
        H.serves shared.old instance ↔ H.serves shared.new instance }
    ensures published { IsPublished (H.state shared.old) (H.state shared.new) log.old log.new place
        result }
{
    let last = &log.lines()[place as usize];
    if last.tag.code == 0 {
        return Ok(());
    }
    if last.lits.len() > ROW_LITERALS {
        return Ok(());
    }
    match shared.offer(last.lits.as_slice(), last.tag) {
        Published::Home(row) => log.home(row),
        _ => Ok(()),
    }
}
