// The lines of the prefixes of jobs.
ghost use Rattle.std.specs.Prelude.{◌≡◌, ◌<◌, ◌≤◌, length, All, IfOk, OnOk};
ghost use Rattle.fapp_model.specs.search.Jobs.{job_count, prefixes};
ghost use Rattle.fapp_plan.specs.Sorting.{by_path};
ghost use Rattle.merge_laws.specs.Levels.{cites_of, emit_prefixes, prefix_line};
ghost use Rattle.merge_laws.specs.Refuted.{prefix_number};
ghost use Rattle.cert_merge.specs.Growth.{AreOnPathsApart, with_out};

use crate::merged::Certificate;
use cert_lines::{Line, Rule};
use fapp_model::{Items, Literal, NoMemory, Tag};
use fapp_plan::{Collected, Plan, sorted_by_path};
use std::alloc::Global;

/// No number for 0, else the number.
fn cites_of(alloc: Global, number: u32) -> Result<Items<u32>, NoMemory>
    ensures { IfOk result (λ cites. cites ≡ cites_of number) }
{
    let mut cites = Vec::new(alloc);
    if number > 0 {
        cites.push(number)?;
    }
    Ok(Items::from_vec(cites))
}

/// The Count line of a prefix, which cites the line of a number, or none.
fn prefix_line(alloc: Global, tag: Tag, prefix: &[Literal], number: u32) -> Result<Line, NoMemory>
    requires { AreOnPathsApart prefix.now }
    ensures { IfOk result (λ line. line ≡ prefix_line tag prefix.now number) }
{
    Ok(Line {
        tag,
        lits: sorted_by_path(alloc, prefix)?,
        rule: Rule::Count {
            cites: cites_of(alloc, number)?,
        },
    })
}

impl Certificate {
    /// The number of the line that settles a prefix at a tag, or 0 where that was left out or there
    /// is none.
    fn prefix_number(&self, plan: &Plan, collected: &Collected, tag: Tag, place: u32) -> u32
        requires planned { length collected.now ≡ job_count plan.now.instance plan.now.split }
        requires place { place < length (prefixes plan.now.instance plan.now.split) }
        ensures { result ≡ prefix_number plan.now.instance collected.now tag.code self.now place }
    {
        match collected.settled_by(plan, place, tag) {
            Some((log, line)) => self.number(log as usize, line),
            None => 0,
        }
    }

    /// A Count line for each prefix, by number.
    pub(crate) fn write_prefixes(
        &mut self,
        plan: &Plan,
        collected: &Collected,
        tag: Tag,
        lists: &[Items<Literal>],
    ) -> Result<(), NoMemory>
        requires planned { length collected.now ≡ job_count plan.now.instance plan.now.split }
        requires prefixes { lists.now ≡ prefixes plan.now.instance plan.now.split }
        requires apart { All AreOnPathsApart lists.now }
        ensures { OnOk result (self.new ≡ with_out self.old (emit_prefixes tag
            (prefix_number plan.now.instance collected.now tag.code self.old) 0 lists.now
            self.old.out)) }
    {
        for place in 0..plan.prefix_count() {
            let number = self.prefix_number(plan, collected, tag, place);
            let prefix = lists[place as usize].as_slice();
            self.add(prefix_line(self.alloc(), tag, prefix, number)?)?;
        }
        Ok(())
    }
}
