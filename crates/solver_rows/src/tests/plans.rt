ghost use Rattle.std.specs.Prelude.{◌≡◌, ◌<◌, ◌≤◌, length, All, IfOk, IsTrue};
ghost use Rattle.fapp_model.specs.declared.instance.Instance.{Instance as Network};
ghost use Rattle.fapp_model.specs.Levels.{levels_of};
ghost use Rattle.fapp_model.specs.Tags.{triple_from};
ghost use Rattle.fapp_model.specs.search.Jobs.{job_count};
ghost use Rattle.cert_lines.specs.WellFormed.{is_shown};
ghost use Rattle.fapp_plan.specs.Outcomes.{IsOutcomeFor, IsPlacedFor};

use super::tables::read;
use fapp_plan::{Job, Plan};
use fapp_tables::Tables;
use std::alloc::Global;
use std::test::Fail;
use worked_networks::{ALIKE, PLAIN, SMALL};

// One path of one choice.
const SINGLE: &str = "DM 1 5\nTR 9 1 -1\n";

// One of two choices of the first path is far from the second path's.
const EDGE: &str =
    "DM 1 10\nDM 1 20\nDM 2 10\nTR 1 1 1\nTR 2 2 1\nCE 1 2 10 10 10 10 10 10 10 10 10 10 10\n";

// Texts and split numbers; how many paths the prefixes name, how many prefixes and jobs there are.
const COUNTS: [(&str, u32, (u32, u32, u32)); 9] = [
    ("", 64, (0, 1, 12)),
    (SINGLE, 64, (1, 1, 12)),
    (PLAIN, 64, (2, 3, 36)),
    (ALIKE, 64, (3, 8, 96)),
    (ALIKE, 8, (3, 8, 96)),
    (ALIKE, 7, (2, 4, 48)),
    (EDGE, 1, (0, 1, 12)),
    (SMALL, 64, (3, 18, 216)),
    (SMALL, 4096, (4, 108, 1296)),
];

// Texts and split numbers; a job by its number, with its level and the paths and choices of its
// prefix.
const JOBS: [(&str, u32, u32, u32, &[(u16, u16)]); 5] = [
    ("", 64, 11, 0, &[]),
    (SINGLE, 64, 0, 11, &[(0, 0)]),
    (PLAIN, 64, 13, 10, &[(0, 0), (1, 1)]),
    (ALIKE, 8, 36, 11, &[(0, 0), (1, 1), (2, 1)]),
    (SMALL, 64, 91, 4, &[(0, 0), (2, 2), (1, 1)]),
];

/// The depth, the number of prefixes and the number of jobs of a network's plan.
fn counts_of(alloc: Global, text: &str, split: u32) -> Result<(u32, u32, u32), Fail>
    requires text { length text.now < 1000 }
    requires some { 1 ≤ split }
    requires few { split ≤ 4096 }
{
    let instance = read(alloc, text)?;
    let tables = Tables::new(alloc, &instance)?;
    let plan = Plan::new(alloc, &tables, split)?;
    Ok((plan.depth(), plan.prefix_count(), plan.job_count()))
}

/// The job of a number of a network's plan.
fn job_of(alloc: Global, text: &str, split: u32, id: u32) -> Result<Job, Fail>
    requires text { length text.now < 1000 }
    requires some { 1 ≤ split }
    requires few { split ≤ 4096 }
{
    let instance = read(alloc, text)?;
    let tables = Tables::new(alloc, &instance)?;
    let plan = Plan::new(alloc, &tables, split)?;
    if id >= plan.job_count() {
        return Err("no job of that number".into());
    }
    Ok(plan.job(alloc, id)?)
}

#[test]
fn prefixes_and_jobs_are_counted(rt: HostRuntime) -> Result<(), Fail> {
    for (text, split, wanted) in COUNTS.iter() {
        assert!(rt; text.len() < 1000 && *split >= 1 && *split <= 4096);
        assert_eq!(rt; counts_of(rt.alloc(), text, *split)?, *wanted, "at {text}");
    }
    Ok(())
}

#[test]
fn jobs_stand_by_their_numbers(rt: HostRuntime) -> Result<(), Fail> {
    for (text, split, id, level, prefix) in JOBS.iter() {
        assert!(rt; text.len() < 1000 && *split >= 1 && *split <= 4096);
        let job = job_of(rt.alloc(), text, *split, *id)?;
        assert_eq!(rt; job.level, *level, "at {text}");
        assert_eq!(rt; job.prefix.len(), prefix.len(), "at {text}");
        for (literal, (path, choice)) in job.prefix.as_slice().iter().zip(prefix.iter()) {
            assert!(rt;
                literal.path == *path && literal.choice == *choice,
                "at {text}"
            );
        }
    }
    Ok(())
}
